//! What a seat knows, and the rule over all that the seats know.
ghost use Rattle.mk_turn.specs.Turns.{Standing, beginning};

use crate::state::TurnState;
use atomic_table::TableRule;
use std::collections::LinkedList;
use std::marker::PhantomData;
use std::snapshot::Snapshot;

/// What a seat knows. No value of it is made.
pub struct View<S, C, E, G, F, N, W> {
    pub number: u64,
    /// The seat was joined into another, and knows nothing any more.
    pub spent: bool,
    /// The value that the seat took, while it has the turn.
    pub taken: Option<S>,
    pub raised: bool,
    /// The published length is at least this.
    pub known: u64,
    pub claim: Option<C>,
    pub entries: LinkedList<E>,
    pub seen: LinkedList<G>,
    pub fixed: Option<F>,
    pub notices: LinkedList<N>,
    pub gives: u64,
    /// Of the value that the seat took before its last give.
    pub last: Option<W>,
    pub misses: u64,
    /// What the last try that failed read of word 0, and 0 before any failed.
    pub last_word: u64,
    /// How many seats the table has room for.
    pub seats: u64,
    pub made: u64,
    pub joined: LinkedList<JoinedSeat<E>>,
}

/// What the first seat keeps of one that it joined. No value of it is made.
pub struct JoinedSeat<E> {
    pub number: u64,
    pub entries: LinkedList<E>,
}

pub type Sight<S> = View<
    S,
    <S as TurnState>::Claim,
    <S as TurnState>::Entry,
    <S as TurnState>::Move,
    <S as TurnState>::Fixed,
    <S as TurnState>::Notice,
    <S as TurnState>::Whole,
>;

/// What a table is made with.
#[derive(Drop)]
pub struct About<S> {
    pub value: Snapshot<S>,
    pub seats: u64,
}

/// The rule of the turn.
pub struct Rule;

impl<S: TurnState> TableRule<Option<S>, Sight<S>, About<S>> for Rule {
    ghost holds = { λ about. Standing S.meaning about.seats };

    ghost first = { λ about. beginning S.meaning about.value.value about.seats };
}
