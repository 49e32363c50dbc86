//! The calls on the table of the turn.
ghost use Rattle.std.specs.Prelude.{◌≡◌, ◌≢◌, ℕ, ◌+◌, ◌-◌, ◌^◌, ◌<◌, ◌≤◌, false, min, [], None};
ghost use Rattle.std.specs.Prelude.{Some, IfOk, IfSome, IfNone};
ghost use Rattle.mk_turn.specs.Turns.{Knows, IsUnused, beginning, one_if, took, missed, CanRaise};
ghost use Rattle.mk_turn.specs.Turns.{raised};
ghost use Rattle.mk_turn.specs.Turns.{CanGive, Gave, one_more, newcomer, joining, AllJoined};
ghost use Rattle.mk_turn.specs.Turns.{Closes};
ghost use Rattle.mk_turn.specs.Seats.{turn_view, IsSeatOf, IsSameTable};

use crate::plays::{Announce, Cut, Give, Glue, Look, Take};
use crate::state::TurnState;
use crate::table::{TurnSeat, TurnTable};
use crate::view::About;
use atomic_table::{Refused, Table};
use mk_model::NoMemory;
use std::alloc::Global;
use std::snapshot::Snapshot;

impl<S: TurnState> TurnTable<S> {
    /// A table of a value, with room for so many seats, and its first seat, which has number 0.
    pub fn new(
        alloc: Global,
        value: S,
        length: u64,
        seats: u32,
    ) -> Result<(TurnTable<S>, TurnSeat<S>), NoMemory>
    where
        S: Drop,
        requires seats { 0 < seats }
        requires length { length ≡ S.meaning.len value }
        requires short { length < 2 ^ 32 }
        requires fresh { (n : ℕ) → IsUnused S.meaning value n }
        ensures table { IfOk result (λ (table, seat). IsSeatOf table seat) }
        ensures view { IfOk result (λ (table, seat).
            turn_view seat ≡ beginning S.meaning value seats) }
    {
        let about = About {
            value: Snapshot::of(&value),
            seats: seats as u64,
        };
        let mut slots = Vec::with_capacity(alloc, 1)?;
        slots.push(Some(value))?;
        match Table::new(alloc, &[0, length], slots, &about) {
            Ok((table, seat)) => Ok((
                TurnTable { table },
                TurnSeat {
                    seat,
                    number: 0,
                    made: 1,
                    misses: 0,
                    last_word: 0,
                },
            )),
            Err(Refused { slots: _slots }) => Err(NoMemory),
        }
    }

    /// Tries to take the turn. It is None exactly where word 0 was held at this call's own step.
    pub fn try_take(&self, seat: &mut TurnSeat<S>) -> Option<S>
        requires table { IsSeatOf self.now seat.old }
        requires free { (turn_view seat.old).taken ≡ None }
        ensures table { IsSameTable seat.old seat.new }
        ensures some { IfSome result (λ x.
            turn_view seat.new ≡ took S.meaning x (turn_view seat.old)) }
        ensures knows { IfSome result (λ x. Knows S.meaning x (turn_view seat.old)) }
        ensures known { IfSome result (λ x. (turn_view seat.old).known ≤ S.meaning.len x) }
        ensures none { IfNone result (turn_view seat.new
            ≡ missed S.meaning (turn_view seat.new).last_word (turn_view seat.old)) }
        ensures held { IfNone result (0 < (turn_view seat.new).last_word) }
        ensures of_a_seat { IfNone result
            ((turn_view seat.new).last_word ≤ (turn_view seat.old).seats) }
        ensures of_another { IfNone result
            ((turn_view seat.new).last_word ≢ (turn_view seat.old).number + 1) }
    {
        let mine = seat.number as u64 + 1;
        let found = self
            .table
            .shared
            .compare_exchange::<Take>(&mut seat.seat, 0, 0, mine);
        if found != 0 {
            seat.misses = seat.misses.saturating_add(1);
            seat.last_word = found;
            return None;
        }
        self.table.shared.exchange(&mut seat.seat, 0, None)
    }

    /// Gives the turn back with this value, which is the one that was taken, or comes from it by
    /// one event of the seat's number.
    pub fn give(&self, seat: &mut TurnSeat<S>, value: S)
        requires table { IsSeatOf self.now seat.old }
        requires turn { CanGive S.meaning (turn_view seat.old) value }
        ensures table { IsSameTable seat.old seat.new }
        ensures view { (x : S) → (turn_view seat.old).taken ≡ Some x →
            Gave S.meaning (turn_view seat.old) x value (turn_view seat.new) }
    {
        let vacant = self.table.shared.exchange(&mut seat.seat, 0, Some(value));
        let None = vacant else { unreachable!() };
        self.table.shared.store::<Give>(&mut seat.seat, 0, 0);
    }

    /// Publishes the length that the value will have when the turn is given back.
    pub fn raise(&self, seat: &mut TurnSeat<S>, length: u64)
        requires table { IsSeatOf self.now seat.old }
        requires turn { CanRaise S.meaning (turn_view seat.old) length }
        requires once { (turn_view seat.old).raised ≡ false }
        ensures table { IsSameTable seat.old seat.new }
        ensures view { turn_view seat.new ≡ raised S.meaning (turn_view seat.old) }
    {
        self.table
            .shared
            .store::<Announce>(&mut seat.seat, 1, length);
    }

    /// The published length, without the turn.
    pub fn length(&self, seat: &mut TurnSeat<S>) -> u64
        requires table { IsSeatOf self.now seat.old }
        ensures table { IsSameTable seat.old seat.new }
        ensures known { (turn_view seat.old).known ≤ result }
        ensures short { result < 2 ^ 32 }
        ensures held { (x : S) → (turn_view seat.old).taken ≡ Some x →
            result ≡ S.meaning.len x + one_if (turn_view seat.old).raised }
        ensures view { turn_view seat.new ≡ record (turn_view seat.old) { known = result } }
    {
        self.table.shared.load::<Look>(&mut seat.seat, 1)
    }

    /// Makes one more seat, with the next number.
    pub fn split(&self, seat: &mut TurnSeat<S>) -> TurnSeat<S>
        requires table { IsSeatOf self.now seat.old }
        requires first { (turn_view seat.old).number ≡ 0 }
        requires room { (turn_view seat.old).made < (turn_view seat.old).seats }
        ensures table { IsSameTable seat.old seat.new }
        ensures new_table { IsSameTable seat.old result }
        ensures view { turn_view seat.new ≡ one_more (turn_view seat.old) }
        ensures new { turn_view result ≡ newcomer (turn_view seat.old) }
    {
        let number = seat.made;
        let other = self.table.shared.split_seat::<Cut>(&mut seat.seat);
        seat.made += 1;
        TurnSeat {
            seat: other,
            number,
            made: 0,
            misses: 0,
            last_word: 0,
        }
    }

    /// Joins a seat that has no claim into the first one, which keeps its entries and its notices.
    pub fn join(&self, seat: &mut TurnSeat<S>, other: TurnSeat<S>)
        requires table { IsSeatOf self.now seat.old }
        requires other_table { IsSeatOf self.now other }
        requires first { (turn_view seat.old).number ≡ 0 }
        requires away { (turn_view other).taken ≡ None }
        requires idle { (turn_view other).claim ≡ None }
        ensures table { IsSameTable seat.old seat.new }
        ensures view { turn_view seat.new ≡ joining (turn_view seat.old) (turn_view other) }
    {
        let TurnSeat {
            seat: theirs,
            number: _,
            made: _,
            misses: _,
            last_word: _,
        } = other;
        self.table.shared.join_seat::<Glue>(&mut seat.seat, theirs);
    }

    /// The value at the end, once every seat that was made was joined.
    pub fn close(self, seat: TurnSeat<S>) -> S
        requires table { IsSeatOf self seat }
        requires first { (turn_view seat).number ≡ 0 }
        requires away { (turn_view seat).taken ≡ None }
        requires joined { AllJoined (turn_view seat) }
        ensures { Closes S.meaning result (turn_view seat) }
    {
        let TurnTable { table } = self;
        let TurnSeat {
            seat: mine,
            number: _,
            made: _,
            misses: _,
            last_word: _,
        } = seat;
        let mut closed = table.close_with(mine);
        let last = closed.take(0);
        closed.free();
        let Some(value) = last else { unreachable!() };
        value
    }
}

impl<S: TurnState> TurnSeat<S> {
    /// How often a try of this seat found the turn held, cut at 2^64 - 1.
    pub fn misses(&self) -> u64
        ensures { result ≡ min (turn_view self.now).misses (2 ^ 64 - 1) }
    {
        self.misses
    }

    /// What the seat's last try that failed read of word 0: one more than the number of the seat
    /// that had the turn. It is 0 before any failed.
    pub fn last_word(&self) -> u64
        ensures word { result ≡ (turn_view self.now).last_word }
        ensures of_a_seat { result ≤ (turn_view self.now).seats }
        ensures of_another { result ≢ (turn_view self.now).number + 1 }
    {
        self.last_word
    }
}
