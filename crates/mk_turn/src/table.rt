//! The table of the turn and its seats.
ghost use Rattle.std.specs.Prelude.{◌≡◌, ◌≢◌, ◌+◌, ◌-◌, ◌^◌, ◌<◌, ◌≤◌, false, min};
ghost use Rattle.mk_turn.specs.Turns.{in_hand};

use crate::state::TurnState;
use crate::view::{About, Rule, Sight};
use atomic_table::{Seat, Table};
use std::alloc::Global;

/// A value that is changed in turns.
#[derive(Drop)]
pub struct TurnTable<S: TurnState> {
    pub(crate) table: Table<Option<S>, Sight<S>, About<S>, Rule, Global>,
    ghost sizes: { (table.shared.table_id.words ≡ 2) × (table.shared.table_id.slots ≡ 1) },
}

/// A seat at the table of a turn, with a number of its own.
#[derive(Drop)]
pub struct TurnSeat<S: TurnState> {
    pub(crate) seat: Seat<Option<S>, Sight<S>>,
    pub(crate) number: u32,
    pub(crate) made: u32,
    pub(crate) misses: u64,
    pub(crate) last_word: u64,
    ghost numbered: { number ≡ seat.me.0.number },
    ghost counted: { made ≡ seat.me.0.made },
    ghost awake: { seat.me.0.spent ≡ false },
    ghost hand: { seat.me.1 ≡ in_hand seat.me.0.taken },
    ghost missed: { misses ≡ min seat.me.0.misses (2 ^ 64 - 1) },
    ghost room: { seat.me.0.seats < 2 ^ 32 },
    ghost word: { last_word ≡ seat.me.0.last_word },
    ghost of_a_seat: { last_word ≤ seat.me.0.seats },
    ghost of_another: { last_word ≢ number + 1 },
}
