//! The seat of a worker at a shared completion.
ghost use Rattle.std.specs.Prelude.{◌≡◌, ◌^◌, ◌-◌, min, ◌||◌, MatchOption, None, Some};
ghost use Rattle.mk_model.specs.CoreStates.{pair_of};
ghost use Rattle.mk_shared.specs.SharedSeats.{IsSeat};

use crate::state::SharedLedger;
use mk_move::Basis;
use mk_turn::TurnSeat;
use std::marker::Model;

/// A worker's seat: its number, its claim, and its own copy of the first moves of the basis.
#[derive(Drop)]
pub struct Seat {
    pub(crate) turn: TurnSeat<SharedLedger>,
    pub(crate) number: u32,
    pub(crate) claim: Option<(u32, u32)>,
    pub(crate) copy: Basis,
    pub(crate) made: u32,
    pub(crate) workers: u32,
    pub(crate) nothing_left: bool,
    pub(crate) halted: bool,
}

impl Model for Seat {
    ghost use Rattle.mk_shared.specs.SharedSeats.{SeatView};
    ghost use Rattle.mk_shared.specs.SeatFields.{seat_of, AreSeatFields};

    ghost Value = { SeatView };

    ghost view = { seat_of };

    ghost invariant = { AreSeatFields };
}

impl Seat {
    /// Its copy of the first moves of the basis.
    pub fn basis(&self) -> &Basis
        ensures value { result.now ≡ self.now.copy }
        ensures kept { IsSeat self.now }
    {
        &self.copy
    }

    /// Its number: that of its worker.
    pub fn number(&self) -> u32
        ensures { result ≡ self.now.sight.number }
    {
        self.number
    }

    /// The places of its claim, the lesser first.
    pub fn claim(&self) -> Option<(u32, u32)>
        ensures { MatchOption result (self.now.sight.claim ≡ None)
            (λ places. self.now.sight.claim ≡ Some (pair_of places.0 places.1)) }
    {
        self.claim
    }

    /// Whether nothing is left for it: the last claim that it was answered is Ended, OverBudget or
    /// Stopped, or one of its calls kept a halt of its number.
    pub fn is_done(&self) -> bool
        ensures { result ≡ (self.now.nothing_left || self.now.halted) }
    {
        self.nothing_left || self.halted
    }

    /// How often a try of it found that another seat had the turn, cut at 2^64 - 1.
    pub fn misses(&self) -> u64
        ensures { result ≡ min self.now.sight.misses (2 ^ 64 - 1) }
    {
        self.turn.misses()
    }
}
