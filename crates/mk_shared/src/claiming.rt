//! Claims, and the copies of the basis.
ghost use Rattle.std.specs.Prelude.{◌≡◌, Some, None};
ghost use Rattle.mk_model.specs.CoreStates.{Pair};
ghost use Rattle.mk_turn.specs.Seats.{turn_view};
ghost use Rattle.mk_shared.specs.SharedAnswers.{leaves_nothing, claimed_places, AnswersTryClaim};
ghost use Rattle.mk_shared.specs.SharedAnswers.{AnswersTryStop};
ghost use Rattle.mk_shared.specs.SharedSeats.{IsStop};
ghost use Rattle.mk_ledger.specs.Halts.{halt_as};

use crate::answers::Busy;
use crate::completion::SharedCompletion;
use crate::seat::Seat;
use crate::state::SharedLedger;
use mk_ledger::{Claim, Halt};
use mk_turn::TurnSeat;

impl SharedCompletion {
    /// Asks for a pair for a seat that has none: the answer of the ledger for the seat's number.
    pub fn try_claim(&self, seat: &mut Seat) -> Result<Claim, Busy>
        requires table { seat.old.table ≡ self.now }
        requires idle { seat.old.sight.claim ≡ None }
        ensures { AnswersTryClaim seat.old result seat.new }
    {
        let Some(mut shared) = self.take(&mut seat.turn) else {
            return Err(busy(&seat.turn));
        };
        let answer = shared.claim(seat.number);
        self.table.give(&mut seat.turn, shared);
        seat.claim = places_of(answer);
        seat.nothing_left = says_end(answer);
        Ok(answer)
    }

    /// Halts for an overflow at the seat's claim, or for want of memory, and gives the claim up.
    /// Where another seat had the turn, the halt is handed back.
    pub fn try_stop(&self, seat: &mut Seat, halt: Halt) -> Result<(), (Busy, Halt)>
        requires table { seat.old.table ≡ self.now }
        requires claimed { (pair : Pair) × (seat.old.sight.claim ≡ Some pair) }
        requires cause { IsStop seat.old (halt_as halt) }
        ensures { AnswersTryStop seat.old halt result seat.new }
    {
        let Some(mut shared) = self.take(&mut seat.turn) else {
            return Err((busy(&seat.turn), halt));
        };
        shared.halt(seat.number, halt);
        self.table.give(&mut seat.turn, shared);
        seat.claim = None;
        seat.halted = true;
        Ok(())
    }
}

/// What a seat is answered whose last try found that another had the turn.
fn busy(turn: &TurnSeat<SharedLedger>) -> Busy
    ensures { result.word ≡ (turn_view turn.now).last_word }
{
    Busy {
        word: turn.last_word(),
    }
}

/// The places of a pair that was claimed.
fn places_of(answer: Claim) -> Option<(u32, u32)>
    ensures { result ≡ claimed_places answer }
{
    match answer {
        Claim::Claimed { i, j } => Some((i, j)),
        _ => None,
    }
}

/// Whether nothing is left for a worker that has this answer.
fn says_end(answer: Claim) -> bool
    ensures { result ≡ leaves_nothing answer }
{
    match answer {
        Claim::Claimed { .. } => false,
        Claim::NotYet { .. } => false,
        Claim::Ended => true,
        Claim::OverBudget { .. } => true,
        Claim::Stopped { .. } => true,
    }
}
