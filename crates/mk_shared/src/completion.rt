//! A completion that is shared, and its seats.
ghost use Rattle.std.specs.Prelude.{◌≡◌, ℕ, ◌<◌, ◌≤◌, length, IfOk, IfErr, IfSome, IfNone, None};
ghost use Rattle.std.specs.Prelude.{Some};
ghost use Rattle.mk_model.specs.CoreStates.{claim_of, new_state};
ghost use Rattle.mk_move.specs.MoveLists.{vectors_of};
ghost use Rattle.mk_core.specs.declared.phase.Stopped.TheVariants.{Memory};
ghost use Rattle.mk_turn.specs.Turns.{joining, AllJoined, Closes};
ghost use Rattle.mk_ledger.specs.Ledgers.{IsLedger};
ghost use Rattle.mk_shared.specs.GivenUp.{HaveGivenUp};
ghost use Rattle.mk_shared.specs.LedgerTurns.{ledger_meaning, outset_of, StaysTrue};
ghost use Rattle.mk_turn.specs.Seats.{turn_view, IsSameTable};
ghost use Rattle.mk_shared.specs.SharedSeats.{WasAnswered, TakesLedger, MissesTurn};
ghost use Rattle.mk_ledger.specs.declared.claims.Claim.{Claim};
ghost use Rattle.mk_shared.specs.SharedAnswers.{AnswersSplit, IsFirstSeat};

use crate::answers::SplitFault;
use crate::seat::Seat;
use crate::state::SharedLedger;
use mk_core::{Job, Stopped};
use mk_ledger::Ledger;
use mk_model::NoMemory;
use mk_turn::{TurnSeat, TurnTable};
use std::alloc::Global;
use std::marker::Model;

/// A completion on which many workers work, each by a seat of its own. It is seen as the table that
/// its seats are of.
#[derive(Drop)]
pub struct SharedCompletion {
    pub(crate) table: TurnTable<SharedLedger>,
}

impl Model for SharedCompletion {
    ghost use Rattle.atomic_table.specs.Seated.{TableId};

    ghost Value = { TableId };

    ghost view = { λ s. s.table.table.shared.table_id };
}

impl SharedCompletion {
    /// A completion of a job by so many workers, 1 to 64, and its first seat, which has number 0
    /// and a copy of the start.
    pub fn start(alloc: Global, job: Job, workers: u32) -> Result<(SharedCompletion, Seat), Stopped>
        requires some { 1 ≤ workers }
        requires few { workers ≤ 64 }
        ensures ok { IfOk result (λ pair. IsFirstSeat job workers pair.0 pair.1) }
        ensures err { IfErr result (λ stopped. stopped ≡ Memory) }
    {
        match start_table(alloc, job, workers) {
            Ok(pair) => Ok(pair),
            Err(NoMemory) => Err(Stopped::Memory),
        }
    }

    /// Tries to take the turn.
    pub(crate) fn take(&self, turn: &mut TurnSeat<SharedLedger>) -> Option<SharedLedger>
        requires table { turn.old.seat.table_id ≡ self.now }
        requires free { (turn_view turn.old).taken ≡ None }
        ensures table { IsSameTable turn.old turn.new }
        ensures some { IfSome result (λ ledger.
            TakesLedger ledger (turn_view turn.old) (turn_view turn.new)) }
        ensures none { IfNone result
            (MissesTurn (turn_view turn.new).last_word (turn_view turn.old) (turn_view turn.new)) }
    {
        let shared = self.table.try_take(turn)?;
        // Whoever has its basis knows that it is legal.
        let _ = shared.basis();
        Some(shared)
    }

    /// A new seat with the next number and a copy of the first seat's copy. It takes no turn.
    pub fn split(&self, seat: &mut Seat) -> Result<Seat, SplitFault>
        requires table { seat.old.table ≡ self.now }
        requires first { seat.old.sight.number ≡ 0 }
        ensures { AnswersSplit seat.old result seat.new }
    {
        if seat.made >= seat.workers {
            return Err(SplitFault::Seats { made: seat.made });
        }
        let Ok(copy) = seat.copy.try_copy() else {
            return Err(SplitFault::Memory);
        };
        let turn = self.table.split(&mut seat.turn);
        let number = seat.made;
        seat.made += 1;
        Ok(Seat {
            turn,
            number,
            claim: None,
            copy,
            made: 0,
            workers: seat.workers,
            nothing_left: false,
            halted: false,
        })
    }

    /// The published length of the basis, at least that of the seat's copy. It takes no turn.
    pub fn news(&self, seat: &mut Seat) -> u32
        requires table { seat.old.table ≡ self.now }
        ensures copy { length seat.old.copy.moves ≤ result }
        ensures known { seat.old.sight.known ≤ result }
        ensures seat { seat.new
            ≡ record seat.old { sight = record seat.old.sight { known = result } } }
    {
        self.table.length(&mut seat.turn) as u32
    }

    /// Joins a seat without a claim into the first one, which keeps its entries and its notices. It
    /// takes no turn.
    pub fn join(&self, seat: &mut Seat, other: Seat)
        requires table { seat.old.table ≡ self.now }
        requires other_table { other.table ≡ self.now }
        requires first { seat.old.sight.number ≡ 0 }
        requires other { other.sight.claim ≡ None }
        ensures { seat.new ≡ record seat.old { sight = joining seat.old.sight other.sight } }
    {
        self.table.join(&mut seat.turn, other.turn);
    }

    /// The ledger at the end, once each seat that was made was joined.
    pub fn close(self, seat: Seat) -> Ledger
        requires table { seat.table ≡ self }
        requires first { seat.sight.number ≡ 0 }
        requires idle { seat.sight.claim ≡ None }
        requires joined { AllJoined seat.sight }
        ensures closes { Closes ledger_meaning result seat.sight }
        ensures kept { IsLedger result }
        ensures outset { Some (outset_of result) ≡ seat.sight.fixed }
        ensures answers { (answer : Claim) → WasAnswered seat.sight answer →
            StaysTrue answer result.state }
        ensures given_up { HaveGivenUp result.state }
        ensures unclaimed { (worker : ℕ) → claim_of result.state worker ≡ None }
    {
        let ledger = Box::into_inner(self.table.close(seat.turn).ledger);
        // Whoever has its basis knows that it is legal.
        let _ = ledger.basis();
        ledger
    }
}

/// The table of a new ledger, and its first seat.
fn start_table(alloc: Global, job: Job, workers: u32) -> Result<(SharedCompletion, Seat), NoMemory>
    requires some { 1 ≤ workers }
    requires few { workers ≤ 64 }
    ensures { IfOk result (λ pair. IsFirstSeat job workers pair.0 pair.1) }
{
    let copy = job.start.try_copy()?;
    let length = job.start.len() as u64;
    let ledger = Ledger::new(alloc, job.start, job.budget, job.basis_limit, workers)?;
    let shared = SharedLedger {
        ledger: Box::new(alloc, ledger)?,
    };
    let (table, turn) = TurnTable::new(alloc, shared, length, workers)?;
    let completion = SharedCompletion { table };
    let seat = Seat {
        turn,
        number: 0,
        claim: None,
        copy,
        made: 1,
        workers,
        nothing_left: false,
        halted: false,
    };
    Ok((completion, seat))
}
