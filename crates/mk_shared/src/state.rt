//! The ledger as a value that is changed in turns.
ghost use Rattle.std.specs.Prelude.{◌≡◌, ◌<◌, length, None, OnOk, OnErr};
ghost use Rattle.mk_model.specs.CoreStates.{claim_of, halt_of};
ghost use Rattle.mk_model.specs.CoreStates.Way.{Coprime, Zero};
ghost use Rattle.mk_model.specs.Events.{IsHaltCause};
ghost use Rattle.mk_move.specs.MoveLists.{BelongsTo};
ghost use Rattle.mk_ledger.specs.Halts.{halt_as};
ghost use Rattle.mk_ledger.specs.Ledgers.{IsLedger};
ghost use Rattle.mk_ledger.specs.Settlings.{IsCoprimeClaim, IsChainClaim, IsZeroClaim};
ghost use Rattle.mk_ledger.specs.Settlings.{IsReductOfClaim, NotFull};
ghost use Rattle.mk_shared.specs.LedgerSteps.{ClaimsInTurn, SettlesInTurn, StaysInTurn};
ghost use Rattle.mk_shared.specs.LedgerSteps.{ChainsInTurn, PlacesInTurn, HaltsInTurn};

use mk_core::Job;
use mk_ledger::{ChainFault, Claim, Halt, JournalEntry, Ledger, PlaceFault};
use mk_model::NoMemory;
use mk_move::{Basis, Move};
use mk_turn::TurnState;
use std::marker::Model;

/// A ledger on the heap, so that whoever takes the turn moves a pointer. It is seen as the ledger.
/// A halt in it gave up a claim, unless it is one for want of memory.
#[derive(Drop)]
pub struct SharedLedger {
    pub(crate) ledger: Box<Ledger>,
}

impl Model for SharedLedger {
    ghost use Rattle.mk_ledger.specs.Ledgers.{LedgerView};
    ghost use Rattle.mk_shared.specs.GivenUp.{HaveGivenUp};

    ghost Value = { LedgerView };

    ghost view = { λ s. s.ledger.value };

    ghost invariant = { λ s. HaveGivenUp s.ledger.value.state };
}

/// The claim of a worker as a seat knows it. No value of it is made.
pub struct HeldPair {
    pub i: u32,
    pub j: u32,
}

impl Model for HeldPair {
    ghost use Rattle.mk_model.specs.CoreStates.{Pair, pair_of};

    ghost Value = { Pair };

    ghost view = { λ h. pair_of h.i h.j };
}

/// An entry that a worker made as a seat knows it. No value of it is made.
pub struct MadeEntry {
    pub entry: JournalEntry,
}

impl Model for MadeEntry {
    ghost use Rattle.mk_model.specs.CoreStates.{Settle};
    ghost use Rattle.mk_journal.specs.Entries.{settle_of};

    ghost Value = { Settle };

    ghost view = { λ m. settle_of m.entry };
}

/// What a shared completion sets out with: its job, and how many workers it has. No value of it is
/// made.
pub struct Outset {
    pub job: Job,
    pub workers: u32,
}

impl TurnState for SharedLedger {
    type Claim = HeldPair;

    type Entry = MadeEntry;

    type Move = Move;

    type Fixed = Outset;

    type Notice = SharedLedger;

    type Whole = SharedLedger;

    ghost use Rattle.mk_shared.specs.LedgerTurns.{ledger_meaning};
    ghost use Rattle.mk_shared.specs.LedgerLaws.{ledger_laws};

    ghost meaning = { ledger_meaning };

    ghost laws = { ledger_laws };
}

impl SharedLedger {
    /// Its basis.
    pub(crate) fn basis(&self) -> &Basis
        ensures value { result.now ≡ self.now.basis }
        ensures kept { IsLedger self.now }
    {
        self.ledger.basis()
    }

    /// Asks for a pair for a worker that has none.
    pub(crate) fn claim(&mut self, worker: u32) -> Claim
        requires within { worker < self.old.state.workers }
        requires idle { claim_of self.old.state worker ≡ None }
        ensures { ClaimsInTurn self.old worker result self.new }
    {
        // Whoever has its basis knows that it is legal.
        let _ = self.basis();
        let answer = self.ledger.claim(worker);
        let _ = self.basis();
        answer
    }

    /// Settles the claim of a worker, whose leads are disjoint.
    pub(crate) fn settle_coprime(&mut self, worker: u32) -> Result<(), NoMemory>
        requires { IsCoprimeClaim self.old.state worker }
        ensures ok { OnOk result (SettlesInTurn self.old worker Coprime self.new) }
        ensures err { OnErr result (StaysInTurn self.old self.new) }
    {
        // Whoever has its basis knows that it is legal.
        let _ = self.basis();
        self.ledger.settle_coprime(worker)?;
        let _ = self.basis();
        Ok(())
    }

    /// Settles the claim of a worker through a third move.
    pub(crate) fn settle_chain(&mut self, worker: u32, k: u32) -> Result<(), ChainFault>
        requires { IsChainClaim self.old.state worker k }
        ensures { ChainsInTurn self.old worker k result self.new }
    {
        // Whoever has its basis knows that it is legal.
        let _ = self.basis();
        let settled = self.ledger.settle_chain(worker, k);
        let _ = self.basis();
        settled
    }

    /// Settles the claim of a worker, whose difference reduces to 0.
    pub(crate) fn settle_zero(&mut self, worker: u32) -> Result<(), NoMemory>
        requires { IsZeroClaim (length self.old.basis.grading) self.old.state worker }
        ensures ok { OnOk result (SettlesInTurn self.old worker Zero self.new) }
        ensures err { OnErr result (StaysInTurn self.old self.new) }
    {
        // Whoever has its basis knows that it is legal.
        let _ = self.basis();
        self.ledger.settle_zero(worker)?;
        let _ = self.basis();
        Ok(())
    }

    /// Settles the claim of a worker by a move that is placed.
    pub(crate) fn settle_place(
        &mut self,
        worker: u32,
        front: u32,
        remainder: Move,
    ) -> Result<u32, PlaceFault>
        requires reduct { IsReductOfClaim self.old.state worker front remainder.entries }
        requires belongs { BelongsTo self.old.basis.priority self.old.basis.grading remainder }
        ensures { PlacesInTurn self.old worker front remainder result self.new }
    {
        // Whoever has its basis knows that it is legal.
        let _ = self.basis();
        let placed = self.ledger.settle_place(worker, front, remainder);
        let _ = self.basis();
        placed
    }

    /// Halts a worker that has no halt.
    pub(crate) fn halt(&mut self, worker: u32, halt: Halt)
        requires worker { worker < self.old.state.workers }
        requires no_halt { halt_of self.old.state worker ≡ None }
        requires cause { IsHaltCause self.old.state worker (halt_as halt) }
        requires not_full { NotFull (halt_as halt) }
        ensures { HaltsInTurn self.old worker (halt_as halt) self.new }
    {
        // Whoever has its basis knows that it is legal.
        let _ = self.basis();
        self.ledger.halt(worker, halt);
        let _ = self.basis();
    }
}
