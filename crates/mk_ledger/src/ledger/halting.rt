//! Workers that halt.

ghost use Rattle.std.specs.Prelude.{◌≡◌, ◌<◌, None};
ghost use Rattle.mk_model.specs.CoreStates.{halt_of};
ghost use Rattle.mk_model.specs.Events.{IsHaltCause, IsHalting};
ghost use Rattle.mk_ledger.specs.Halts.{halt_as};
ghost use Rattle.mk_ledger.specs.Ledgers.{IsLedger};
ghost use Rattle.mk_ledger.specs.Settlings.{IsFullClaim, HaltsFull, NotFull};

use super::Ledger;
use crate::halt::{Halt, KeptHalt};

impl Ledger {
    /// Halts a worker that has no halt, for an overflow at its claim or for want of memory, and gives its claim up. For a
    /// basis that has its limit of moves, `settle_place` halts it.
    pub fn halt(&mut self, worker: u32, halt: Halt)
        requires worker { worker < self.old.state.workers }
        requires no_halt { halt_of self.old.state worker ≡ None }
        requires cause { IsHaltCause self.old.state worker (halt_as halt) }
        requires not_full { NotFull (halt_as halt) }
        ensures halting { IsHalting self.old.state worker (halt_as halt) self.new.state }
        ensures basis { self.new.basis ≡ self.old.basis }
        ensures before { IsLedger self.old }
        ensures kept { IsLedger self.new }
    {
        self.keep_halt(worker, halt);
    }

    /// The worker halts, since the basis has its limit of moves and its claim needs another.
    pub(super) fn halt_full(&mut self, worker: u32)
        requires { IsFullClaim self.old.state worker }
        ensures halting { HaltsFull self.old.state worker self.new.state }
        ensures basis { self.new.basis ≡ self.old.basis }
        ensures before { IsLedger self.old }
        ensures kept { IsLedger self.new }
    {
        let held = self.held_by(worker);
        self.keep_halt(
            worker,
            Halt::Full {
                i: held.i,
                j: held.j,
            },
        );
    }

    /// Keeps the halt of a worker that has none, and gives its claim up. It is the first to halt if no other did.
    fn keep_halt(&mut self, worker: u32, halt: Halt)
        requires worker { worker < self.old.state.workers }
        requires no_halt { halt_of self.old.state worker ≡ None }
        requires cause { IsHaltCause self.old.state worker (halt_as halt) }
        ensures halting { IsHalting self.old.state worker (halt_as halt) self.new.state }
        ensures basis { self.new.basis ≡ self.old.basis }
        ensures before { IsLedger self.old }
        ensures kept { IsLedger self.new }
    {
        self.given_up += u64::from(self.claims[worker as usize].is_some());
        self.claims[worker as usize] = None;
        self.halts[worker as usize] = Some(KeptHalt { halt });
        self.first = self.first.or(Some(worker));
    }
}
