//! A worker asks for a pair.

ghost use Rattle.std.specs.Prelude.{◌≡◌, ◌≤◌, ◌<◌, ℕ, None, length};
ghost use Rattle.mk_model.specs.CoreStates.{claim_of};
ghost use Rattle.mk_ledger.specs.Claims.{AnswersClaim};
ghost use Rattle.mk_ledger.specs.HeldClaims.{MayClaim};
ghost use Rattle.mk_ledger.specs.Ledgers.{IsLedger};
ghost use Rattle.mk_ledger.specs.PairFlags.{pairs_of};

use super::Ledger;
use crate::claims::{Claim, Held, least_claim};

impl Ledger {
    /// Answers a worker that asks for a pair and has none. Where no worker has halted, a pair is free and the budget isn't
    /// used up, the least free pair is its claim from now on. It allocates nothing.
    pub fn claim(&mut self, worker: u32) -> Claim
        requires within { worker < self.old.state.workers }
        requires idle { claim_of self.old.state worker ≡ None }
        ensures answered { AnswersClaim self.old.state worker result self.new.state }
        ensures basis { self.new.basis ≡ self.old.basis }
        ensures before { IsLedger self.old }
        ensures kept { IsLedger self.new }
    {
        if let Some(other) = self.first {
            return Claim::Stopped { worker: other };
        }
        if !self.next.is_within(self.basis.len()) {
            return self.none_left();
        }
        let made = self.next.number();
        if made >= self.budget {
            return Claim::OverBudget { made };
        }
        self.give(worker)
    }

    /// The answer where no worker has halted and every pair was claimed.
    fn none_left(&self) -> Claim
        requires no_halt { self.now.state.first_halted ≡ None }
        requires all { pairs_of (length self.now.state.basis) ≤ self.now.state.claims_made }
        ensures { (worker : ℕ) → AnswersClaim self.now.state worker result self.now.state }
    {
        match least_claim(&self.claims) {
            Some((worker, held)) => Claim::NotYet {
                worker,
                i: held.i,
                j: held.j,
            },
            None => Claim::Ended,
        }
    }

    /// Gives the worker the next pair in their order, which is the least free one.
    fn give(&mut self, worker: u32) -> Claim
        requires { MayClaim self.old.state worker }
        ensures answered { AnswersClaim self.old.state worker result self.new.state }
        ensures basis { self.new.basis ≡ self.old.basis }
        ensures kept { IsLedger self.new }
    {
        let (i, j) = self.next.pair();
        self.claims[worker as usize] = Some(Held { i, j });
        self.next.advance();
        Claim::Claimed { i, j }
    }
}
