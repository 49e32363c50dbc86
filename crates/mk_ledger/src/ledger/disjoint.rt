//! The next pairs, claimed and settled at once since their leads are disjoint.

ghost use Rattle.std.specs.Prelude.{◌≡◌, ◌↔◌, ◌+◌, ◌<◌, None, IsTrue, OnOk, OnErr, length};
ghost use Rattle.mk_model.specs.CoreStates.{pair_of, claim_of, move_at};
ghost use Rattle.mk_model.specs.Orders.{lead};
ghost use Rattle.mk_model.specs.Pairs.{AreDisjoint};
ghost use Rattle.mk_ledger.specs.Ledgers.{IsLedger};
ghost use Rattle.mk_ledger.specs.DisjointPairs.{SettlesDisjoint, IsNextDisjoint, IsOpenRow, StaysInRow, LeavesNoneInRow};

use super::Ledger;
use super::settling::entry_of;
use crate::claims::Held;
use mk_criteria::have_coprime_leads;
use mk_journal::Kind;
use mk_model::NoMemory;

impl Ledger {
    /// Settles pairs at once for a worker that has no claim: the next pair and those behind it that have its second place, up
    /// to the first whose leads have a column in common, or until the budget is used up, and none where a worker has halted.
    /// For each it is, event by event, what claiming it and settling it by its disjoint leads is. After a refusal the pairs
    /// before stay settled. (Sturmfels, chapter 1: coprime leading terms)
    pub fn settle_disjoint(&mut self, worker: u32) -> Result<(), NoMemory>
        requires within { worker < self.old.state.workers }
        requires idle { claim_of self.old.state worker ≡ None }
        ensures settles { SettlesDisjoint (length self.old.basis.grading)
            self.old.basis.priority self.old.state worker self.new.state }
        ensures row { StaysInRow self.old.state self.new.state }
        ensures far { OnOk result (LeavesNoneInRow self.old.state worker self.new.state) }
        ensures basis { self.new.basis ≡ self.old.basis }
        ensures before { IsLedger self.old }
        ensures kept { IsLedger self.new }
    {
        let (start, j, end) = self.open_row();
        for i in start..end {
            if !self.have_disjoint_leads(i, j) {
                return Ok(());
            }
            self.settle_next(worker, i, j)?;
        }
        Ok(())
    }

    /// The places of the next pair, and the first place at which the pairs of the second end that may be claimed one after
    /// another: at once where a worker has halted, the pair isn't one of the basis, or the budget is used up.
    fn open_row(&self) -> (u32, u32, u32)
        ensures ordered { result.0 < result.1 }
        ensures row { IsOpenRow self.now.state result.0 result.1 result.2 }
        ensures kept { IsLedger self.now }
    {
        let (i, j) = self.next.pair();
        let made = self.next.number();
        if self.first.is_some() || j >= self.basis.len() || made >= self.budget {
            return (i, j, i);
        }
        let left = self.budget - made;
        if left < u64::from(j - i) {
            return (i, j, i + left as u32);
        }
        (i, j, j)
    }

    /// Have two leads of the basis no column in common?
    fn have_disjoint_leads(&self, i: u32, j: u32) -> bool
        requires first { i < length self.now.state.basis }
        requires second { j < length self.now.state.basis }
        ensures { IsTrue result ↔ AreDisjoint (lead (move_at self.now.state.basis i))
            (lead (move_at self.now.state.basis j)) }
    {
        have_coprime_leads(&self.basis, i, j)
    }

    /// Claims the next pair and settles it by its disjoint leads. After a refusal all is as before.
    fn settle_next(&mut self, worker: u32, i: u32, j: u32) -> Result<(), NoMemory>
        requires { IsNextDisjoint self.old.state worker (pair_of i j) }
        ensures settles { OnOk result (SettlesDisjoint (length self.old.basis.grading)
            self.old.basis.priority self.old.state worker self.new.state) }
        ensures one { OnOk result (self.new.state.claims_made ≡ self.old.state.claims_made + 1) }
        ensures basis { self.new.basis ≡ self.old.basis }
        ensures err { OnErr result (self.new ≡ self.old) }
        ensures kept { IsLedger self.new }
    {
        self.journal
            .push(entry_of(Held { i, j }, worker, 0, Kind::Coprime))?;
        self.settled.mark(i, j);
        self.next.advance();
        Ok(())
    }
}
