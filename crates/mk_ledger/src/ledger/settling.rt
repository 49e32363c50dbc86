//! Claims that are settled without a move that is placed: by disjoint leads, through a third move, or since the difference
//! reduces to 0.

ghost use Rattle.std.specs.Prelude.{◌≡◌, ◌<◌, None, Some, MatchOption, IsSome, OnOk, OnErr, length};
ghost use Rattle.mk_model.specs.CoreStates.{pair_of, claim_of, halt_of, settle, IsPairOf};
ghost use Rattle.mk_model.specs.CoreStates.Way.{Zero, Coprime};
ghost use Rattle.mk_model.specs.Events.{IsSettling};
ghost use Rattle.mk_journal.specs.Entries.{settle_of, way_of, third_of, HasItsThird};
ghost use Rattle.mk_ledger.specs.Ledgers.{IsLedger};
ghost use Rattle.mk_ledger.specs.Settlings.{IsZeroClaim, IsCoprimeClaim, IsChainClaim, IsUnplacedClaim, AreBothSettled, IsFirstUnsettled, AnswersChain, AreSmall};

use super::{ChainFault, Ledger};
use crate::claims::Held;
use mk_journal::{JournalEntry, Kind};
use mk_model::NoMemory;

impl Ledger {
    /// Settles the claim of a worker, whose difference reduces to 0. After a refusal all is as before.
    pub fn settle_zero(&mut self, worker: u32) -> Result<(), NoMemory>
        requires { IsZeroClaim (length self.old.basis.grading) self.old.state worker }
        ensures ok { OnOk result (IsSettling (length self.old.basis.grading)
            self.old.basis.priority self.old.state worker Zero self.new.state) }
        ensures basis { self.new.basis ≡ self.old.basis }
        ensures err { OnErr result (self.new ≡ self.old) }
        ensures before { IsLedger self.old }
        ensures kept { IsLedger self.new }
    {
        self.settle_unplaced(worker, 0, Kind::Zero)
    }

    /// Settles the claim of a worker, whose leads have no column in common. After a refusal all is as before. (Sturmfels,
    /// chapter 1: coprime leading terms)
    pub fn settle_coprime(&mut self, worker: u32) -> Result<(), NoMemory>
        requires { IsCoprimeClaim self.old.state worker }
        ensures ok { OnOk result (IsSettling (length self.old.basis.grading)
            self.old.basis.priority self.old.state worker Coprime self.new.state) }
        ensures basis { self.new.basis ≡ self.old.basis }
        ensures err { OnErr result (self.new ≡ self.old) }
        ensures before { IsLedger self.old }
        ensures kept { IsLedger self.new }
    {
        self.settle_unplaced(worker, 0, Kind::Coprime)
    }

    /// Settles the claim of a worker through a third move, different from both, whose lead divides the least common multiple
    /// of the two leads. `Unsettled` names the pair of the first place and the third where it isn't settled, else that of the
    /// second place and the third. After a fault all is as before.
    pub fn settle_chain(&mut self, worker: u32, k: u32) -> Result<(), ChainFault>
        requires { IsChainClaim self.old.state worker k }
        ensures answered { AnswersChain self.old worker k result self.new }
        ensures before { IsLedger self.old }
        ensures kept { IsLedger self.new }
    {
        let held = self.held_by(worker);
        if let Some((i, j)) = self.first_unsettled(held, k) {
            return Err(ChainFault::Unsettled { i, j });
        }
        self.settle_unplaced(worker, k, Kind::Chain)?;
        Ok(())
    }

    /// The first of the pairs of the held places with a third that isn't settled, the lesser place first.
    fn first_unsettled(&self, held: Held, k: u32) -> Option<(u32, u32)>
        ensures { MatchOption result (AreBothSettled self.now.state.journal held k)
            (λ places. IsFirstUnsettled self.now.state.journal held k (pair_of places.0 places.1)) }
    {
        if !self.is_settled(held.i, k) {
            return Some((held.i.min(k), held.i.max(k)));
        }
        if !self.is_settled(held.j, k) {
            return Some((held.j.min(k), held.j.max(k)));
        }
        None
    }

    /// Settles the claim of a worker in a way by which no move is placed. After a refusal all is as before.
    fn settle_unplaced(&mut self, worker: u32, third: u32, kind: Kind) -> Result<(), NoMemory>
        requires claim { IsUnplacedClaim (length self.old.basis.grading)
            self.old.basis.priority self.old.state worker (way_of kind third) }
        requires third { third < 65536 }
        requires of_kind { third ≡ third_of (way_of kind third) }
        ensures ok { OnOk result (IsSettling (length self.old.basis.grading)
            self.old.basis.priority self.old.state worker (way_of kind third) self.new.state) }
        ensures basis { self.new.basis ≡ self.old.basis }
        ensures err { OnErr result (self.new ≡ self.old) }
        ensures before { IsLedger self.old }
        ensures kept { IsLedger self.new }
    {
        let held = self.held_by(worker);
        self.journal.push(entry_of(held, worker, third, kind))?;
        self.settled.mark(held.i, held.j);
        self.claims[worker as usize] = None;
        Ok(())
    }

    /// The pair that a worker has claimed: two places below 65,536, the lesser first. The worker's number is below 64, and
    /// it has no halt.
    pub(super) fn held_by(&self, worker: u32) -> Held
        requires { IsSome (claim_of self.now.state worker) }
        ensures value { claim_of self.now.state worker ≡ Some result }
        ensures pair { IsPairOf self.now.state.basis result }
        ensures worker { worker < self.now.state.workers }
        ensures no_halt { halt_of self.now.state worker ≡ None }
        ensures small { AreSmall result worker }
        ensures kept { IsLedger self.now }
    {
        self.claims[worker as usize].unwrap()
    }
}

/// The entry of a pair that a worker settled. `third` is the third move for Chain, the new place for Place, and 0 else.
pub(super) fn entry_of(held: Held, worker: u32, third: u32, kind: Kind) -> JournalEntry
    requires small { AreSmall held worker }
    requires third { third < 65536 }
    requires of_kind { third ≡ third_of (way_of kind third) }
    ensures value { settle_of result ≡ settle worker held (way_of kind third) }
    ensures third { HasItsThird result }
{
    JournalEntry {
        i: held.i as u16,
        j: held.j as u16,
        third: third as u16,
        worker: worker as u8,
        kind,
    }
}
