//! A worker's steps, one call on the shared completion each.

ghost use Rattle.std.specs.Prelude.{◌≡◌, ◌<◌, IsTrue, IsSome, Some, OnOk};
ghost use Rattle.mk_model.specs.CoreStates.{pair_of};
ghost use Rattle.mk_criteria.specs.declared.chains.TheConstants.{TRIES_MAX};
ghost use Rattle.mk_reduce.specs.Leads.{leads_of};
ghost use Rattle.mk_shared.specs.SharedSeats.{HasThirdMove};
ghost use Rattle.mk_workers.specs.Stages.{Steps, WorksAt, HasSeatWork, AreFirstLeads};
ghost use Rattle.mk_workers.specs.declared.stage.SeatStage.TheVariants.{Idle, Fresh, Tests, Disjoint, Thirds, Ready, Reduced, Stale, Stopping};

use crate::gate::Gate;
use crate::pauses::Pauses;
use crate::stage::{SeatStage, halt_for_stop};
use mk_core::LeadFinder;
use mk_criteria::{have_coprime_leads, next_third};
use mk_ledger::{Claim, Halt};
use mk_model::NoMemory;
use mk_move::{Basis, Finder};
use mk_reduce::{Work, critical, reduce};
use mk_shared::{RefreshFault, Seat, SettleFault, SettledBy, SharedCompletion, TryChainFault};
use std::alloc::Global;

/// A worker: its seat, a finder of the leads of the first moves of its copy, how many reductions it has begun, whether one of
/// them was of its last pair, and its pauses.
#[derive(Drop)]
pub(crate) struct Worker {
    pub(crate) seat: Seat,
    finder: LeadFinder,
    reached: u64,
    reduced: bool,
    pauses: Pauses,
}

impl Worker {
    /// The worker of a seat, which has begun no reduction.
    pub(crate) fn new(alloc: Global, seat: Seat) -> Worker
        ensures seat { result.seat ≡ seat }
        ensures leads { AreFirstLeads result.finder seat.copy }
    {
        Worker {
            seat,
            finder: LeadFinder::new(alloc),
            reached: 0,
            reduced: false,
            pauses: Pauses::new(),
        }
    }

    /// Takes the step of a stage, and gives the next stage: the same where another seat had the turn.
    pub(crate) fn take_step<G: Gate>(
        &mut self,
        alloc: Global,
        shared: &SharedCompletion,
        gate: &G,
        stage: SeatStage,
    ) -> SeatStage
        requires { WorksAt shared.now self.old.seat self.old.finder stage }
        ensures { Steps self.old.seat self.new.seat self.new.finder result }
    {
        match stage {
            SeatStage::Idle => self.claim_next(shared),
            SeatStage::Fresh => self.copy_basis(shared),
            SeatStage::Tests => self.test_pair(shared),
            SeatStage::Disjoint => self.settle_coprime(shared),
            SeatStage::Thirds { from, tried } => self.look_for_third(shared, from, tried),
            SeatStage::Ready => self.reduce_pair(alloc, gate),
            SeatStage::Reduced { work } => self.settle_work(shared, work),
            SeatStage::Stale { work } => self.reduce_again(shared, gate, work),
            SeatStage::Stopping { halt } => self.halt_by(shared, halt),
            SeatStage::Gone => SeatStage::Gone,
        }
    }

    /// Asks for a pair. A worker that isn't the first rests before.
    fn claim_next(&mut self, shared: &SharedCompletion) -> SeatStage
        requires { WorksAt shared.now self.old.seat self.old.finder Idle }
        ensures { Steps self.old.seat self.new.seat self.new.finder result }
    {
        self.pauses.rest(self.seat.number());
        match shared.try_claim(&mut self.seat) {
            Ok(Claim::Claimed { .. }) => {
                self.pauses.restart(self.reduced);
                self.reduced = false;
                SeatStage::Fresh
            }
            Ok(Claim::Ended) => SeatStage::Gone,
            Ok(Claim::OverBudget { .. }) => SeatStage::Gone,
            Ok(Claim::Stopped { .. }) => SeatStage::Gone,
            Ok(Claim::NotYet { .. }) => self.try_again(SeatStage::Idle),
            Err(_) => self.try_again(SeatStage::Idle),
        }
    }

    /// Pauses, and stays at a stage.
    fn try_again(&mut self, stage: SeatStage) -> SeatStage
        ensures stage { result ≡ stage }
        ensures seat { self.new.seat ≡ self.old.seat }
        ensures finder { self.new.finder ≡ self.old.finder }
    {
        self.pauses.pause();
        stage
    }

    /// The places of the claim, the lesser first.
    fn claimed_places(&self) -> (u32, u32)
        requires { IsSome self.now.seat.sight.claim }
        ensures { self.now.seat.sight.claim ≡ Some (pair_of result.0 result.1) }
    {
        self.seat.claim().unwrap()
    }

    /// Copies what is new of the basis. Where the published length tells that nothing is, it takes no turn.
    fn copy_basis(&mut self, shared: &SharedCompletion) -> SeatStage
        requires { WorksAt shared.now self.old.seat self.old.finder Fresh }
        ensures { Steps self.old.seat self.new.seat self.new.finder result }
    {
        if self.is_current(shared) {
            return SeatStage::Tests;
        }
        match shared.try_refresh(&mut self.seat) {
            Ok(_) => SeatStage::Tests,
            Err(RefreshFault::Busy) => self.try_again(SeatStage::Fresh),
            Err(RefreshFault::Memory) => SeatStage::Stopping { halt: Halt::Memory },
        }
    }

    /// Has its copy both moves of the pair, and as many moves as the published length tells of?
    fn is_current(&mut self, shared: &SharedCompletion) -> bool
        requires { WorksAt shared.now self.old.seat self.old.finder Fresh }
        ensures stays { Steps self.old.seat self.new.seat self.new.finder Fresh }
        ensures copy { IsTrue result → Steps self.old.seat self.new.seat self.new.finder Tests }
    {
        let (_, j) = self.claimed_places();
        let length = self.seat.basis().len();
        if j >= length {
            return false;
        }
        shared.news(&mut self.seat) == length
    }

    /// Tests the leads of the pair: settles it by them where they are disjoint, or else looks for a third move.
    fn test_pair(&mut self, shared: &SharedCompletion) -> SeatStage
        requires { WorksAt shared.now self.old.seat self.old.finder Tests }
        ensures { Steps self.old.seat self.new.seat self.new.finder result }
    {
        let (i, j) = self.claimed_places();
        if have_coprime_leads(self.seat.basis(), i, j) {
            return self.settle_coprime(shared);
        }
        self.look_for_third(shared, 0, 0)
    }

    /// Settles the pair by its disjoint leads.
    fn settle_coprime(&mut self, shared: &SharedCompletion) -> SeatStage
        requires { WorksAt shared.now self.old.seat self.old.finder Disjoint }
        ensures { Steps self.old.seat self.new.seat self.new.finder result }
    {
        match shared.try_settle_coprime(&mut self.seat) {
            Ok(()) => SeatStage::Idle,
            Err(RefreshFault::Busy) => self.try_again(SeatStage::Disjoint),
            Err(RefreshFault::Memory) => SeatStage::Stopping { halt: Halt::Memory },
        }
    }

    /// Tries the next third move from a place on, where so many were tried, or is ready to reduce.
    fn look_for_third(&mut self, shared: &SharedCompletion, from: u32, tried: u32) -> SeatStage
        requires { WorksAt shared.now self.old.seat self.old.finder (Thirds from tried) }
        ensures { Steps self.old.seat self.new.seat self.new.finder result }
    {
        let (i, j) = self.claimed_places();
        // The pair of the second place with a third from the first place on is claimed after this one, so it is hardly settled.
        match next_third(self.seat.basis(), i, j, from, i, tried) {
            Some(k) => self.try_third(shared, tried, k),
            None => SeatStage::Ready,
        }
    }

    /// Settles the pair through the third move, where its pairs with both are settled, or else goes on behind it.
    fn try_third(&mut self, shared: &SharedCompletion, tried: u32, k: u32) -> SeatStage
        requires works { WorksAt shared.now self.old.seat self.old.finder (Thirds k tried) }
        requires third { HasThirdMove self.old.seat k }
        requires few { tried < TRIES_MAX }
        ensures { Steps self.old.seat self.new.seat self.new.finder result }
    {
        // Fewer than 2^32 moves stand before the next place.
        let _ = self.seat.basis().len();
        match shared.try_settle_chain(&mut self.seat, k) {
            Ok(()) => SeatStage::Idle,
            Err(TryChainFault::Unsettled { .. }) => SeatStage::Thirds {
                from: k + 1,
                tried: tried + 1,
            },
            Err(TryChainFault::Busy) => self.try_again(SeatStage::Thirds { from: k, tried }),
            Err(TryChainFault::Memory) => SeatStage::Stopping { halt: Halt::Memory },
        }
    }

    /// Passes the gate, which counts the reductions.
    fn reach<G: Gate>(&mut self, gate: &G)
        ensures seat { self.new.seat ≡ self.old.seat }
        ensures finder { self.new.finder ≡ self.old.finder }
    {
        self.reached = self.reached.saturating_add(1);
        self.reduced = true;
        gate.reach(self.seat.number(), self.reached);
    }

    /// Reduces the difference of the pair by the copy.
    fn reduce_pair<G: Gate>(&mut self, alloc: Global, gate: &G) -> SeatStage
        requires { WorksAt self.old.seat.table self.old.seat self.old.finder Ready }
        ensures { Steps self.old.seat self.new.seat self.new.finder result }
    {
        let (i, j) = self.claimed_places();
        self.reach(gate);
        match critical(alloc, self.seat.basis(), i, j) {
            Ok(work) => self.reduce_work(work),
            Err(stop) => SeatStage::Stopping {
                halt: halt_for_stop(i, j, None, stop),
            },
        }
    }

    /// Copies what is new of the basis, and reduces by it what is left.
    fn reduce_again<G: Gate>(
        &mut self,
        shared: &SharedCompletion,
        gate: &G,
        work: Work,
    ) -> SeatStage
        requires { WorksAt shared.now self.old.seat self.old.finder (Stale work) }
        ensures { Steps self.old.seat self.new.seat self.new.finder result }
    {
        match shared.try_refresh(&mut self.seat) {
            Ok(_) => {
                self.reach(gate);
                self.reduce_work(work)
            }
            Err(RefreshFault::Busy) => self.try_again(SeatStage::Stale { work }),
            Err(RefreshFault::Memory) => SeatStage::Stopping { halt: Halt::Memory },
        }
    }

    /// Reduces work by the copy.
    fn reduce_work(&mut self, mut work: Work) -> SeatStage
        requires leads { AreFirstLeads self.old.finder self.old.seat.copy }
        requires work { HasSeatWork self.old.seat work }
        ensures { Steps self.old.seat self.new.seat self.new.finder result }
    {
        if find_more(&mut self.finder, self.seat.basis()).is_err() {
            return SeatStage::Stopping { halt: Halt::Memory };
        }
        match reduce(&mut work, self.seat.basis(), &self.finder) {
            Ok(()) => SeatStage::Reduced { work },
            Err(stop) => {
                let (i, j) = work.pair();
                SeatStage::Stopping {
                    halt: halt_for_stop(i, j, work.into_remainder(), stop),
                }
            }
        }
    }

    /// Settles the pair by what is left. Where the published length tells of more moves than reduced it, it takes no turn.
    fn settle_work(&mut self, shared: &SharedCompletion, work: Work) -> SeatStage
        requires { WorksAt shared.now self.old.seat self.old.finder (Reduced work) }
        ensures { Steps self.old.seat self.new.seat self.new.finder result }
    {
        if self.is_outrun(shared, &work) {
            return SeatStage::Stale { work };
        }
        self.settle_by(shared, work)
    }

    /// Is something left, and does the published length tell of more moves than reduced it?
    fn is_outrun(&mut self, shared: &SharedCompletion, work: &Work) -> bool
        requires { WorksAt shared.now self.old.seat self.old.finder (Reduced work.now) }
        ensures { Steps self.old.seat self.new.seat self.new.finder (Reduced work.now) }
    {
        if work.remainder().is_none() {
            return false;
        }
        shared.news(&mut self.seat) > work.front()
    }

    /// Settles the pair by what is left, unless the basis has more moves than reduced it.
    fn settle_by(&mut self, shared: &SharedCompletion, work: Work) -> SeatStage
        requires { WorksAt shared.now self.old.seat self.old.finder (Reduced work) }
        ensures { Steps self.old.seat self.new.seat self.new.finder result }
    {
        match shared.try_settle(&mut self.seat, &work) {
            Ok(SettledBy::Zero) => SeatStage::Idle,
            Ok(SettledBy::Placed { .. }) => SeatStage::Idle,
            Err(SettleFault::Busy) => self.try_again(SeatStage::Reduced { work }),
            Err(SettleFault::Behind { .. }) => SeatStage::Stale { work },
            Err(SettleFault::BasisFull) => SeatStage::Gone,
            Err(SettleFault::Memory) => SeatStage::Stopping { halt: Halt::Memory },
        }
    }

    /// Halts.
    fn halt_by(&mut self, shared: &SharedCompletion, halt: Halt) -> SeatStage
        requires { WorksAt shared.now self.old.seat self.old.finder (Stopping halt) }
        ensures { Steps self.old.seat self.new.seat self.new.finder result }
    {
        match shared.try_stop(&mut self.seat, halt) {
            Ok(()) => SeatStage::Gone,
            Err((_, halt)) => self.try_again(SeatStage::Stopping { halt }),
        }
    }
}

/// Gives a finder the leads of the moves of a basis that stand behind those that it has.
fn find_more(finder: &mut LeadFinder, basis: &Basis) -> Result<(), NoMemory>
    requires leads { AreFirstLeads finder.old basis.now }
    ensures leads { AreFirstLeads finder.new basis.now }
    ensures all { OnOk result (finder.new ≡ leads_of basis.now.moves) }
{
    for place in finder.count()..basis.len() {
        finder.insert(basis.move_at(place))?;
    }
    Ok(())
}
