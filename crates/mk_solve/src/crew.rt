//! Who works on a lattice: what a run asks of its workers.

ghost use Rattle.std.specs.Prelude.{◌≡◌, ◌↔◌, ◌≤◌, ⊤, length, All, IfOk, IfErr, IfSome};
ghost use Rattle.mk_model.specs.Bases.{IsAnswer};
ghost use Rattle.mk_model.specs.Lattices.{SameLattice};
ghost use Rattle.mk_model.specs.ReducedBases.{IsReducedBasis};
ghost use Rattle.mk_move.specs.Moves.{IsGraded};
ghost use Rattle.mk_move.specs.MoveLists.{lattice_spanned, vectors_of};
ghost use Rattle.mk_core.specs.Phases.{phase_in, AnswersOverBudget};
ghost use Rattle.mk_core.specs.JobPhases.{CompletesJob, IsUsedUp};
ghost use Rattle.mk_inter.specs.Tails.{IsReducedList, IsTailFault};
ghost use Rattle.mk_minimise.specs.Minimal.{IsMinimiseFault};

use mk_core::{Completed, Job, Phase, SaturatedBasis, Stopped, complete_alone};
use mk_inter::{ReducedBasis, TailFault, reduce_tails};
use mk_minimise::{MinimalList, MinimiseFault, minimise};
use mk_move::Grading;
use std::alloc::Global;

/// Who completes the phases of a run, reduces its tails and chooses its essential moves. Whoever it is, the answers are those of
/// one worker, and so are the causes of its refusals.
pub trait Crew {
    // Holds of one that may work: what its workers share may be shared.
    ghost ready: { Self → Type 0 } = { λ _. ⊤ };

    /// The crew with so many workers, from 1 to 64, where it may have several.
    fn with_workers(self, workers: u32) -> Self
        requires ready { ready self }
        requires some_workers { 1 ≤ workers }
        requires few_workers { workers ≤ 64 }
        ensures ready { ready result };

    /// Completes the start of a job, as `complete_alone` does. The last phase, where there is one, tells how long pairs took.
    fn complete(&self, alloc: Global, job: Job, last: Option<&Phase>) -> Result<Completed, Stopped>
        requires ready { ready self.now }
        requires start { length job.start.moves ≤ job.basis_limit }
        requires limit { job.basis_limit ≤ 65536 }
        ensures answer { CompletesJob job result }
        ensures over_budget { IfSome (phase_in result) (λ phase.
            AnswersOverBudget result ↔ IsUsedUp job phase) };

    /// The reduced basis of what a saturated one spans, as `reduce_tails` makes it.
    fn reduce_tails(&self, alloc: Global, basis: &SaturatedBasis) -> Result<ReducedBasis, TailFault>
        requires ready { ready self.now }
        ensures reduced { IfOk result (λ reduced.
            IsReducedBasis (lattice_spanned basis.now) (vectors_of reduced.moves)) }
        ensures lattice { IfOk result (λ reduced.
            SameLattice (length basis.now.grading) (vectors_of basis.now.moves)
            (vectors_of reduced.moves)) }
        ensures grading { IfOk result (λ reduced. reduced.grading ≡ basis.now.grading) }
        ensures kept { IfOk result IsReducedList }
        ensures refused { IfErr result (IsTailFault basis.now) };

    /// The essential moves of what a reduced basis spans, of weights up to a bound, as `minimise` chooses them.
    fn minimise(
        &self,
        alloc: Global,
        basis: &ReducedBasis,
        grading: &Grading,
        upto: Option<u64>,
    ) -> Result<MinimalList, MinimiseFault>
        requires ready { ready self.now }
        requires grading { grading.now ≡ basis.now.grading }
        ensures answer { IfOk result (λ list.
            IsAnswer (lattice_spanned basis.now) upto (vectors_of list.moves)) }
        ensures columns { IfOk result (λ list. list.columns ≡ length basis.now.grading) }
        ensures graded { IfOk result (λ list. All (IsGraded basis.now.grading) list.moves) }
        ensures refused { IfErr result (IsMinimiseFault basis.now upto) };
}

/// One worker, who returns.
#[derive(Clone, Copy, Debug, Drop)]
pub struct OneWorker;

impl Crew for OneWorker {
    fn with_workers(self, _workers: u32) -> OneWorker {
        self
    }

    fn complete(
        &self,
        alloc: Global,
        job: Job,
        _last: Option<&Phase>,
    ) -> Result<Completed, Stopped> {
        complete_alone(alloc, job)
    }

    fn reduce_tails(
        &self,
        alloc: Global,
        basis: &SaturatedBasis,
    ) -> Result<ReducedBasis, TailFault> {
        reduce_tails(alloc, basis)
    }

    fn minimise(
        &self,
        alloc: Global,
        basis: &ReducedBasis,
        grading: &Grading,
        upto: Option<u64>,
    ) -> Result<MinimalList, MinimiseFault> {
        minimise(alloc, basis, grading, upto)
    }
}
