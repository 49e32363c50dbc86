//! A job that several workers complete.

ghost use Rattle.std.specs.Prelude.{◌≡◌, ◌↔◌, ◌≤◌, IfSome, length, None};
ghost use Rattle.std.specs.Thread.{IsSync};
ghost use Rattle.mk_core.specs.JobPhases.{CompletesJob, IsUsedUp};
ghost use Rattle.mk_core.specs.Phases.{phase_in, AnswersOverBudget};
ghost use Rattle.mk_workers.specs.Gatherings.{HasGathered};
ghost use Rattle.mk_workers.specs.Stages.{HasWorked};

use crate::gate::Gate;
use crate::working::worker_loop;
use mk_core::{Completed, Job, Stopped, finish_alone};
use mk_shared::{Seat, SharedCompletion};
use std::alloc::Global;
use std::sync::Wait;
use std::thread;
use std::thread::Threads;

/// Completes the start of a job by 1 to 64 workers, each in a thread of its own where one can be made. Its answers are those of
/// `complete_alone`, with the same causes. It may wait. (Sturmfels, chapters 1 and 12: Buchberger's algorithm for a lattice)
pub fn complete_shared<G: Gate + Sync, R: Threads + Wait + Sync>(
    rt: &R,
    alloc: Global,
    job: Job,
    workers: u32,
    gate: &G,
) -> Result<Completed, Stopped>
    requires some { 1 ≤ workers }
    requires few { workers ≤ 64 }
    ensures answer { CompletesJob job result }
    ensures over_budget { IfSome (phase_in result)
        (λ phase. AnswersOverBudget result ↔ IsUsedUp job phase) }
{
    let (shared, first) = SharedCompletion::start(alloc, job, workers)?;
    let first = work_together(rt, alloc, &shared, gate, first);
    finish_alone(alloc, shared.close(first))
}

/// Splits a new seat off the first one for as long as there are more workers, lets each seat's worker work until it is done, and
/// joins the new seats. Where there is no memory for a new seat, no more are made.
fn work_together<G: Gate + Sync, R: Threads + Wait + Sync>(
    rt: &R,
    alloc: Global,
    shared: &SharedCompletion,
    gate: &G,
    mut first: Seat,
) -> Seat
    requires table { first.table ≡ shared.now }
    requires first { first.sight.number ≡ 0 }
    requires idle { first.sight.claim ≡ None }
    ensures { HasGathered first result }
{
    match shared.split(&mut first) {
        Ok(other) => {
            let (mut first, other) = thread::join(
                rt,
                move || -> Seat
                    requires { IsSync G.row × IsSync R.row × (first.table ≡ shared.now)
                        × (first.sight.number ≡ 0) × (first.sight.claim ≡ None) }
                    ensures { HasGathered first result }
                { work_together(rt, alloc, shared, gate, first) },
                move || -> Seat
                    requires { (other.table ≡ shared.now) × (other.sight.claim ≡ None) }
                    ensures { HasWorked other result }
                { worker_loop(rt, alloc, shared, other, gate) },
            );
            shared.join(&mut first, other);
            first
        }
        Err(_) => worker_loop(rt, alloc, shared, first, gate),
    }
}
