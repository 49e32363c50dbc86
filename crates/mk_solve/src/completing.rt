ghost use Rattle.std.specs.Prelude.{◌≡◌, ◌+◌, ◌<◌, ◌≤◌, ◌^◌, length};
ghost use Rattle.mk_solve.specs.Books.{settled_of};
ghost use Rattle.mk_solve.specs.Steps.{Completes, KeepsStop};

use crate::book::{BookStop, OverflowPlace, RunBook};
use crate::crew::Crew;
use crate::solving::RunStop;
use mk_core::{Completed, Job, Phase, Stopped};
use std::alloc::Global;

/// Completes the phase of a job. Where it stops the book keeps the phase and its stop; else the book is as before.
pub(crate) fn complete<C: Crew>(
    alloc: Global,
    crew: &C,
    job: Job,
    book: &mut RunBook,
) -> Result<Completed, RunStop>
    requires ready { C.ready crew.now }
    requires start { length job.start.moves ≤ job.basis_limit }
    requires limit { job.basis_limit ≤ 65536 }
    requires few_phases { length book.old.phases + 1 < 2 ^ 32 }
    requires few_settled { settled_of book.old.phases + job.budget < 2 ^ 64 }
    ensures { Completes job book.old result book.new }
{
    match crew.complete(alloc, job, book.last_phase()) {
        Ok(completed) => Ok(completed),
        Err(Stopped::Memory) => Err(RunStop::Memory),
        Err(Stopped::Overflow { phase, stop }) => {
            let place = OverflowPlace::Pair {
                phase: book.phase_count(),
            };
            Err(keep_stop(book, phase, BookStop::Overflow { place, stop }))
        }
        Err(Stopped::OverBudget { phase }) => {
            let settled = book.settled() + phase.journal.len();
            Err(keep_stop(book, phase, BookStop::Budget { settled }))
        }
        Err(Stopped::BasisFull { phase, i, j }) => {
            let number = book.phase_count();
            let stop = BookStop::BasisFull {
                phase: number,
                i,
                j,
            };
            Err(keep_stop(book, phase, stop))
        }
    }
}

/// Keeps the phase that stopped, and then its stop: neither where there is no memory.
fn keep_stop(book: &mut RunBook, phase: Phase, stop: BookStop) -> RunStop
    requires few_phases { length book.old.phases + 1 < 2 ^ 32 }
    requires few_settled { settled_of book.old.phases + length phase.journal < 2 ^ 64 }
    ensures { KeepsStop book.old phase stop result book.new }
{
    match book.push_phase(phase) {
        Ok(()) => {
            book.stop_with(stop);
            RunStop::Stopped
        }
        Err(_) => RunStop::Memory,
    }
}
