ghost use Rattle.std.specs.Prelude.{◌≡◌, ◌↔◌, ◌+◌, ◌<◌, ◌≤◌, ◌^◌, Some, All, IfSome, length, pos};
ghost use Rattle.mk_model.specs.Orders.{standard};
ghost use Rattle.mk_model.specs.Tables.{rows_of, lattice_of_table};
ghost use Rattle.mk_model.specs.Vectors.{weight};
ghost use Rattle.mk_core.specs.JobPhases.{CompletesJob, IsUsedUp};
ghost use Rattle.mk_core.specs.Phases.{phase_in, AnswersOverBudget};
ghost use Rattle.mk_saturate.specs.Saturations.{NoneLeft, IsJob, IsNextJob};
ghost use Rattle.mk_solve.specs.Books.{empty_book, settled_of};
ghost use Rattle.mk_solve.specs.Solutions.{Solves, StopsByBudget};
ghost use Rattle.mk_solve.specs.Steps.{TakesColumn, TakesLast, Reduces, Minimises};

use crate::book::{BookStop, OverflowPlace, RunBook};
use crate::completing::complete;
use crate::crew::{Crew, OneWorker};
use crate::workers::Workers;
use mk_core::{Completed, Job, SaturatedBasis, Stopped};
use mk_files::Table;
use mk_inter::{ReducedBasis, TailFault};
use mk_ledger::OverflowStop;
use mk_minimise::{MinimalList, MinimiseFault};
use mk_model::NoMemory;
use mk_move::Grading;
use mk_saturate::Saturation;
use mk_workers::{Gate, complete_shared};
use std::alloc::Global;
use std::sync::Wait;
use std::thread::Threads;

/// Why a lattice isn't solved: want of memory, or the stop that the book keeps.
#[derive(Clone, Copy, Debug, PartialEq, Eq)]
pub enum RunStop {
    Memory,
    Stopped,
}

impl From<NoMemory> for RunStop {
    ghost use Rattle.std.specs.Prelude.{◌≡◌};
    ghost use Rattle.mk_solve.specs.declared.solving.RunStop.TheVariants.{Memory};

    ghost from_gives = { λ _ e. e ≡ Memory };

    fn from(_e: NoMemory) -> RunStop {
        RunStop::Memory
    }
}

/// The essential moves of the lattice of a table's rows, of weights up to a bound, ascending by move order, by one worker. No bound is
/// above every weight; the completions and the tails have none. The grading has as many columns as the table and product 0 with each
/// row, and at most so many pairs are settled; those of the last step aren't counted. The book,
/// which is empty, keeps each phase, the one that stopped too, and the reduced basis. `Stopped` exactly where the book has a stop; where
/// memory runs out it keeps the phases that ended. (Sturmfels, chapters 1, 5 and 12)
pub fn solve_alone(
    alloc: Global,
    lat: &Table,
    grading: &Grading,
    budget: u64,
    upto: Option<u64>,
    book: &mut RunBook,
) -> Result<MinimalList, RunStop>
    requires book { book.old ≡ empty_book }
    requires columns { length grading.now ≡ lat.now.columns }
    requires graded { All (λ row. weight grading.now row ≡ pos 0) (rows_of lat.now) }
    ensures solved { Solves (lattice_of_table lat.now grading.now) budget upto result book.new }
    ensures budget { StopsByBudget budget result book.new }
{
    solve(alloc, &OneWorker, lat, grading, budget, upto, book)
}

/// The essential moves of a table's lattice, as `solve_alone` has them, by 1 to 64 workers, each in a thread of its own where one can be
/// made. It may wait. The gate is passed before a worker reduces a pair. (Sturmfels, chapters 1, 5 and 12)
pub fn solve_shared<G: Gate + Sync, R: Threads + Wait + Sync>(
    rt: &R,
    alloc: Global,
    lat: &Table,
    grading: &Grading,
    budget: u64,
    upto: Option<u64>,
    workers: u32,
    gate: &G,
    book: &mut RunBook,
) -> Result<MinimalList, RunStop>
    requires book { book.old ≡ empty_book }
    requires columns { length grading.now ≡ lat.now.columns }
    requires graded { All (λ row. weight grading.now row ≡ pos 0) (rows_of lat.now) }
    requires some_workers { 1 ≤ workers }
    requires few_workers { workers ≤ 64 }
    ensures solved { Solves (lattice_of_table lat.now grading.now) budget upto result book.new }
    ensures budget { StopsByBudget budget result book.new }
{
    let complete = |job: Job, workers: u32| -> Result<Completed, Stopped>
        requires start { length job.start.moves ≤ job.basis_limit }
        requires limit { job.basis_limit ≤ 65536 }
        requires some_workers { 1 ≤ workers }
        requires few_workers { workers ≤ 64 }
        ensures answer { CompletesJob job result }
        ensures over_budget { IfSome (phase_in result) (λ phase.
            AnswersOverBudget result ↔ IsUsedUp job phase) }
    { complete_shared(rt, alloc, job, workers, gate) };
    let crew = Workers::new(rt, complete).with_workers(workers);
    solve(alloc, &crew, lat, grading, budget, upto, book)
}

/// The essential moves of the lattice of a table's rows, of weights up to a bound, ascending by move order, by a crew, as
/// `solve_alone` has them by one worker.
pub fn solve<C: Crew>(
    alloc: Global,
    crew: &C,
    lat: &Table,
    grading: &Grading,
    budget: u64,
    upto: Option<u64>,
    book: &mut RunBook,
) -> Result<MinimalList, RunStop>
    requires ready { C.ready crew.now }
    requires book { book.old ≡ empty_book }
    requires columns { length grading.now ≡ lat.now.columns }
    requires graded { All (λ row. weight grading.now row ≡ pos 0) (rows_of lat.now) }
    ensures solved { Solves (lattice_of_table lat.now grading.now) budget upto result book.new }
    ensures budget { StopsByBudget budget result book.new }
{
    let mut saturation = Saturation::start(alloc, lat, grading)?;
    saturation.free_columns();
    while let Some(job) = saturation.next_job(alloc, budget - book.settled())? {
        saturate_column(alloc, crew, &mut saturation, job, book)?;
    }
    let job = saturation.final_job(alloc, budget - book.settled())?;
    let saturated = finish(alloc, crew, &saturation, job, book)?;
    let reduced = reduce(alloc, crew, &saturated, book)?;
    choose(alloc, crew, reduced, grading, upto, book)
}

/// Saturates the least unsaturated column by the phase of its job, which the book keeps, the one that stopped too.
fn saturate_column<C: Crew>(
    alloc: Global,
    crew: &C,
    saturation: &mut Saturation,
    job: Job,
    book: &mut RunBook,
) -> Result<(), RunStop>
    requires ready { C.ready crew.now }
    requires next { IsNextJob saturation.old job.budget (Some job) }
    requires few_phases { length book.old.phases + 1 < 2 ^ 32 }
    requires few_settled { settled_of book.old.phases + job.budget < 2 ^ 64 }
    ensures { TakesColumn saturation.old job book.old result saturation.new book.new }
{
    let completed = complete(alloc, crew, job, book)?;
    saturation.accept(&completed)?;
    book.push_phase(completed.into_phase())?;
    Ok(())
}

/// The saturated basis, by the phase of the last job, which the book keeps, the one that stopped too.
fn finish<C: Crew>(
    alloc: Global,
    crew: &C,
    saturation: &Saturation,
    job: Job,
    book: &mut RunBook,
) -> Result<SaturatedBasis, RunStop>
    requires ready { C.ready crew.now }
    requires none_left { NoneLeft saturation.now.left }
    requires last { IsJob saturation.now.basis
        (standard (length saturation.now.basis.grading)) job.budget job }
    requires few_phases { length book.old.phases + 1 < 2 ^ 32 }
    requires few_settled { settled_of book.old.phases + job.budget < 2 ^ 64 }
    ensures { TakesLast saturation.now.basis job book.old result book.new }
{
    let completed = complete(alloc, crew, job, book)?;
    let saturated = saturation.finish(&completed)?;
    book.push_phase(completed.into_phase())?;
    Ok(saturated)
}

/// The reduced basis. Where an entry leaves the range the book keeps that stop.
fn reduce<C: Crew>(
    alloc: Global,
    crew: &C,
    saturated: &SaturatedBasis,
    book: &mut RunBook,
) -> Result<ReducedBasis, RunStop>
    requires ready { C.ready crew.now }
    ensures { Reduces saturated.now book.old result book.new }
{
    match crew.reduce_tails(alloc, saturated) {
        Ok(reduced) => Ok(reduced),
        Err(TailFault::Memory) => Err(RunStop::Memory),
        Err(
            TailFault::Overflow {
                index,
                by,
                operand,
                at,
            },
        ) => {
            let stop = OverflowStop {
                i: index,
                j: index,
                by: Some(by),
                operand: Some(operand),
                at,
            };
            let place = OverflowPlace::Tail { index };
            book.stop_with(BookStop::Overflow { place, stop });
            Err(RunStop::Stopped)
        }
    }
}

/// The essential moves up to a bound, chosen from the reduced basis, which the book keeps. Where an entry leaves the range the book
/// keeps that stop.
fn choose<C: Crew>(
    alloc: Global,
    crew: &C,
    reduced: ReducedBasis,
    grading: &Grading,
    upto: Option<u64>,
    book: &mut RunBook,
) -> Result<MinimalList, RunStop>
    requires ready { C.ready crew.now }
    requires grading { grading.now ≡ reduced.grading }
    ensures { Minimises reduced upto book.old result book.new }
{
    let chosen = crew.minimise(alloc, &reduced, grading, upto);
    book.keep_reduced(reduced);
    match chosen {
        Ok(list) => Ok(list),
        Err(MinimiseFault::Memory) => Err(RunStop::Memory),
        Err(
            MinimiseFault::Overflow {
                i,
                j,
                by,
                operand,
                at,
            },
        ) => {
            let stop = OverflowStop {
                i,
                j,
                by,
                operand,
                at,
            };
            let place = OverflowPlace::Degree;
            book.stop_with(BookStop::Overflow { place, stop });
            Err(RunStop::Stopped)
        }
    }
}
