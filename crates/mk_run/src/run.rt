//! A run, from the words to the exit status.

ghost use Rattle.std.specs.Prelude.{◌≡◌, ◌↔◌, ◌⊎◌, ◌≤◌, length, map, false, string_bytes, IfSome};
ghost use Rattle.mk_core.specs.JobPhases.{CompletesJob, IsUsedUp};
ghost use Rattle.mk_core.specs.Phases.{phase_in, AnswersOverBudget};
ghost use Rattle.mk_desk.specs.Folders.{HasCause, OnlyFaultsRose, Rose, WhereTold};
ghost use Rattle.mk_solve.specs.Books.{empty_book, settled_of};
ghost use Rattle.mk_words.specs.Requests.{IsRequest};
ghost use Rattle.mk_words.specs.declared.request.Request.{Request};
ghost use Rattle.mk_run.specs.Runs.{Ends, EndsByBudget, GivesMarkovBasis, HasCauseOf, IsShownFor, SaysLine};
ghost use Rattle.mk_run.specs.Stages.{Answers, HasBook, IsNotMaking, IsRunShownFor, IsStoppedByBudget};
ghost use Rattle.mk_run.specs.WordRuns.{IsRunOnWords};

use crate::fault::RunFault;
use crate::giving::give;
use crate::lines::{MEMORY, USAGE};
use crate::problem::problem_of;
use crate::refusal::{keep_fault, refusal};
use crate::status::Status;
use mk_core::{Completed, Job, Stopped};
use mk_desk::{Channel, DeskFault, Folder, say_all};
use mk_solve::{Crew, Gate, OneWorker, RunBook, Workers, solve};
use mk_words::{Request, UsageFault, read_words};
use mk_workers::complete_shared;
use std::alloc::Global;
use std::sync::Wait;
use std::thread::Threads;

/// Finds the essential moves of a lattice, which are a minimal Markov basis of it, by one worker.
///
/// The words are those behind the program's name, and ask for a project or for the made table of some sizes. For a project
/// `PROJECT.lat` is read, and `PROJECT.mat` and `PROJECT.grade` where they are there, and `PROJECT.mar` is made. For a made table,
/// whose grading is all ones, the summary of its moves is said on the out channel, and no file is touched. The moves are the essential
/// ones of weights up to the bound that is asked for, ascending by move order (Sturmfels, chapters 5 and 12); the book keeps how they
/// were found, and no more pairs are settled than asked for. The status says how the run ended. A run that is refused says one line on
/// the error channel and leaves the files as they were.
pub fn run_alone<F: Folder>(
    alloc: Global,
    words: &[String],
    folder: &mut F,
    book: &mut RunBook,
) -> Status
    requires book { book.old ≡ empty_book }
    requires making { (F.state folder.old).making ≡ false }

    // The headline: from what is asked for to the bytes of the answer.
    ensures answered { result ≡ Status.Done → (request : Request) →
        IsRequest (map string_bytes words.now) request →
        WhereTold (F.told folder.old) (F.told folder.new)
        (GivesMarkovBasis request.task request.upto) }

    // Each other ending, its cause and what it leaves, and what the book shows.
    ensures run { IsRunOnWords F.told F.state
        (map string_bytes words.now) folder.old folder.new book.new result }
{
    run_words(alloc, OneWorker, words, folder, book)
}

/// Finds the essential moves of a lattice, as `run_alone` does, by as many workers as the words ask for, 4 where they don't say, each in
/// a thread of its own where one can be made. It may wait. The gate is passed before a worker reduces a pair.
pub fn markov_top<F: Folder, G: Gate + Sync, R: Threads + Wait + Sync>(
    rt: &R,
    alloc: Global,
    words: &[String],
    folder: &mut F,
    gate: &G,
    book: &mut RunBook,
) -> Status
    requires book { book.old ≡ empty_book }
    requires making { (F.state folder.old).making ≡ false }

    // The headline: from what is asked for to the bytes of the answer.
    ensures answered { result ≡ Status.Done → (request : Request) →
        IsRequest (map string_bytes words.now) request →
        WhereTold (F.told folder.old) (F.told folder.new)
        (GivesMarkovBasis request.task request.upto) }

    // Each other ending, its cause and what it leaves, and what the book shows.
    ensures run { IsRunOnWords F.told F.state
        (map string_bytes words.now) folder.old folder.new book.new result }
{
    let complete = |job: Job, workers: u32| -> Result<Completed, Stopped>
        requires start { length job.start.moves ≤ job.basis_limit }
        requires limit { job.basis_limit ≤ 65536 }
        requires some_workers { 1 ≤ workers }
        requires few_workers { workers ≤ 64 }
        ensures answer { CompletesJob job result }
        ensures over_budget { IfSome (phase_in result) (λ phase.
            AnswersOverBudget result ↔ IsUsedUp job phase) }
    { complete_shared(rt, alloc, job, workers, gate) };
    run_words(alloc, Workers::new(rt, complete), words, folder, book)
}

/// A run on the words, by a crew.
fn run_words<C: Crew + Drop, F: Folder>(
    alloc: Global,
    crew: C,
    words: &[String],
    folder: &mut F,
    book: &mut RunBook,
) -> Status
    requires ready { C.ready crew }
    requires book { book.old ≡ empty_book }
    requires making { (F.state folder.old).making ≡ false }
    ensures answered { result ≡ Status.Done → (request : Request) →
        IsRequest (map string_bytes words.now) request →
        WhereTold (F.told folder.old) (F.told folder.new)
        (GivesMarkovBasis request.task request.upto) }
    ensures run { IsRunOnWords F.told F.state
        (map string_bytes words.now) folder.old folder.new book.new result }
{
    match read_words(alloc, words) {
        Ok(request) => {
            let crew = crew.with_workers(request.workers);
            run(alloc, &crew, &request, folder, book)
        }
        Err(UsageFault::Words) => say(folder, Status::Usage, USAGE),
        Err(UsageFault::Memory) => say(folder, Status::Memory, MEMORY),
    }
}

/// A run on a request, by a crew.
fn run<C: Crew, F: Folder>(
    alloc: Global,
    crew: &C,
    request: &Request,
    folder: &mut F,
    book: &mut RunBook,
) -> Status
    requires ready { C.ready crew.now }
    requires book { book.old ≡ empty_book }
    requires making { (F.state folder.old).making ≡ false }
    ensures cause { HasCauseOf request.now book.new (F.state folder.old)
        (F.state folder.new) result }
    ensures settled { settled_of book.new.phases ≤ request.now.budget }
    ensures budget { EndsByBudget request.now.budget book.new result }
    ensures shown { IsShownFor request.now.task book.new.input (F.state folder.old)
        (F.state folder.new) result }
    ensures told { WhereTold (F.told folder.old) (F.told folder.new)
        (Ends request.now book.new (Rose (F.state folder.old).faults (F.state folder.new).faults)
        result) }
{
    let Err(fault) = answer(alloc, crew, request, folder, book) else {
        return Status::Done;
    };
    keep_fault(book, fault);
    match refusal(alloc, &request.task, book, fault) {
        Ok(refusal) => say(folder, refusal.status, refusal.line.as_str()),
        Err(_) => Status::Memory,
    }
}

/// The whole of a run on a request, but for keeping a fault of its input and saying why it is refused.
fn answer<C: Crew, F: Folder>(
    alloc: Global,
    crew: &C,
    request: &Request,
    folder: &mut F,
    book: &mut RunBook,
) -> Result<(), RunFault>
    requires ready { C.ready crew.now }
    requires book { book.old ≡ empty_book }
    requires making { (F.state folder.old).making ≡ false }
    ensures book { HasBook request.now book.new (F.state folder.new) result }
    ensures settled { settled_of book.new.phases ≤ request.now.budget }
    ensures budget { IsStoppedByBudget request.now.budget book.new result }
    ensures making { IsNotMaking (F.state folder.new) result }
    ensures cause { HasCause RunFault.Failed (F.state folder.old) (F.state folder.new) result }
    ensures shown { IsRunShownFor request.now.task (F.state folder.old)
        (F.state folder.new) result }
    ensures told { WhereTold (F.told folder.old) (F.told folder.new)
        (Answers request.now book.new result) }
{
    let problem = problem_of(alloc, folder, &request.task)?;
    let list = solve(
        alloc,
        crew,
        &problem.lat,
        &problem.grading,
        request.budget,
        request.upto,
        book,
    )?;
    Ok(give(alloc, folder, &request.task, &problem.lat, &list)?)
}

/// Says a line on the error channel. The status stays, unless no memory was found to say it.
fn say<F: Folder>(folder: &mut F, status: Status, line: &str) -> Status
    ensures status { (result ≡ status) ⊎ (result ≡ Status.Memory) }
    ensures state { OnlyFaultsRose (F.state folder.old) (F.state folder.new) }
    ensures later { (F.state folder.old).faults ≤ (F.state folder.new).faults }
    ensures told { WhereTold (F.told folder.old) (F.told folder.new)
        (SaysLine line.now (Rose (F.state folder.old).faults (F.state folder.new).faults
        ⊎ (result ≡ Status.Memory))) }
{
    match say_all(folder, Channel::Err, line.as_bytes()) {
        Ok(()) => status,
        Err(DeskFault::Failed) => status,
        Err(DeskFault::Memory) => Status::Memory,
    }
}
