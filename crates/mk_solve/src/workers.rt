//! Several workers, who share the phases whose pairs take long.

ghost use Rattle.std.specs.Prelude.{◌≡◌, ◌<◌, ◌≤◌, length};
ghost use Rattle.std.specs.Thread.{IsSync};
ghost use Rattle.mk_solve.specs.Crews.{CompletesBy};

use crate::crew::{Crew, OneWorker};
use mk_core::{Completed, Job, Phase, SaturatedBasis, Stopped};
use mk_inter::{ReducedBasis, TailFault, reduce_tails_shared};
use mk_ledger::Kind;
use mk_minimise::{MinimalList, MinimiseFault, minimise_shared};
use mk_move::{Basis, Grading, coprime_leads};
use std::alloc::Global;
use std::thread::Threads;

/// So many of the last pairs of a phase are looked at.
const LAST_PAIRS: u64 = 4096;

/// So many of the first moves of a run are looked at.
const FIRST_MOVES: u32 = 64;

/// A pair whose moves have fewer columns is short.
const LONG_COLUMNS: u32 = 64;

/// Several workers, and how they complete a job: `complete` takes the job and their number. A phase is shared by them where the one
/// before shows that its pairs take long, and the first where half of its pairs or more have leads with a column in common; the others
/// are one worker's. A phase has no more of them than pairs of its first moves have such leads.
#[derive(Drop)]
pub struct Workers<'a, R, F> {
    rt: &'a R,
    complete: F,
    count: u32,
}

impl<'a, R: Threads + Sync, F: Fn(Job, u32) -> Result<Completed, Stopped>> Workers<'a, R, F> {
    /// One worker, who may become several, with how they complete a job.
    pub fn new(rt: &'a R, complete: F) -> Workers<'a, R, F>
        requires { CompletesBy (F.pre complete) (F.post complete) }
        ensures { ⟦<Workers<'a, R, F> as Crew>⟧.ready result }
    {
        Workers {
            rt,
            complete,
            count: 1,
        }
    }
}

impl<'a, R: Threads + Sync, F: Fn(Job, u32) -> Result<Completed, Stopped>> Crew
    for Workers<'a, R, F> {
    ghost ready = { λ w.
        IsSync R.row × (1 ≤ w.count) × (w.count ≤ 64)
        × CompletesBy (F.pre w.complete) (F.post w.complete) };

    fn with_workers(self, workers: u32) -> Workers<'a, R, F> {
        Workers {
            rt: self.rt,
            complete: self.complete,
            count: workers,
        }
    }

    fn complete(
        &self,
        alloc: Global,
        job: Job,
        last: Option<&Phase>,
    ) -> Result<Completed, Stopped> {
        let workers = workers_for(self.count, &job.start, last);
        if workers == 1 {
            OneWorker.complete(alloc, job, last)
        } else {
            (self.complete)(job, workers)
        }
    }

    fn reduce_tails(
        &self,
        alloc: Global,
        basis: &SaturatedBasis,
    ) -> Result<ReducedBasis, TailFault> {
        reduce_tails_shared(self.rt, alloc, basis)
    }

    fn minimise(
        &self,
        alloc: Global,
        basis: &ReducedBasis,
        grading: &Grading,
        upto: Option<u64>,
    ) -> Result<MinimalList, MinimiseFault> {
        minimise_shared(self.rt, alloc, basis, grading, upto)
    }
}

/// How many of so many workers share a phase: one where its pairs don't take long, as the phase before shows, or for the first phase
/// its first moves; and no more than pairs of its first moves have leads with a column in common.
fn workers_for(count: u32, start: &Basis, last: Option<&Phase>) -> u32
    requires { 1 ≤ count }
    ensures some_workers { 1 ≤ result }
    ensures few_workers { result ≤ count }
{
    let shared = match last {
        Some(phase) if !is_long(phase) => 0,
        Some(_) => meeting_pairs(start),
        None => pairs_where_most_meet(start),
    };
    shared.clamp(1, count)
}

/// How many pairs of the first moves have leads with a column in common, where half of these pairs or more have; else none.
fn pairs_where_most_meet(basis: &Basis) -> u32 {
    let end = basis.len().min(FIRST_MOVES);
    let pairs = end * end.saturating_sub(1) / 2;
    let meeting = meeting_pairs(basis);
    if meeting >= pairs - pairs / 2 {
        meeting
    } else {
        0
    }
}

/// How many pairs of the first moves have leads with a column in common?
fn meeting_pairs(basis: &Basis) -> u32 {
    let end = basis.len().min(FIRST_MOVES);
    let mut meeting = 0u32;
    for second in 1..end {
        meeting = meeting.saturating_add(meeting_before(basis, second));
    }
    meeting
}

/// How many moves before this one have a lead with a column in common with its lead?
fn meeting_before(basis: &Basis, second: u32) -> u32
    requires { second < length basis.now.moves }
{
    let mut meeting = 0u32;
    for first in 0..second {
        if !coprime_leads(basis.move_at(first), basis.move_at(second)) {
            meeting = meeting.saturating_add(1);
        }
    }
    meeting
}

/// Has a phase pairs that take long: of many columns, and half of the last ones or more were reduced? One without pairs has none.
fn is_long(phase: &Phase) -> bool {
    if phase.basis.grading().columns() < LONG_COLUMNS {
        return false;
    }
    let end = phase.journal.len();
    let from = end.saturating_sub(LAST_PAIRS);
    let mut reduced = 0u64;
    for n in from..end {
        if matches!(phase.journal.entry_at(n).kind, Kind::Zero | Kind::Place) {
            reduced += 1;
        }
    }
    let looked = end - from;
    reduced > 0 && reduced >= looked - looked / 2
}
