//! Completion by several workers that take turns, in the order of a schedule.

ghost use Rattle.std.specs.Prelude.{◌≤◌, ◌<◌, length, map, All, IfOk, OnOk, replicate, ◌≡◌};
ghost use Rattle.mk_drive.specs.Halting.{IsHaltingDriven};
ghost use Rattle.mk_drive.specs.Seats.{AreSeated, IsDriven, TakesTurn};
ghost use Rattle.mk_drive.specs.declared.seat.TurnStage.TheVariants.{Idle};

use crate::seat::{TurnStage, take_stage};
use mk_core::Job;
use mk_ledger::Ledger;
use mk_model::NoMemory;
use std::alloc::Global;
use std::mem;

/// A turn of a worker: one line of its program.
#[derive(Clone, Copy, Debug, Drop, PartialEq, Eq)]
pub struct Turn {
    pub worker: u32,
}

/// Completes the start of a job by 1 to 64 workers, as far as the turns of a schedule lead, in their order. At each turn the
/// worker takes one line of its program: it claims a pair; copies the basis; settles the pair by disjoint leads, or through one
/// of at most eight third moves; reduces it by its copy; settles it by what is left, or reduces that again where the basis has
/// grown; or halts. The turn of a worker that is gone changes nothing.
///
/// Each turn's worker is below the number of workers. The ledger is legal. (Sturmfels, chapters 1 and 12: Buchberger's
/// algorithm for a lattice)
pub fn drive(alloc: Global, job: Job, workers: u32, schedule: &[Turn]) -> Result<Ledger, NoMemory>
    requires some { 1 ≤ workers }
    requires few { workers ≤ 64 }
    requires turns { All (λ turn. turn.worker < workers) schedule.now }
    ensures { IfOk result (IsDriven job workers (map (λ turn. turn.worker) schedule.now)) }
{
    drive_halting(alloc, job, workers, schedule, &[])
}

/// Completes the start of a job as `drive` does, where memory is refused at the turns of these numbers, counted from 0. At such
/// a turn a worker that isn't gone halts for want of memory in place of its line, gives up its claim, and is gone. The others
/// may still settle theirs. No number need be that of a turn, and none need be in order.
///
/// Each turn's worker is below the number of workers. The ledger is legal. (Sturmfels, chapters 1 and 12: Buchberger's
/// algorithm for a lattice)
pub fn drive_halting(
    alloc: Global,
    job: Job,
    workers: u32,
    schedule: &[Turn],
    refused: &[u64],
) -> Result<Ledger, NoMemory>
    requires some { 1 ≤ workers }
    requires few { workers ≤ 64 }
    requires turns { All (λ turn. turn.worker < workers) schedule.now }
    ensures { IfOk result
        (IsHaltingDriven job workers (map (λ turn. turn.worker) schedule.now) refused.now) }
{
    let Job {
        start,
        budget,
        basis_limit,
    } = job;
    let mut ledger = Ledger::new(alloc, start, budget, basis_limit, workers)?;
    let mut seats = idle_seats(alloc, workers)?;
    for (number, turn) in schedule.iter().enumerate() {
        let is_refused = refused.contains(&(number as u64));
        take_turn(alloc, &mut ledger, &mut seats, turn.worker, is_refused)?;
    }
    // Whoever has its basis knows that it is legal.
    let _ = ledger.basis();
    Ok(ledger)
}

/// A seat for each of so many workers, none of which has a claim.
fn idle_seats(alloc: Global, workers: u32) -> Result<Vec<TurnStage>, NoMemory>
    ensures { IfOk result (λ seats. seats.items ≡ replicate workers Idle) }
{
    let mut seats = Vec::with_capacity(alloc, workers as usize)?;
    for _ in 0..workers {
        seats.push(TurnStage::Idle)?;
    }
    Ok(seats)
}

/// Takes the turn of a worker, with memory or without.
fn take_turn(
    alloc: Global,
    ledger: &mut Ledger,
    seats: &mut Vec<TurnStage>,
    worker: u32,
    is_refused: bool,
) -> Result<(), NoMemory>
    requires seated { AreSeated ledger.old seats.old.items }
    requires within { worker < length seats.old.items }
    ensures { OnOk result
        (TakesTurn ledger.old seats.old.items (record { worker = worker; refused = is_refused })
        ledger.new seats.new.items) }
{
    // Whoever has its basis knows that it is legal.
    let _ = ledger.basis();
    let stage = mem::replace(&mut seats[worker as usize], TurnStage::Gone);
    let next = take_stage(alloc, ledger, worker, is_refused, stage)?;
    seats[worker as usize] = next;
    let _ = ledger.basis();
    Ok(())
}
