//! A worker's program, one line at a time, where several workers take turns.

ghost use Rattle.std.specs.Prelude.{◌≡◌, ◌↔◌, ◌<◌, true, IsTrue, IsSome, length, IfOk};
ghost use Rattle.mk_model.specs.CoreStates.{pair_of, claim_of, IsPairOf};
ghost use Rattle.mk_model.specs.Events.{HaveCommonColumn};
ghost use Rattle.mk_move.specs.MoveLists.{vectors_of};
ghost use Rattle.mk_reduce.specs.Works.{WorkOf};
ghost use Rattle.mk_core.specs.Remainders.{IsWorkFault, IsRestOfClaim};
ghost use Rattle.mk_drive.specs.Seats.{fault_of_stop, stage_of, HasReduced, IsAt, IsStoppingBy, IsThirdTried, PlacesRest, ReducesWork, TakesLine, TurnsTo};
ghost use Rattle.mk_drive.specs.declared.seat.TurnStage.TheVariants.{Idle, Fresh, Tests, Ready, Reduced, Stale, Stopping, Gone};

use mk_core::{WorkFault, finder_of};
use mk_criteria::{have_coprime_leads, next_third};
use mk_ledger::{ChainFault, Claim, Halt, Ledger, OverflowStop, PlaceFault};
use mk_model::NoMemory;
use mk_move::{Basis, Move};
use mk_reduce::{Stop, Work, critical, reduce};
use std::alloc::Global;

/// At what a worker is. `Idle`: it has no claim. `Fresh`: it has one. `Tests`: it has a copy of the basis too, looks for a third
/// move from a place on, and has tried so many. `Ready`: its pair is to be reduced by its copy. `Reduced`: it has what is left.
/// `Stale`: the basis has more moves than reduced it. `Stopping`: an entry leaves the range. `Gone`: it does nothing more.
#[derive(Debug, Drop)]
pub(crate) enum TurnStage {
    Idle,
    Fresh,
    Tests { seen: Basis, from: u32, tried: u32 },
    Ready { seen: Basis },
    Reduced { work: Work },
    Stale { work: Work },
    Stopping { stop: OverflowStop },
    Gone,
}

/// Takes the worker's turn, and gives its stage afterwards: it takes its line of the program, or halts where memory is refused.
pub(crate) fn take_stage(
    alloc: Global,
    ledger: &mut Ledger,
    worker: u32,
    is_refused: bool,
    stage: TurnStage,
) -> Result<TurnStage, NoMemory>
    requires seat { IsAt ledger.old worker stage }
    requires within { worker < ledger.old.state.workers }
    ensures { IfOk result (TurnsTo ledger.old worker is_refused stage ledger.new) }
{
    if is_refused {
        return Ok(refuse(ledger, worker, &stage));
    }
    take_line(alloc, ledger, worker, stage)
}

/// Halts the worker for want of memory, unless it is gone.
fn refuse(ledger: &mut Ledger, worker: u32, stage: &TurnStage) -> TurnStage
    requires seat { IsAt ledger.old worker stage.now }
    requires within { worker < ledger.old.state.workers }
    ensures { TurnsTo ledger.old worker true stage.now ledger.new result }
{
    // Whoever has its basis knows that it is legal.
    let _ = ledger.basis();
    if is_gone(stage) {
        return TurnStage::Gone;
    }
    ledger.halt(worker, Halt::Memory);
    TurnStage::Gone
}

/// Whether the worker does nothing more.
fn is_gone(stage: &TurnStage) -> bool
    ensures { IsTrue result ↔ (stage.now ≡ Gone) }
{
    matches!(stage, TurnStage::Gone)
}

/// Takes the worker's line of the program, and gives its stage afterwards.
fn take_line(
    alloc: Global,
    ledger: &mut Ledger,
    worker: u32,
    stage: TurnStage,
) -> Result<TurnStage, NoMemory>
    requires seat { IsAt ledger.old worker stage }
    requires within { worker < ledger.old.state.workers }
    ensures { IfOk result (TakesLine ledger.old worker stage ledger.new) }
{
    match stage {
        TurnStage::Idle => Ok(claim_next(ledger, worker)),
        TurnStage::Fresh => copy_basis(ledger, worker),
        TurnStage::Tests { seen, from, tried } => test_pair(ledger, worker, seen, from, tried),
        TurnStage::Ready { seen } => reduce_pair(alloc, ledger, worker, &seen),
        TurnStage::Reduced { work } => settle_work(ledger, worker, work),
        TurnStage::Stale { work } => reduce_again(alloc, ledger, worker, work),
        TurnStage::Stopping { stop } => Ok(halt_by(ledger, worker, stop)),
        TurnStage::Gone => Ok(TurnStage::Gone),
    }
}

/// Asks for a pair.
fn claim_next(ledger: &mut Ledger, worker: u32) -> TurnStage
    requires idle { IsAt ledger.old worker Idle }
    requires within { worker < ledger.old.state.workers }
    ensures { TakesLine ledger.old worker Idle ledger.new result }
{
    match ledger.claim(worker) {
        Claim::Claimed { .. } => TurnStage::Fresh,
        Claim::NotYet { .. } => TurnStage::Idle,
        Claim::Ended => TurnStage::Gone,
        Claim::OverBudget { .. } => TurnStage::Gone,
        Claim::Stopped { .. } => TurnStage::Gone,
    }
}

/// Copies the basis.
fn copy_basis(ledger: &Ledger, worker: u32) -> Result<TurnStage, NoMemory>
    requires { IsAt ledger.now worker Fresh }
    ensures { IfOk result (TakesLine ledger.now worker Fresh ledger.now) }
{
    let seen = ledger.basis().try_copy()?;
    Ok(TurnStage::Tests {
        seen,
        from: 0,
        tried: 0,
    })
}

/// The places of the worker's claim.
fn claimed_places(ledger: &Ledger, worker: u32) -> (u32, u32)
    requires claimed { IsSome (claim_of ledger.now.state worker) }
    requires within { worker < ledger.now.state.workers }
    ensures { claim_of ledger.now.state worker ≡ Some (pair_of result.0 result.1) }
{
    ledger.claim_of(worker).unwrap()
}

/// Settles the pair by disjoint leads, or else goes on with third moves.
fn test_pair(
    ledger: &mut Ledger,
    worker: u32,
    seen: Basis,
    from: u32,
    tried: u32,
) -> Result<TurnStage, NoMemory>
    requires seat { IsAt ledger.old worker (Tests seen from tried) }
    requires within { worker < ledger.old.state.workers }
    ensures { IfOk result (TakesLine ledger.old worker (Tests seen from tried) ledger.new) }
{
    let (i, j) = claimed_places(ledger, worker);
    if have_coprime_leads(ledger.basis(), i, j) {
        ledger.settle_coprime(worker)?;
        return Ok(TurnStage::Idle);
    }
    match next_third(&seen, i, j, from, seen.len(), tried) {
        Some(k) => try_third(ledger, worker, seen, from, tried, k),
        None => Ok(TurnStage::Ready { seen }),
    }
}

/// Settles the pair through the third move, where its pairs with both are settled, or else goes on behind it.
fn try_third(
    ledger: &mut Ledger,
    worker: u32,
    seen: Basis,
    from: u32,
    tried: u32,
    k: u32,
) -> Result<TurnStage, NoMemory>
    requires { IsThirdTried ledger.old worker seen from tried k }
    ensures { IfOk result (TakesLine ledger.old worker (Tests seen from tried) ledger.new) }
{
    // Whoever has its basis knows that it is legal.
    let _ = ledger.basis();
    match ledger.settle_chain(worker, k) {
        Ok(()) => Ok(TurnStage::Idle),
        Err(ChainFault::Memory) => Err(NoMemory),
        Err(ChainFault::Unsettled { .. }) => Ok(TurnStage::Tests {
            seen,
            from: k + 1,
            tried: tried + 1,
        }),
    }
}

/// Reduces the difference of the pair by the worker's copy.
fn reduce_pair(
    alloc: Global,
    ledger: &Ledger,
    worker: u32,
    seen: &Basis,
) -> Result<TurnStage, NoMemory>
    requires seat { IsAt ledger.now worker (Ready seen.now) }
    requires within { worker < ledger.now.state.workers }
    ensures { IfOk result (TakesLine ledger.now worker (Ready seen.now) ledger.now) }
{
    let (i, j) = claimed_places(ledger, worker);
    // Whoever has its basis knows that it is legal.
    let _ = ledger.basis();
    match critical(alloc, seen, i, j) {
        Ok(work) => reduce_work(alloc, work, seen),
        Err(stop) => stop_by(stopped_work(i, j, None, stop)),
    }
}

/// Reduces what is left by the whole basis.
fn reduce_again(
    alloc: Global,
    ledger: &Ledger,
    worker: u32,
    work: Work,
) -> Result<TurnStage, NoMemory>
    requires { IsAt ledger.now worker (Stale work) }
    ensures { IfOk result (TakesLine ledger.now worker (Stale work) ledger.now) }
{
    reduce_work(alloc, work, ledger.basis())
}

/// Reduces work by a basis.
fn reduce_work(alloc: Global, mut work: Work, basis: &Basis) -> Result<TurnStage, NoMemory>
    requires { WorkOf work basis.now }
    ensures { IfOk result (ReducesWork basis.now work) }
{
    let finder = finder_of(alloc, basis)?;
    match reduce(&mut work, basis, &finder) {
        Ok(()) => Ok(TurnStage::Reduced { work }),
        Err(stop) => {
            let (i, j) = work.pair();
            stop_by(stopped_work(i, j, work.into_remainder(), stop))
        }
    }
}

/// The fault for a stop of the work on a pair, where so much was left.
fn stopped_work(i: u32, j: u32, operand: Option<Move>, stop: Stop) -> WorkFault
    ensures { result ≡ fault_of_stop (pair_of i j) operand stop }
{
    match stop {
        Stop::Memory => WorkFault::Memory,
        Stop::Overflow { by, at } => WorkFault::Overflow(OverflowStop {
            i,
            j,
            by,
            operand,
            at,
        }),
    }
}

/// The stage of a worker whose work stopped by an overflow.
fn stop_by(fault: WorkFault) -> Result<TurnStage, NoMemory>
    ensures { IfOk result (IsStoppingBy fault) }
{
    match fault {
        WorkFault::Memory => Err(NoMemory),
        WorkFault::Overflow(stop) => Ok(TurnStage::Stopping { stop }),
    }
}

/// Settles the pair by what is left, unless the basis has more moves than reduced it.
fn settle_work(ledger: &mut Ledger, worker: u32, work: Work) -> Result<TurnStage, NoMemory>
    requires { HasReduced ledger.old worker work }
    ensures { IfOk result (TakesLine ledger.old worker (Reduced work) ledger.new) }
{
    // Whoever has its basis knows that it is legal.
    let length = ledger.basis().len();
    if work.remainder().is_none() {
        ledger.settle_zero(worker)?;
        return Ok(TurnStage::Idle);
    }
    if work.front() < length {
        return Ok(TurnStage::Stale { work });
    }
    let rest = work.into_remainder().unwrap();
    place_rest(ledger, worker, rest)
}

/// Settles the pair by what is left, oriented, or is gone where the basis is full.
fn place_rest(ledger: &mut Ledger, worker: u32, mut rest: Move) -> Result<TurnStage, NoMemory>
    requires { IsRestOfClaim ledger.old worker rest }
    ensures { IfOk result (PlacesRest ledger.old worker rest ledger.new) }
{
    rest.orient(ledger.basis().priority());
    let front = ledger.basis().len();
    match ledger.settle_place(worker, front, rest) {
        Ok(_) => Ok(TurnStage::Idle),
        Err(PlaceFault::BasisFull) => Ok(TurnStage::Gone),
        Err(PlaceFault::Memory { .. }) => Err(NoMemory),
        Err(PlaceFault::Behind { .. }) => unreachable!(),
    }
}

/// Halts for an overflow.
fn halt_by(ledger: &mut Ledger, worker: u32, stop: OverflowStop) -> TurnStage
    requires seat { IsAt ledger.old worker (Stopping stop) }
    requires within { worker < ledger.old.state.workers }
    ensures { TakesLine ledger.old worker (Stopping stop) ledger.new result }
{
    // Whoever has its basis knows that it is legal.
    let _ = ledger.basis();
    ledger.halt(worker, Halt::Overflow(stop));
    TurnStage::Gone
}
