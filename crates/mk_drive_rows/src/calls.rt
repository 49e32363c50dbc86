ghost use Rattle.std.specs.Prelude.{◌≡◌, ◌<◌, ℕ, length, All, None, IfOk};
ghost use Rattle.mk_model.specs.CoreStates.{claim_of, pair_of};
ghost use Rattle.mk_reduce.specs.Remainders.{IsNormalRest};

use crate::lattices::OVERLAPPING;
use mk_core::finder_of;
use mk_drive::Turn;
use mk_ledger::{Claim, Halt, Ledger, PlaceFault};
use mk_move::{Basis, Move};
use mk_reduce::{critical, reduce};
use mk_row_tools::start_of;
use std::alloc::AllocGlobal;
use std::process::Abort;
use std::test::Fail;

// A ledger on the moves in a text, along the list of a column or the standard list, that nobody has claimed from.
pub(crate) fn ledger_of(
    rt: &(impl Abort + AllocGlobal),
    text: &str,
    first: Option<u32>,
    budget: u64,
    limit: u32,
    workers: u32,
) -> Result<Ledger, Fail>
    ensures { IfOk result (λ ledger. (worker : ℕ) → claim_of ledger.state worker ≡ None) }
{
    let start = start_of(rt.alloc(), text, &[1; 4], first)?;
    assert!(rt; start.len() <= limit);
    assert!(rt; limit <= 65_536);
    assert!(rt; workers >= 1 && workers <= 64);
    Ok(Ledger::new(rt.alloc(), start, budget, limit, workers)?)
}

// The turns of workers, each of them one of two.
pub(crate) fn turns_of(rt: &(impl Abort + AllocGlobal), workers: &[u32]) -> Result<Vec<Turn>, Fail>
    ensures { IfOk result (λ turns. All (λ turn. turn.worker < 2) turns.items) }
{
    let mut turns = Vec::new(rt.alloc());
    for worker in workers {
        assert!(rt; *worker < 2);
        turns.push(Turn { worker: *worker })?;
    }
    Ok(turns)
}

// What a worker that has no claim is answered when it asks for a pair.
pub(crate) fn answer_for(rt: &impl Abort, ledger: &mut Ledger, worker: u32) -> Claim {
    assert!(rt; worker < ledger.workers());
    assert!(rt; ledger.claim_of(worker).is_none());
    ledger.claim(worker)
}

// What is left of the difference of a pair, reduced by the basis.
fn remainder_of(
    rt: &(impl Abort + AllocGlobal),
    basis: &Basis,
    i: u32,
    j: u32,
) -> Result<Move, Fail>
    requires ordered { i < j }
    requires within { j < length basis.now.moves }
    ensures { IfOk result (IsNormalRest basis.now (pair_of i j)) }
{
    let finder = finder_of(rt.alloc(), basis)?;
    let mut work = critical(rt.alloc(), basis, i, j)?;
    reduce(&mut work, basis, &finder)?;
    match work.into_remainder() {
        Some(rest) => Ok(rest),
        None => panic!(rt; "nothing is left"),
    }
}

// The worker settles its claim by what is left of its difference.
pub(crate) fn place_claim(
    rt: &(impl Abort + AllocGlobal),
    ledger: &mut Ledger,
    worker: u32,
) -> Result<Result<u32, PlaceFault>, Fail> {
    assert!(rt; worker < ledger.workers());
    let Some((i, j)) = ledger.claim_of(worker) else {
        panic!(rt; "no claim");
    };
    let front = ledger.basis().len();
    assert!(rt; i < j && j < front);
    let mut remainder = remainder_of(rt, ledger.basis(), i, j)?;
    remainder.orient(ledger.basis().priority());
    Ok(ledger.settle_place(worker, front, remainder))
}

// A worker that has a claim halts for want of memory.
pub(crate) fn halt_without_memory(rt: &impl Abort, ledger: &mut Ledger, worker: u32) {
    assert!(rt; worker < ledger.workers());
    assert!(rt; ledger.claim_of(worker).is_some());
    let _ = ledger.basis();
    ledger.halt(worker, Halt::Memory);
}

// A ledger of the three overlapping moves, where the first worker has claimed the pair (0, 1) and the second the pair (0, 2).
pub(crate) fn both_claimed(
    rt: &(impl Abort + AllocGlobal),
    budget: u64,
    limit: u32,
) -> Result<Ledger, Fail> {
    let mut ledger = ledger_of(rt, OVERLAPPING, None, budget, limit, 2)?;
    let first = Claim::Claimed { i: 0, j: 1 };
    assert_eq!(rt; answer_for(rt, &mut ledger, 0), first);
    let second = Claim::Claimed { i: 0, j: 2 };
    assert_eq!(rt; answer_for(rt, &mut ledger, 1), second);
    Ok(ledger)
}
