use crate::calls::{answer_for, both_claimed, halt_without_memory, place_claim};
use crate::lattices::ONE_PLACED;
use mk_core::{Completed, Stopped, finish_alone};
use mk_ledger::{Claim, Halt, Ledger, PlaceFault};
use mk_row_tools::expect_moves;
use std::alloc::AllocGlobal;
use std::process::Abort;
use std::test::Fail;

// Goes on from a ledger of two workers, neither of which has a claim.
fn finished(rt: &(impl Abort + AllocGlobal), ledger: Ledger) -> Result<Completed, Stopped> {
    assert_eq!(rt; ledger.workers(), 2);
    assert!(rt; ledger.claim_of(0).is_none());
    assert!(rt; ledger.claim_of(1).is_none());
    let _ = ledger.basis();
    finish_alone(rt.alloc(), ledger)
}

// Where three moves are the limit, each worker finds the basis full, and no pair is claimed any more.
#[test]
fn two_workers_find_the_basis_full(rt: HostRuntime) -> Result<(), Fail> {
    let mut ledger = both_claimed(&rt, 100, 3)?;
    for worker in 0..2 {
        let placed = place_claim(&rt, &mut ledger, worker)?;
        assert!(rt; matches!(placed, Err(PlaceFault::BasisFull)));
    }
    let stopped = Claim::Stopped { worker: 0 };
    assert_eq!(rt; answer_for(&rt, &mut ledger, 0), stopped);
    let first = ledger.first_halt();
    assert!(rt; matches!(first, Some(Halt::Full { i: 0, j: 1 })));
    assert_eq!(rt; ledger.claims_made(), 2);
    assert_eq!(rt; ledger.settled_count(), 0);
    Ok(())
}

// A worker that has a claim settles it once the other has halted, and is given no pair any more.
#[test]
fn a_claim_is_settled_once_another_halted(rt: HostRuntime) -> Result<(), Fail> {
    let mut ledger = both_claimed(&rt, 100, 65_536)?;
    halt_without_memory(&rt, &mut ledger, 0);
    assert_eq!(rt; place_claim(&rt, &mut ledger, 1)?.ok(), Some(3));
    expect_moves(rt.alloc(), ledger.basis(), ONE_PLACED)?;
    let stopped = Claim::Stopped { worker: 0 };
    assert_eq!(rt; answer_for(&rt, &mut ledger, 1), stopped);
    assert_eq!(rt; ledger.settled_count(), 1);
    let outcome = finished(&rt, ledger);
    assert!(rt; matches!(outcome, Err(Stopped::Memory)));
    Ok(())
}

// The budget counts the claim that the first worker still holds.
#[test]
fn a_held_claim_uses_the_budget(rt: HostRuntime) -> Result<(), Fail> {
    let mut ledger = both_claimed(&rt, 2, 65_536)?;
    assert_eq!(rt; place_claim(&rt, &mut ledger, 1)?.ok(), Some(3));
    let over = Claim::OverBudget { made: 2 };
    assert_eq!(rt; answer_for(&rt, &mut ledger, 1), over);
    assert_eq!(rt; ledger.workers(), 2);
    assert_eq!(rt; ledger.claim_of(0), Some((0, 1)));
    Ok(())
}
