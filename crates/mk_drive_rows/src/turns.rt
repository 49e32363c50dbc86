use crate::calls::turns_of;
use crate::lattices::{MOVES, OVERLAPPING, TWO_PLACED};
use mk_core::Job;
use mk_drive::drive;
use mk_ledger::Ledger;
use mk_row_tools::{expect_moves, start_of};
use std::alloc::AllocGlobal;
use std::process::Abort;
use std::test::Fail;

// Until each worker has what is left of its claim: it claims, copies, tries a third move in vain, finds no other, and reduces.
const BOTH_REDUCE: &[u32] = &[0, 1, 0, 1, 0, 1, 0, 1, 0, 1];

// Two workers take these turns on the moves in a text, along the list of a column or the standard list.
fn driven(
    rt: &(impl Abort + AllocGlobal),
    text: &str,
    column: Option<u32>,
    workers: &[u32],
) -> Result<Ledger, Fail> {
    let start = start_of(rt.alloc(), text, &[1; 4], column)?;
    assert!(rt; start.len() <= 65_536);
    let schedule = turns_of(rt, workers)?;
    let job = Job {
        start,
        budget: 100,
        basis_limit: 65_536,
    };
    Ok(drive(rt.alloc(), job, 2, &schedule)?)
}

// The claim of a worker.
fn claim_held(rt: &impl Abort, ledger: &Ledger, worker: u32) -> Option<(u32, u32)> {
    assert!(rt; worker < ledger.workers());
    ledger.claim_of(worker)
}

// Without turns nothing is claimed; an idle worker's turn is its claim; and a worker that has one copies the basis.
#[test]
fn first_turns_are_claims(rt: HostRuntime) -> Result<(), Fail> {
    let rows = [
        (MOVES[0], Some(1), &[][..], None, None, 0),
        (MOVES[0], Some(1), &[1][..], None, Some((0, 1)), 1),
        (
            OVERLAPPING,
            None,
            &[0, 1, 0, 1][..],
            Some((0, 1)),
            Some((0, 2)),
            2,
        ),
    ];
    for (text, column, workers, first, second, made) in rows {
        let ledger = driven(&rt, text, column, workers)?;
        expect_moves(rt.alloc(), ledger.basis(), text)?;
        assert_eq!(rt; claim_held(&rt, &ledger, 0), first);
        assert_eq!(rt; claim_held(&rt, &ledger, 1), second);
        assert_eq!(rt; ledger.claims_made(), made);
        assert_eq!(rt; ledger.settled_count(), 0);
    }
    Ok(())
}

// Both workers reduce by the three moves. The second places its move; the first, which is behind, reduces again and places
// its own.
#[test]
fn a_stale_worker_reduces_again(rt: HostRuntime) -> Result<(), Fail> {
    let mut workers = Vec::new(rt.alloc());
    workers.extend_from_slice(BOTH_REDUCE)?;
    workers.extend_from_slice(&[1, 0, 0])?;
    let behind = driven(&rt, OVERLAPPING, None, &workers)?;
    assert_eq!(rt; behind.basis().len(), 4);
    assert_eq!(rt; behind.settled_count(), 1);
    workers.push(0)?;
    let both = driven(&rt, OVERLAPPING, None, &workers)?;
    expect_moves(rt.alloc(), both.basis(), TWO_PLACED)?;
    assert_eq!(rt; both.settled_count(), 2);
    Ok(())
}

// Two workers in turn complete the two moves of the twisted cubic, as one does, and then are gone.
#[test]
fn workers_in_turn_end(rt: HostRuntime) -> Result<(), Fail> {
    let mut workers = Vec::new(rt.alloc());
    for turn in 0..60 {
        workers.push(turn % 2)?;
    }
    let ledger = driven(&rt, MOVES[0], Some(1), &workers)?;
    assert!(rt; ledger.is_ended());
    expect_moves(rt.alloc(), ledger.basis(), MOVES[1])?;
    assert_eq!(rt; ledger.settled_count(), 3);
    assert_eq!(rt; ledger.claims_made(), 3);
    Ok(())
}
