use crate::calls::turns_of;
use crate::lattices::{ONE_PLACED, OVERLAPPING};
use mk_core::Job;
use mk_drive::drive_halting;
use mk_ledger::{Halt, Ledger};
use mk_row_tools::{expect_moves, start_of};
use std::alloc::AllocGlobal;
use std::process::Abort;
use std::test::Fail;

// Two workers take these turns on the three overlapping moves, and memory is refused at some of them.
fn driven(
    rt: &(impl Abort + AllocGlobal),
    workers: &[u32],
    refused: &[u64],
) -> Result<Ledger, Fail> {
    let start = start_of(rt.alloc(), OVERLAPPING, &[1; 4], None)?;
    assert!(rt; start.len() <= 65_536);
    let schedule = turns_of(rt, workers)?;
    let job = Job {
        start,
        budget: 100,
        basis_limit: 65_536,
    };
    let ledger = drive_halting(rt.alloc(), job, 2, &schedule, refused)?;
    assert_eq!(rt; ledger.workers(), 2);
    Ok(ledger)
}

// A worker whose turn is refused memory halts, gives its claim up and is gone; the other may still settle its own. A number that is no
// turn's refuses nothing.
#[test]
fn a_refused_worker_halts_and_is_gone(rt: HostRuntime) -> Result<(), Fail> {
    let held = Some((0, 2));
    let rows = [
        (&[0, 1, 0][..], &[2][..], held, 2, 0, true, OVERLAPPING),
        (
            &[0, 1, 0, 0, 0][..],
            &[4, 2][..],
            held,
            2,
            0,
            true,
            OVERLAPPING,
        ),
        (&[0, 1, 1][..], &[0][..], None, 0, 0, true, OVERLAPPING),
        (&[0, 1][..], &[2][..], held, 2, 0, false, OVERLAPPING),
        (
            &[0, 1, 0, 1, 1, 1, 1, 1][..],
            &[2][..],
            None,
            2,
            1,
            true,
            ONE_PLACED,
        ),
    ];
    for (workers, refused, claim, made, settled, is_halted, moves) in rows {
        let ledger = driven(&rt, workers, refused)?;
        assert_eq!(rt; ledger.workers(), 2);
        assert_eq!(rt; ledger.claim_of(0).is_none(), is_halted);
        assert_eq!(rt; ledger.claim_of(1), claim);
        assert_eq!(rt; ledger.claims_made(), made);
        assert_eq!(rt; ledger.settled_count(), settled);
        let halted = matches!(ledger.first_halt(), Some(Halt::Memory));
        assert_eq!(rt; halted, is_halted);
        expect_moves(rt.alloc(), ledger.basis(), moves)?;
    }
    Ok(())
}
