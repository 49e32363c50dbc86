use crate::calls::{answer_for, ledger_of, place_claim};
use crate::completions::ENTRIES;
use crate::lattices::{MOVES, OVERLAPPING};
use mk_criteria::{chain_candidates, find_chain, is_chain};
use mk_ledger::{ChainFault, Claim, JournalEntry, Ledger};
use mk_move::{chain_divides, coprime_leads};
use mk_row_tools::expect_moves;
use std::alloc::AllocGlobal;
use std::process::Abort;
use std::test::Fail;

// A ledger of three moves whose leads overlap, for three workers.
fn three_workers(rt: &(impl Abort + AllocGlobal)) -> Result<Ledger, Fail> {
    let ledger = ledger_of(rt, OVERLAPPING, None, 100, 65_536, 3)?;
    expect_moves(rt.alloc(), ledger.basis(), OVERLAPPING)?;
    Ok(ledger)
}

// The worker, whose claim the third move may settle, settles it by that move.
fn chain_by(rt: &impl Abort, ledger: &mut Ledger, worker: u32, k: u32) -> Result<(), ChainFault> {
    assert!(rt; worker < ledger.workers());
    let Some((i, j)) = ledger.claim_of(worker) else {
        panic!(rt; "no claim");
    };
    let count = ledger.basis().len();
    assert!(rt; i < count && j < count && k < count);
    assert!(rt; k != i && k != j);
    assert!(rt; chain_divides(ledger.basis(), i, j, k));
    ledger.settle_chain(worker, k)
}

#[test]
fn a_pair_that_is_claimed_settles_no_other(rt: HostRuntime) -> Result<(), Fail> {
    let mut ledger = three_workers(&rt)?;
    let first = Claim::Claimed { i: 0, j: 1 };
    assert_eq!(rt; answer_for(&rt, &mut ledger, 0), first);
    let second = Claim::Claimed { i: 0, j: 2 };
    assert_eq!(rt; answer_for(&rt, &mut ledger, 1), second);
    let third = Claim::Claimed { i: 1, j: 2 };
    assert_eq!(rt; answer_for(&rt, &mut ledger, 2), third);
    let unsettled = ChainFault::Unsettled { i: 0, j: 2 };
    assert_eq!(rt; chain_by(&rt, &mut ledger, 0, 2), Err(unsettled));
    Ok(())
}

// The least third move through which the pair of two places is settled.
fn third_move_for(rt: &impl Abort, ledger: &Ledger, i: u32, j: u32) -> Option<u32> {
    assert!(rt; i < j && j < ledger.basis().len());
    find_chain(ledger.basis(), ledger, i, j)
}

// The least move from a place on that may settle the pair of two places.
fn candidate_for(rt: &impl Abort, ledger: &Ledger, i: u32, j: u32, from: u32) -> Option<u32> {
    assert!(rt; i < j && j < ledger.basis().len());
    chain_candidates(ledger.basis(), i, j, from)
}

// Whether the pair of two places is settled through the move of a place.
fn is_settled_through(rt: &impl Abort, ledger: &Ledger, i: u32, j: u32, k: u32) -> bool {
    let count = ledger.basis().len();
    assert!(rt; i < j && j < count && k < count);
    is_chain(ledger.basis(), ledger, i, j, k)
}

#[test]
fn third_moves_are_found(rt: HostRuntime) -> Result<(), Fail> {
    let ledger = three_workers(&rt)?;
    assert_eq!(rt; third_move_for(&rt, &ledger, 0, 1), None);
    assert!(rt; !is_settled_through(&rt, &ledger, 0, 1, 2));
    assert_eq!(rt; ledger.settled_end(0), 2);
    assert_eq!(rt; ledger.settled_end(2), 0);
    let rows = [(0, 1, 0, Some(2)), (1, 2, 0, Some(0)), (1, 2, 1, None)];
    for (i, j, from, wanted) in rows {
        assert_eq!(rt; candidate_for(&rt, &ledger, i, j, from), wanted);
    }
    Ok(())
}

// The least third move through which the claim of the worker is settled.
fn third_move_of(rt: &impl Abort, ledger: &Ledger, worker: u32) -> Option<u32> {
    assert!(rt; worker < ledger.workers());
    let Some((i, j)) = ledger.claim_of(worker) else {
        panic!(rt; "no claim");
    };
    third_move_for(rt, ledger, i, j)
}

// The first pair is settled through the third move once both of its pairs are settled by moves, and the last through the first
// move once the others are.
#[test]
fn a_pair_is_settled_through_a_third_move(rt: HostRuntime) -> Result<(), Fail> {
    for (first, second, last, k) in [(1, 2, 0, 2), (0, 1, 2, 0)] {
        let mut ledger = three_workers(&rt)?;
        for worker in 0..3 {
            let answer = answer_for(&rt, &mut ledger, worker);
            assert!(rt; matches!(answer, Claim::Claimed { .. }));
        }
        let placed = place_claim(&rt, &mut ledger, first)?;
        assert!(rt; placed.is_ok());
        let placed = place_claim(&rt, &mut ledger, second)?;
        assert!(rt; placed.is_ok());
        assert_eq!(rt; third_move_of(&rt, &ledger, last), Some(k));
        assert_eq!(rt; chain_by(&rt, &mut ledger, last, k), Ok(()));
        assert_eq!(rt; ledger.settled_count(), 3);
    }
    Ok(())
}

// The worker, whose claim has leads without a common column, settles it by that.
fn settle_apart(rt: &impl Abort, ledger: &mut Ledger, worker: u32) -> Result<(), Fail> {
    assert!(rt; worker < ledger.workers());
    let Some((i, j)) = ledger.claim_of(worker) else {
        panic!(rt; "no claim");
    };
    let basis = ledger.basis();
    assert!(rt; i < basis.len() && j < basis.len());
    assert!(rt; coprime_leads(basis.move_at(i), basis.move_at(j)));
    ledger.settle_coprime(worker)?;
    Ok(())
}

// The last entry of the journal.
fn last_entry(rt: &impl Abort, ledger: &Ledger) -> JournalEntry {
    let count = ledger.settled_count();
    assert!(rt; count > 0);
    ledger.entry_at(count - 1)
}

#[test]
fn a_pair_of_disjoint_leads_is_settled(rt: HostRuntime) -> Result<(), Fail> {
    let mut ledger = ledger_of(&rt, MOVES[0], Some(1), 3, 65_536, 2)?;
    let first = Claim::Claimed { i: 0, j: 1 };
    assert_eq!(rt; answer_for(&rt, &mut ledger, 0), first);
    let placed = place_claim(&rt, &mut ledger, 0)?;
    assert!(rt; matches!(placed, Ok(2)), "{placed:?}");
    let next = Claim::Claimed { i: 0, j: 2 };
    assert_eq!(rt; answer_for(&rt, &mut ledger, 1), next);
    let last = Claim::Claimed { i: 1, j: 2 };
    assert_eq!(rt; answer_for(&rt, &mut ledger, 0), last);
    settle_apart(&rt, &mut ledger, 0)?;
    assert_eq!(rt; last_entry(&rt, &ledger), ENTRIES[2]);
    assert_eq!(rt; ledger.settled_count(), 2);
    let claimed = Claim::NotYet {
        worker: 1,
        i: 0,
        j: 2,
    };
    assert_eq!(rt; answer_for(&rt, &mut ledger, 0), claimed);
    Ok(())
}
