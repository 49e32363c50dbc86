use crate::starts::OVERLAPPING;
use mk_core::{Completed, Job, Journal, JournalEntry, Kind, Phase, Stopped};
use mk_row_tools::{Meeting, expect_row, start_of};
use mk_workers::{Gate, complete_shared};
use std::alloc::AllocGlobal;
use std::process::Abort;
use std::sync::Wait;
use std::test::Fail;
use std::thread::Threads;

// Four moves each two of whose leads have a column in common. The pair of the last two may be settled through either of the others.
const WITH_THIRD_MOVES: &str = "4 4\n1 1 -1 -1\n1 -1 1 -1\n-1 1 1 -1\n1 1 1 -3\n";

// A gate at which two workers meet.
#[derive(Drop)]
struct MeetingGate {
    meeting: Meeting,
}

impl Gate for MeetingGate {
    fn reach(&self, worker: u32, count: u64) {
        self.meeting.reach(worker, count);
    }
}

// Two workers complete the moves in a text, within a budget and a limit of moves. The first has claimed a pair, and is held before it
// reduces it until the other has come to so many reductions: how it ends, and how many reductions were begun.
fn completed_by_two<R: Abort + AllocGlobal + Threads + Wait + Sync>(
    rt: &R,
    text: &str,
    budget: u64,
    limit: u32,
    until: u64,
) -> Result<(Result<Completed, Stopped>, u64), Fail> {
    let start = start_of(rt.alloc(), text, &[1; 4], None)?;
    assert!(rt; start.len() <= limit);
    assert!(rt; limit <= 65_536);
    let job = Job {
        start,
        budget,
        basis_limit: limit,
    };
    let gate = MeetingGate {
        meeting: Meeting::new(until),
    };
    let outcome = complete_shared(rt, rt.alloc(), job, 2, &gate);
    assert!(rt; gate.meeting.is_met());
    Ok((outcome, gate.meeting.passed()))
}

// The entry of the pair of two places.
fn entry_for(rt: &impl Abort, journal: &Journal, i: u16, j: u16) -> JournalEntry {
    for n in 0..journal.len() {
        let entry = journal.entry_at(n);
        if entry.i == i && entry.j == j {
            return entry;
        }
    }
    panic!(rt; "no entry for {i}, {j}")
}

// How many pairs were settled by a reduction.
fn reductions_in(journal: &Journal) -> u64 {
    let mut reduced = 0u64;
    for n in 0..journal.len() {
        if matches!(journal.entry_at(n).kind, Kind::Zero | Kind::Place) {
            reduced = reduced.saturating_add(1);
        }
    }
    reduced
}

// The fourth move of a phase is what is left of the pair (0, 2).
fn assert_placed(rt: &impl Abort, phase: &Phase) -> Result<(), Fail> {
    assert!(rt; phase.basis.len() > 3);
    expect_row(phase.basis.move_at(3), &[2, 0, -2, 0])
}

// Each worker settles the pair that it has claimed, and then no budget is left.
#[test]
fn two_workers_use_the_budget_up(rt: HostRuntime) -> Result<(), Fail> {
    let (outcome, _) = completed_by_two(&rt, OVERLAPPING, 2, 65_536, 1)?;
    let Err(Stopped::OverBudget { phase }) = outcome else {
        panic!(rt; "not over the budget");
    };
    assert_eq!(rt; phase.basis.len(), 5);
    assert_eq!(rt; phase.journal.len(), 2);
    let first = entry_for(&rt, &phase.journal, 0, 1);
    let second = entry_for(&rt, &phase.journal, 0, 2);
    assert!(rt; first.kind == Kind::Place && second.kind == Kind::Place);
    assert!(rt; first.worker != second.worker);
    Ok(())
}

// The other worker places the fourth of four moves and claims the pair (1, 2). Then each of the two has a claim that needs another
// move: where one halts the other still has its own.
#[test]
fn a_worker_halts_while_another_has_a_claim(rt: HostRuntime) -> Result<(), Fail> {
    let (outcome, _) = completed_by_two(&rt, OVERLAPPING, 100, 4, 2)?;
    let Err(Stopped::BasisFull { phase, i, j }) = outcome else {
        panic!(rt; "not full");
    };
    assert!(rt; (i, j) == (0, 1) || (i, j) == (1, 2));
    assert_eq!(rt; phase.basis.len(), 4);
    assert_placed(&rt, &phase)?;
    assert_eq!(rt; phase.journal.len(), 1);
    let entry = entry_for(&rt, &phase.journal, 0, 2);
    assert!(rt; entry.kind == Kind::Place && entry.third == 3);
    Ok(())
}

// The work on the pair (0, 1) is stale once it is reduced, and is reduced again: more reductions are begun than pairs were reduced.
#[test]
fn a_stale_work_goes_on(rt: HostRuntime) -> Result<(), Fail> {
    let (outcome, begun) = completed_by_two(&rt, OVERLAPPING, 100, 65_536, 2)?;
    let phase = outcome?.into_phase();
    assert_placed(&rt, &phase)?;
    let first = entry_for(&rt, &phase.journal, 0, 1);
    let second = entry_for(&rt, &phase.journal, 0, 2);
    assert!(rt; first.worker != second.worker);
    assert!(rt; begun > reductions_in(&phase.journal));
    Ok(())
}

// Once the last of four moves is the second of a pair, the other worker has one claim at most. So one of the two third moves settles it.
#[test]
fn two_workers_settle_through_a_third_move(rt: HostRuntime) -> Result<(), Fail> {
    let (outcome, _) = completed_by_two(&rt, WITH_THIRD_MOVES, 100, 65_536, 1)?;
    let phase = outcome?.into_phase();
    let first = entry_for(&rt, &phase.journal, 0, 1);
    let second = entry_for(&rt, &phase.journal, 0, 2);
    assert!(rt; first.worker != second.worker);
    let last = entry_for(&rt, &phase.journal, 2, 3);
    assert!(rt; last.kind == Kind::Chain && last.third < 2);
    Ok(())
}
