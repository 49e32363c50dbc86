use mk_core::{Completed, Job, JournalEntry, Kind, Phase, Stopped};
use mk_row_tools::{expect_moves, start_of};
use mk_workers::{OpenGate, complete_shared};
use std::process::Abort;
use std::test::Fail;

// Is the pair of two places settled in a way, by one of two workers?
fn settles(entry: JournalEntry, i: u16, j: u16, kind: Kind, third: u16) -> bool {
    entry.i == i && entry.j == j && entry.kind == kind && entry.third == third && entry.worker < 2
}

// The phase of a completion.
fn phase_of(rt: &impl Abort, outcome: Result<Completed, Stopped>) -> Phase {
    match outcome {
        Ok(completed) => completed.into_phase(),
        Err(stopped) => panic!(rt; "{stopped:?}"),
    }
}

// Two moves of the twisted cubic, completed by two workers: the moves and the ways of settling that one worker finds, in either order
// of the last two pairs and by whichever worker.
#[test]
fn two_workers_complete(rt: HostRuntime) -> Result<(), Fail> {
    let start = start_of(rt.alloc(), "2 4\n1 -2 1 0\n0 -1 2 -1\n", &[1; 4], Some(1))?;
    assert!(rt; start.len() <= 65_536);
    let job = Job {
        start,
        budget: 3,
        basis_limit: 65_536,
    };
    let phase = phase_of(&rt, complete_shared(&rt, rt.alloc(), job, 2, &OpenGate));
    assert_eq!(rt; phase.start_len, 2);
    expect_moves(
        rt.alloc(),
        &phase.basis,
        "3 4\n1 -2 1 0\n0 -1 2 -1\n1 -1 -1 1\n",
    )?;
    assert_eq!(rt; phase.journal.len(), 3);
    let first = phase.journal.entry_at(0);
    let second = phase.journal.entry_at(1);
    let third = phase.journal.entry_at(2);
    assert!(rt; settles(first, 0, 1, Kind::Place, 2));
    assert!(rt; settles(second, 0, 2, Kind::Zero, 0) || settles(second, 1, 2, Kind::Coprime, 0));
    assert!(rt; settles(third, 0, 2, Kind::Zero, 0) || settles(third, 1, 2, Kind::Coprime, 0));
    assert!(rt; second.i != third.i);
    Ok(())
}
