use crate::calls::{answer_for, ledger_of, place_claim};
use crate::lattices::MOVES;
use mk_core::{
    Completed, Job, Journal, JournalEntry, Kind, Phase, Stopped, complete_alone, finish_alone,
};
use mk_ledger::{Claim, Halt};
use mk_row_tools::{expect_moves, start_of};
use std::alloc::AllocGlobal;
use std::process::Abort;
use std::test::Fail;

pub(crate) const ENTRIES: [JournalEntry; 3] = [
    JournalEntry {
        i: 0,
        j: 1,
        third: 2,
        worker: 0,
        kind: Kind::Place,
    },
    JournalEntry {
        i: 0,
        j: 2,
        third: 0,
        worker: 0,
        kind: Kind::Zero,
    },
    JournalEntry {
        i: 1,
        j: 2,
        third: 0,
        worker: 0,
        kind: Kind::Coprime,
    },
];

// How a completion ends, with its phase.
fn ending_of(rt: &impl Abort, outcome: Result<Completed, Stopped>) -> (&'static str, Phase) {
    match outcome {
        Ok(completed) => ("completed", completed.into_phase()),
        Err(Stopped::OverBudget { phase }) => ("over budget", phase),
        Err(Stopped::BasisFull { phase, i: 0, j: 1 }) => ("full", phase),
        Err(other) => panic!(rt; "{other:?}"),
    }
}

// The completion of two moves of the twisted cubic, along the list of column 1, within a budget and a limit of moves: of a job, or of a
// ledger of two workers.
fn completion(
    rt: &(impl Abort + AllocGlobal),
    budget: u64,
    limit: u32,
    is_ledger: bool,
) -> Result<Result<Completed, Stopped>, Fail> {
    if is_ledger {
        let ledger = ledger_of(rt, MOVES[0], Some(1), budget, limit, 2)?;
        return Ok(finish_alone(rt.alloc(), ledger));
    }
    let start = start_of(rt.alloc(), MOVES[0], &[1; 4], Some(1))?;
    assert!(rt; start.len() <= limit);
    assert!(rt; limit <= 65_536);
    let job = Job {
        start,
        budget,
        basis_limit: limit,
    };
    Ok(complete_alone(rt.alloc(), job))
}

// The journal has so many entries, which are those of the completion of the twisted cubic.
fn assert_entries(rt: &impl Abort, journal: &Journal, count: u64) {
    assert_eq!(rt; journal.len(), count);
    for n in 0..journal.len() {
        assert!(rt; n < 3);
        assert_eq!(rt; journal.entry_at(n), ENTRIES[n as usize]);
    }
}

// A completion within a budget and a limit of moves: how it ends, with how many moves and entries. A ledger that nobody has claimed from
// goes on as a job does.
#[test]
fn completions_end(rt: HostRuntime) -> Result<(), Fail> {
    let rows = [
        (3, 65_536, "completed", MOVES[1], 3),
        (2, 65_536, "over budget", MOVES[1], 2),
        (3, 2, "full", MOVES[0], 0),
    ];
    for (budget, limit, wanted, moves, count) in rows {
        for is_ledger in [false, true] {
            let outcome = completion(&rt, budget, limit, is_ledger)?;
            let (ending, phase) = ending_of(&rt, outcome);
            assert_eq!(rt; ending, wanted);
            assert_eq!(rt; phase.start_len, 2);
            expect_moves(rt.alloc(), &phase.basis, moves)?;
            assert_entries(&rt, &phase.journal, count);
        }
    }
    Ok(())
}

// Two workers on the twisted cubic, within a budget and a limit: the first claims the pair, which the other isn't given, and settles
// it by a move; then each asks for a pair.
#[test]
fn a_ledger_answers_two_workers(rt: HostRuntime) -> Result<(), Fail> {
    let next = Claim::Claimed { i: 0, j: 2 };
    let last = Claim::Claimed { i: 1, j: 2 };
    let over = Claim::OverBudget { made: 1 };
    let stopped = Claim::Stopped { worker: 0 };
    let rows = [
        (3, 65_536, MOVES[1], next, last),
        (1, 65_536, MOVES[1], over, over),
        (3, 2, MOVES[0], stopped, stopped),
    ];
    for (budget, limit, moves, second, first) in rows {
        let mut ledger = ledger_of(&rt, MOVES[0], Some(1), budget, limit, 2)?;
        let claimed = Claim::Claimed { i: 0, j: 1 };
        assert_eq!(rt; answer_for(&rt, &mut ledger, 0), claimed);
        let taken = Claim::NotYet {
            worker: 0,
            i: 0,
            j: 1,
        };
        assert_eq!(rt; answer_for(&rt, &mut ledger, 1), taken);
        let placed = place_claim(&rt, &mut ledger, 0)?;
        assert_eq!(rt; placed.ok(), if limit == 2 { None } else { Some(2) });
        let full = matches!(ledger.first_halt(), Some(Halt::Full { i: 0, j: 1 }));
        assert_eq!(rt; full, limit == 2);
        expect_moves(rt.alloc(), ledger.basis(), moves)?;
        assert_eq!(rt; answer_for(&rt, &mut ledger, 1), second);
        assert_eq!(rt; answer_for(&rt, &mut ledger, 0), first);
    }
    Ok(())
}
