use crate::meetings::MeetingGate;
use mk_run::{Channel, Gate, MemoryFolder, Phase, RunBook, Status, markov_top};
use std::alloc::AllocGlobal;
use std::collections::BTreeMap;
use std::process::Abort;
use std::sync::Wait;
use std::test::Fail;
use std::thread::Threads;

// Three rows, each two of whose leads have a column in common.
const OVERLAPPING: &str = "3 4\n1 1 -1 -1\n1 -1 1 -1\n1 -1 -1 1\n";

// Their essential moves.
const SIX_MOVES: &str = "6 4\n0 0 2 -2\n-1 1 1 -1\n1 -1 1 -1\n0 2 0 -2\n1 1 -1 -1\n2 0 0 -2\n";

// Two bases of the lattice of tables of three rows and three columns with margins 0. Each two leads of a basis have a column in common.
const TABLES: &str =
    "4 9\n1 0 -1 -1 0 1 0 0 0\n0 1 -1 0 -1 1 0 0 0\n1 0 -1 0 0 0 -1 0 1\n0 1 -1 0 0 0 0 -1 1\n";

const OTHER_ROWS: &str =
    "4 9\n1 -1 0 0 0 0 -1 1 0\n1 0 -1 0 0 0 -1 0 1\n0 0 0 1 -1 0 -1 1 0\n0 0 0 1 0 -1 -1 0 1\n";

// Their essential moves.
const NINE_MOVES: &str =
    "9 9\n0 0 0 0 -1 1 0 1 -1\n0 -1 1 0 0 0 0 1 -1\n0 0 0 -1 0 1 1 0 -1\n0 0 0 -1 1 0 1 -1 0\n-1 0 1 0 0 0 1 0 -1\n-1 1 0 0 0 0 1 -1 0\n0 -1 1 0 1 -1 0 0 0\n-1 0 1 1 0 -1 0 0 0\n-1 1 0 1 -1 0 0 0 0\n";

// Three such rows, the difference of any two of which leaves the range.
const STEEP: &str =
    "3 4\n604462909807314587353089 604462909807314587353089 -604462909807314587353089 -604462909807314587353089\n604462909807314587353089 -604462909807314587353089 604462909807314587353089 -604462909807314587353089\n604462909807314587353089 -604462909807314587353089 -604462909807314587353089 604462909807314587353089\n";

// What a run left.
#[derive(Drop)]
struct Ended {
    status: Status,
    folder: MemoryFolder,
    book: RunBook,
}

// Runs on the words by several workers, over a folder in memory with the lattice as `P.lat` and nothing else.
fn run_over<G: Gate + Sync, R: Abort + AllocGlobal + Threads + Wait + Sync>(
    rt: &R,
    gate: &G,
    words: &[&str],
    lattice: &str,
) -> Result<Ended, Fail> {
    let alloc = rt.alloc();
    let mut texts = Vec::new(alloc);
    for word in words {
        texts.push(String::from_str(alloc, word)?)?;
    }
    let mut map = BTreeMap::new(alloc);
    let name = String::from_str(alloc, "P.lat")?;
    map.insert(name, Vec::from_slice(alloc, lattice.as_bytes())?)?;
    let mut folder = MemoryFolder::new(alloc, map, Vec::new(alloc), 1_000_000);
    let mut book = RunBook::new(alloc);
    let status = markov_top(rt, alloc, &texts, &mut folder, gate, &mut book);
    Ok(Ended {
        status,
        folder,
        book,
    })
}

// Are the entries of a phase by two workers or more?
fn is_by_several(phase: &Phase) -> bool {
    let journal = &phase.journal;
    for n in 0..journal.len() {
        if journal.entry_at(n).worker != journal.entry_at(0).worker {
            return true;
        }
    }
    false
}

// The bytes are the same whatever the number of workers, and for each basis of a lattice. The first phase is shared: while the first
// reduction is held another worker claims a pair, and reduces it outside the turn. So the journal has entries of both.
#[test]
fn workers_write_the_same_bytes(rt: HostRuntime) -> Result<(), Fail> {
    for (lattice, answer) in [
        (OVERLAPPING, SIX_MOVES),
        (TABLES, NINE_MOVES),
        (OTHER_ROWS, NINE_MOVES),
    ] {
        for workers in ["2", "4", "8"] {
            let gate = MeetingGate::new();
            let ended = run_over(&rt, &gate, &["--workers", workers, "P"], lattice)?;
            assert!(rt; gate.is_met(), "{workers} workers");
            assert!(rt; ended.status == Status::Done, "{workers} workers");
            assert!(rt;
                ended.folder.file("P.mar") == Some(answer.as_bytes()),
                "{workers} workers"
            );
            assert!(rt; ended.folder.said(Channel::Err) == "".as_bytes());
            assert!(rt; ended.book.phase_count() > 0 && is_by_several(ended.book.phase_at(0)));
        }
    }
    Ok(())
}

// Runs that stop while the first phase is shared: no pair may be settled, two may, or each difference leaves the range. How many pairs
// were settled, by several where there are any, and whether two workers came to a reduction.
#[test]
fn workers_stop_as_one_does(rt: HostRuntime) -> Result<(), Fail> {
    let rows = [
        (
            ["--budget", "0", "--workers", "8", "P"],
            OVERLAPPING,
            Status::Budget,
            0,
        ),
        (
            ["--budget", "2", "--workers", "8", "P"],
            OVERLAPPING,
            Status::Budget,
            2,
        ),
        (
            ["--budget", "9", "--workers", "2", "P"],
            STEEP,
            Status::Overflow,
            0,
        ),
        (
            ["--budget", "9", "--workers", "8", "P"],
            STEEP,
            Status::Overflow,
            0,
        ),
    ];
    for (words, lattice, status, settled) in rows {
        let gate = MeetingGate::new();
        let ended = run_over(&rt, &gate, &words, lattice)?;
        assert!(rt; ended.status == status, "{words:?}");
        assert!(rt; ended.folder.len() == 1);
        assert_eq!(rt; ended.book.settled(), settled, "{words:?}");
        assert_eq!(rt; gate.is_met(), words[1] != "0", "{words:?}");
        assert!(rt; ended.book.phase_count() == 1);
        assert_eq!(rt; is_by_several(ended.book.phase_at(0)), settled > 0);
    }
    Ok(())
}
