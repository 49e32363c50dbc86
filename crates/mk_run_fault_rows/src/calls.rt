use crate::runs::{CUBIC, CUBIC_MOVES, MANY, OLDER, OTHER, assert_files, folder_of, run};
use mk_run::{Channel, Folder, MemoryFolder, Status};
use std::alloc::AllocGlobal;
use std::process::Abort;
use std::sync::Wait;
use std::test::Fail;
use std::thread::Threads;

// A lattice, a file beside it, and the answer.
type Row<'a> = (&'a str, (&'a str, &'a str), &'a str);

const FAILED: &str = "markov: a file or stream failed\n";

const SEGMENT: &str = "1 2\n2 -2\n";

// Two rows whose entries are all even.
const DOUBLED: &str = "2 3\n2 -2 0\n0 2 -2\n";

const DOUBLED_MOVES: &str = "2 3\n0 2 -2\n2 0 -2\n";

// Three rows each two of whose leads have a column in common, so that the first phase is shared.
const OVERLAPPING: &str = "3 4\n1 1 -1 -1\n1 -1 1 -1\n1 -1 -1 1\n";

const OVERLAPPING_MOVES: &str =
    "6 4\n0 0 2 -2\n-1 1 1 -1\n1 -1 1 -1\n0 2 0 -2\n1 1 -1 -1\n2 0 0 -2\n";

// The tables of three rows and three columns with the same margins: by rows whose leads are disjoint, and by rows each two of whose
// leads have a column in common.
const INDEPENDENCE: &str =
    "4 9\n1 -1 0 -1 1 0 0 0 0\n0 1 -1 0 -1 1 0 0 0\n0 0 0 1 -1 0 -1 1 0\n0 0 0 0 1 -1 0 -1 1\n";

const OVERLAPPING_INDEPENDENCE: &str =
    "4 9\n1 0 -1 -1 0 1 0 0 0\n0 1 -1 0 -1 1 0 0 0\n1 0 -1 0 0 0 -1 0 1\n0 1 -1 0 0 0 0 -1 1\n";

const MARGINS: (&str, &str) = (
    "P.mat",
    "6 9\n1 1 1 0 0 0 0 0 0\n0 0 0 1 1 1 0 0 0\n0 0 0 0 0 0 1 1 1\n1 0 0 1 0 0 1 0 0\n0 1 0 0 1 0 0 1 0\n0 0 1 0 0 1 0 0 1\n",
);

const NINE_MOVES: &str =
    "9 9\n0 0 0 0 -1 1 0 1 -1\n0 -1 1 0 0 0 0 1 -1\n0 0 0 -1 0 1 1 0 -1\n0 0 0 -1 1 0 1 -1 0\n-1 0 1 0 0 0 1 0 -1\n-1 1 0 0 0 0 1 -1 0\n0 -1 1 0 1 -1 0 0 0\n-1 0 1 1 0 -1 0 0 0\n-1 1 0 1 -1 0 0 0 0\n";

// What is said of the made table of two rows and two columns.
const SUMMARY: &str = "model 2x2\nrows 1 columns 4\nmoves 1\nweight 2 moves 1\n";

// The project `P`, by one worker.
#[test]
fn each_call_fails_in_turn(rt: HostRuntime) -> Result<(), Fail> {
    assert_rows(&rt, &["--workers", "1", "P"])
}

// By several, who share no phase.
#[test]
fn each_call_fails_in_turn_for_several(rt: HostRuntime) -> Result<(), Fail> {
    assert_rows(&rt, &["--workers", "8", "P"])
}

// By several, who share the first phase.
#[test]
fn each_call_of_a_shared_run_fails_in_turn(rt: HostRuntime) -> Result<(), Fail> {
    let small = (OVERLAPPING, OTHER, OVERLAPPING_MOVES);
    let tables = (OVERLAPPING_INDEPENDENCE, MARGINS, NINE_MOVES);
    for (row, chunk, reads, calls) in [
        (small, 1, 38, 101),
        (small, MANY, 5, 14),
        (tables, MANY, 7, 19),
    ] {
        assert_calls(&rt, &["--workers", "8", "P"], row, chunk, reads, calls)?;
    }
    Ok(())
}

// Runs on the words over each of these rows. Behind a row stand the chunk, how many calls read, and how many calls there are: each
// file is begun and read to its end, which takes one call more, or looked for; the answer is begun, written line by line, and
// ended.
fn assert_rows<R: Abort + AllocGlobal + Threads + Wait + Sync>(
    rt: &R,
    words: &[&str],
) -> Result<(), Fail> {
    let cubic = (CUBIC, OTHER, CUBIC_MOVES);
    let segment = (SEGMENT, OTHER, SEGMENT);
    let doubled = (DOUBLED, OTHER, DOUBLED_MOVES);
    let tables = (INDEPENDENCE, MARGINS, NINE_MOVES);
    for (row, chunk, reads, calls) in [
        (cubic, 1, 26, 62),
        (cubic, MANY, 5, 11),
        (segment, 1, 13, 24),
        (segment, MANY, 5, 9),
        (doubled, 1, 22, 42),
        (doubled, MANY, 5, 10),
        (tables, 1, 201, 387),
        (tables, MANY, 7, 19),
    ] {
        assert_calls(rt, words, row, chunk, reads, calls)?;
    }
    Ok(())
}

// Each call of a run fails in turn, and then none.
fn assert_calls<R: Abort + AllocGlobal + Threads + Wait + Sync>(
    rt: &R,
    words: &[&str],
    row: Row,
    chunk: usize,
    reads: u64,
    calls: u64,
) -> Result<(), Fail> {
    for failing in 1..=calls {
        assert_failure(rt, words, row, chunk, reads, failing)?;
    }
    let (lattice, beside, answer) = row;
    let lattice = lattice.as_bytes();
    let mut folder = folder_of(rt.alloc(), lattice, beside, chunk, 0)?;
    assert_eq!(rt; run(rt, words, &mut folder)?, Status::Done);
    assert_files(rt, &folder, lattice, beside, answer);
    assert_eq!(rt; folder.calls(), calls);
    Ok(())
}

// A run whose call of this number fails, and that says so. The files are as before. The call behind those that read begins the
// answer, and what the later ones made is a front of it. Where the call that failed is one that reads the next run answers.
fn assert_failure<R: Abort + AllocGlobal + Threads + Wait + Sync>(
    rt: &R,
    words: &[&str],
    row: Row,
    chunk: usize,
    reads: u64,
    failing: u64,
) -> Result<(), Fail> {
    let (lattice, beside, answer) = row;
    let lattice = lattice.as_bytes();
    let mut folder = folder_of(rt.alloc(), lattice, beside, chunk, failing)?;
    assert_eq!(rt;
        run(rt, words, &mut folder)?,
        Status::Folder,
        "call {failing}"
    );
    assert_said(rt, &folder);
    assert_files(rt, &folder, lattice, beside, OLDER);
    assert!(rt; folder.said(Channel::Out).is_empty());
    assert!(rt; answer.as_bytes().starts_with(folder.made()));
    let has_begun = failing.saturating_sub(1) > reads;
    assert_eq!(rt; folder.made_name(), if has_begun { "P.mar" } else { "" });
    if failing <= reads {
        assert_eq!(rt;
            run(rt, words, &mut folder)?,
            Status::Done,
            "call {failing}"
        );
        assert_files(rt, &folder, lattice, beside, answer);
    }
    Ok(())
}

// One call failed, and the line that says so was said.
fn assert_said(rt: &impl Abort, folder: &MemoryFolder) {
    assert_eq!(rt; folder.faults(), 1);
    assert_eq!(rt; folder.said(Channel::Err), FAILED.as_bytes());
}

// Each call that says a summary fails in turn: what the calls before it said is a front of the summary.
#[test]
fn each_call_of_a_summary_fails_in_turn(rt: HostRuntime) -> Result<(), Fail> {
    for workers in ["1", "8"] {
        let words = ["--workers", workers, "--model", "2x2"];
        assert_summary(&rt, &words, 1, 52)?;
        assert_summary(&rt, &words, MANY, 1)?;
    }
    Ok(())
}

// Each call of a run on the words of a made table fails in turn, and then none.
fn assert_summary<R: Abort + AllocGlobal + Threads + Wait + Sync>(
    rt: &R,
    words: &[&str],
    chunk: usize,
    calls: u64,
) -> Result<(), Fail> {
    for failing in 1..=calls {
        assert_front(rt, words, chunk, failing)?;
    }
    let mut folder = folder_of(rt.alloc(), b"", OTHER, chunk, 0)?;
    assert_eq!(rt; run(rt, words, &mut folder)?, Status::Done);
    assert_files(rt, &folder, b"", OTHER, OLDER);
    assert_eq!(rt; folder.said(Channel::Out), SUMMARY.as_bytes());
    assert!(rt; folder.said(Channel::Err).is_empty());
    assert_eq!(rt; folder.calls(), calls);
    Ok(())
}

// A run on a made table whose call of this number fails. No file is made.
fn assert_front<R: Abort + AllocGlobal + Threads + Wait + Sync>(
    rt: &R,
    words: &[&str],
    chunk: usize,
    failing: u64,
) -> Result<(), Fail> {
    let mut folder = folder_of(rt.alloc(), b"", OTHER, chunk, failing)?;
    assert_eq!(rt;
        run(rt, words, &mut folder)?,
        Status::Folder,
        "call {failing}"
    );
    assert_said(rt, &folder);
    assert_files(rt, &folder, b"", OTHER, OLDER);
    let front = folder.said(Channel::Out);
    assert!(rt; SUMMARY.as_bytes().starts_with(front));
    assert_eq!(rt; front.len() as u64 + 1, failing);
    assert!(rt; !folder.is_making());
    assert_eq!(rt; folder.made_name(), "");
    Ok(())
}
