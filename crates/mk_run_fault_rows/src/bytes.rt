use crate::runs::{CUBIC, CUBIC_MOVES, MANY, OLDER, OTHER, assert_files, folder_of, run};
use mk_run::{Channel, Status};
use std::alloc::AllocGlobal;
use std::process::Abort;
use std::sync::Wait;
use std::test::Fail;
use std::thread::Threads;

// A run over this lattice ends with this status, says this line of `P.lat` or nothing, and leaves this answer.
fn assert_bytes<R: Abort + AllocGlobal + Threads + Wait + Sync>(
    rt: &R,
    lattice: &[u8],
    status: Status,
    line: &str,
    answer: &str,
) -> Result<(), Fail> {
    let mut folder = folder_of(rt.alloc(), lattice, OTHER, MANY, 0)?;
    assert_eq!(rt; run(rt, &["P"], &mut folder)?, status, "{line}");
    assert_eq!(rt; folder.said(Channel::Err), line.as_bytes());
    assert!(rt; folder.said(Channel::Out).is_empty());
    assert_files(rt, &folder, lattice, OTHER, answer);
    Ok(())
}

// What is wrong with each front of the twisted cubic's lattice, from none of its 22 bytes on. Without its last byte it is whole.
#[test]
fn each_front_of_a_lattice_is_refused(rt: HostRuntime) -> Result<(), Fail> {
    let lines = [
        "markov: P.lat: line 1, byte 0: 0 of 2 header numbers\n",
        "markov: P.lat: line 1, byte 1: 1 of 2 header numbers\n",
        "markov: P.lat: line 1, byte 2: 1 of 2 header numbers\n",
        "markov: P.lat: line 1, byte 3: 0 of 8 entries\n",
        "markov: P.lat: line 2, byte 4: 0 of 8 entries\n",
        "markov: P.lat: line 2, byte 5: 1 of 8 entries\n",
        "markov: P.lat: line 2, byte 6: 1 of 8 entries\n",
        "markov: P.lat: line 2, byte 6: not a number\n",
        "markov: P.lat: line 2, byte 8: 2 of 8 entries\n",
        "markov: P.lat: line 2, byte 9: 2 of 8 entries\n",
        "markov: P.lat: line 2, byte 10: 3 of 8 entries\n",
        "markov: P.lat: line 2, byte 11: 3 of 8 entries\n",
        "markov: P.lat: line 2, byte 12: 4 of 8 entries\n",
        "markov: P.lat: line 3, byte 13: 4 of 8 entries\n",
        "markov: P.lat: line 3, byte 14: 5 of 8 entries\n",
        "markov: P.lat: line 3, byte 15: 5 of 8 entries\n",
        "markov: P.lat: line 3, byte 16: 6 of 8 entries\n",
        "markov: P.lat: line 3, byte 17: 6 of 8 entries\n",
        "markov: P.lat: line 3, byte 17: not a number\n",
        "markov: P.lat: line 3, byte 19: 7 of 8 entries\n",
        "markov: P.lat: line 3, byte 20: 7 of 8 entries\n",
    ];
    for (length, line) in lines.iter().enumerate() {
        let front = CUBIC.as_bytes().get(..length).ok_or("too short")?;
        assert_bytes(&rt, front, Status::Input, line, OLDER)?;
    }
    let front = CUBIC.as_bytes().get(..21).ok_or("too short")?;
    assert_bytes(&rt, front, Status::Done, "", CUBIC_MOVES)?;
    assert_bytes(&rt, CUBIC.as_bytes(), Status::Done, "", CUBIC_MOVES)
}

// Bytes that are meant to hurt, with the one line that refuses them.
#[test]
fn bytes_that_hurt_are_refused(rt: HostRuntime) -> Result<(), Fail> {
    let rows = [
        (
            "4097 x",
            "markov: P.lat: line 1, byte 0: more than 4096 rows\n",
        ),
        (
            "4096 512\n",
            "markov: P.lat: line 2, byte 9: 0 of 2097152 entries\n",
        ),
        (
            "1 2\n1 -1\n\0",
            "markov: P.lat: line 3, byte 9: text after the last entry\n",
        ),
        (
            "1 2\n1 --1",
            "markov: P.lat: line 2, byte 6: not a number\n",
        ),
    ];
    for (lattice, line) in rows {
        assert_bytes(&rt, lattice.as_bytes(), Status::Input, line, OLDER)?;
    }
    assert_bytes(&rt, b"+0 512", Status::Done, "", "0 512\n")
}

// An entry of so many digits: a million zeros and a 1 are 1, and a million nines are out of range.
#[test]
fn a_million_digits_are_read(rt: HostRuntime) -> Result<(), Fail> {
    for (digit, end, status, line, answer) in [
        (b'0', "1 -1\n", Status::Done, "", "1 2\n1 -1\n"),
        (
            b'9',
            " -1\n",
            Status::Input,
            "markov: P.lat: line 2, byte 4: number out of range\n",
            OLDER,
        ),
    ] {
        let mut lattice = Vec::from_slice(rt.alloc(), b"1 2\n")?;
        let digits = Vec::from_elem(rt.alloc(), digit, 1_000_000)?;
        lattice.extend_from_slice(&digits)?;
        lattice.extend_from_slice(end.as_bytes())?;
        assert_bytes(&rt, &lattice, status, line, answer)?;
    }
    Ok(())
}
