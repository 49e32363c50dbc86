use crate::runs::{INDEPENDENCE, MANY, MARGINS, OLDER, OTHER, assert_run};
use mk_run::Status;
use std::alloc::AllocGlobal;
use std::process::Abort;
use std::test::Fail;

const FAILED: &str = "markov: a file or stream failed\n";

const SEGMENT: (&str, &str) = ("P.lat", "1 2\n2 -2\n");

const CUBIC: (&str, &str) = ("P.lat", "2 4\n1 -2 1 0\n0 1 -2 1\n");

const TABLES: (&str, &str) = ("P.lat", INDEPENDENCE);

const SUMS: (&str, &str) = ("P.mat", MARGINS);

const WIDE: (&str, &str) = ("P.lat", "1 513\n0\n");

const UNGRADED: (&str, &str) = ("P.lat", "1 2\n1 1\n");

const SHORT: (&str, &str) = ("P.mat", "1 4\n1 2 3\n");

const UNFIT: (&str, &str) = ("P.mat", "1 4\n1 2 3 5\n");

const WORDED: (&str, &str) = ("P.grade", "1 x\n1 1\n");

// A run for `P` over these files, with this made and so many calls.
fn assert_calls<'a>(
    rt: &(impl Abort + AllocGlobal),
    files: [(&'a str, &'a str); 3],
    chunk: usize,
    failing: [u64; 2],
    wanted: (Status, &str),
    made: &str,
    calls: u64,
) -> Result<(), Fail> {
    let ended = assert_run(rt, &["P"], &files, chunk, &failing, wanted, &files)?;
    assert_eq!(rt; ended.folder.made(), made.as_bytes(), "{files:?}");
    assert_eq!(rt; ended.folder.calls(), calls, "{files:?}");
    Ok(())
}

// Runs over a matrix or a grade that may be wrong, or where calls with these numbers fail: what is said, what the file being made
// has, and how many calls there were. Each file is read as a table before the next is looked for, and all of them before a
// grading is chosen: to read a file takes three calls, to look for one that isn't there one, to write a line or say it one. A
// call that fails ends the run, and another says so; one that fails while a line is said cuts the line, and the status stays.
#[test]
fn calls_have_their_order(rt: HostRuntime) -> Result<(), Fail> {
    let no_lattice = "markov: P.lat: not there\n";
    let no_table = "markov: P.lat: line 1, byte 2: more than 512 columns\n";
    let no_matrix = "markov: P.mat: line 3, byte 10: 3 of 4 entries\n";
    let no_grade = "markov: P.grade: line 1, byte 2: not a number\n";
    let no_grading = "markov: P: no positive grading found\n";
    let no_end = "markov: P: no positive grading found";
    let rows = [
        (
            [OTHER, SHORT, WORDED],
            MANY,
            [0, 0],
            Status::Input,
            no_lattice,
            "",
            2,
        ),
        (
            [WIDE, SHORT, WORDED],
            MANY,
            [0, 0],
            Status::Input,
            no_table,
            "",
            4,
        ),
        (
            [CUBIC, SHORT, WORDED],
            MANY,
            [0, 0],
            Status::Input,
            no_matrix,
            "",
            7,
        ),
        (
            [CUBIC, UNFIT, WORDED],
            MANY,
            [0, 0],
            Status::Input,
            no_grade,
            "",
            10,
        ),
        (
            [CUBIC, OTHER, WORDED],
            MANY,
            [0, 0],
            Status::Input,
            no_grade,
            "",
            8,
        ),
        (
            [CUBIC, OTHER, OLDER],
            MANY,
            [1, 1],
            Status::Folder,
            FAILED,
            "",
            2,
        ),
        (
            [CUBIC, OTHER, OLDER],
            MANY,
            [3, 3],
            Status::Folder,
            FAILED,
            "",
            4,
        ),
        (
            [TABLES, SUMS, OLDER],
            MANY,
            [10, 10],
            Status::Folder,
            FAILED,
            "9 9\n",
            11,
        ),
        (
            [UNGRADED, OTHER, OLDER],
            MANY,
            [6, 6],
            Status::Input,
            "",
            "",
            6,
        ),
        (
            [UNGRADED, OTHER, OLDER],
            MANY,
            [7, 7],
            Status::Input,
            no_grading,
            "",
            6,
        ),
        (
            [UNGRADED, OTHER, OLDER],
            1,
            [13, 13],
            Status::Input,
            "",
            "",
            13,
        ),
        (
            [UNGRADED, OTHER, OLDER],
            1,
            [14, 14],
            Status::Input,
            "m",
            "",
            14,
        ),
        (
            [UNGRADED, OTHER, OLDER],
            1,
            [49, 49],
            Status::Input,
            no_end,
            "",
            49,
        ),
        (
            [UNGRADED, OTHER, OLDER],
            1,
            [50, 50],
            Status::Input,
            no_grading,
            "",
            49,
        ),
        (
            [SEGMENT, OTHER, OLDER],
            MANY,
            [1, 2],
            Status::Folder,
            "",
            "",
            2,
        ),
        (
            [SEGMENT, OTHER, OLDER],
            1,
            [1, 3],
            Status::Folder,
            "m",
            "",
            3,
        ),
    ];
    for (files, chunk, failing, status, said, made, calls) in rows {
        assert_calls(&rt, files, chunk, failing, (status, said), made, calls)?;
    }
    Ok(())
}
