use crate::runs::{Ended, INDEPENDENCE, MANY, MARGINS, NINE_MOVES, OLDER, OTHER, assert_run};
use mk_run::{BookStop, OverflowPlace, Status};
use std::alloc::AllocGlobal;
use std::process::Abort;
use std::test::Fail;

const CUBIC: &str = "2 4\n1 -2 1 0\n0 1 -2 1\n";

const CUBIC_MOVES: &str = "3 4\n0 -1 2 -1\n-1 1 1 -1\n-1 2 -1 0\n";

// A run for `P` over a lattice and one more file ends with this status: with this text as the answer, or as the line that is
// said, without an older answer and over one.
fn assert_project<'a>(
    rt: &(impl Abort + AllocGlobal),
    lattice: &'a str,
    beside: (&'a str, &'a str),
    status: Status,
    text: &'a str,
) -> Result<Ended, Fail> {
    let given = ("P.lat", lattice);
    let alone = &[given, beside];
    let over = &[given, beside, OLDER];
    if status == Status::Done {
        let after = &[given, beside, ("P.mar", text)];
        assert_run(rt, &["P"], alone, MANY, &[], (status, ""), after)?;
        assert_run(rt, &["P"], over, MANY, &[], (status, ""), after)
    } else {
        assert_run(rt, &["P"], alone, MANY, &[], (status, text), alone)?;
        assert_run(rt, &["P"], over, MANY, &[], (status, text), over)
    }
}

// Answers worked by hand or found from lists of whole fibres: a move whose lead and tail aren't joined by the moves before it.
#[test]
fn lattices_have_their_answer(rt: HostRuntime) -> Result<(), Fail> {
    let rows = [
        // No rows, no columns, one row.
        ("0 4\n", OTHER, "0 4\n"),
        ("0 0\n", OTHER, "0 0\n"),
        ("1 3\n0 0 0\n", OTHER, "0 3\n"),
        ("1 2\n2 -2\n", OTHER, "1 2\n2 -2\n"),
        ("1 3\n1 2 -3\n", OTHER, "1 3\n1 2 -3\n"),
        (
            "1 8\n-1 1 1 -1 1 -1 -1 1\n",
            OTHER,
            "1 8\n1 -1 -1 1 -1 1 1 -1\n",
        ),
        (
            "1 2\n1208925819614629174706175 -1208925819614629174706175\n",
            OTHER,
            "1 2\n1208925819614629174706175 -1208925819614629174706175\n",
        ),
        (
            "2 3\n9223372036854775808 -9223372036854775808 0\n0 9223372036854775808 -9223372036854775808\n",
            OTHER,
            "2 3\n0 9223372036854775808 -9223372036854775808\n9223372036854775808 0 -9223372036854775808\n",
        ),
        // Rows that are bases of their lattices or not, and moves beyond the rows. White space is free.
        (CUBIC, OTHER, CUBIC_MOVES),
        ("2 4\n  1 -2  1  0\n  0  1 -2  1\n\n\n", OTHER, CUBIC_MOVES),
        ("2 3\n1 -1 0\n0 1 -1\n", OTHER, "2 3\n0 1 -1\n1 0 -1\n"),
        ("2 3\n2 -2 0\n0 2 -2\n", OTHER, "2 3\n0 2 -2\n2 0 -2\n"),
        ("3 2\n1 -1\n2 -2\n1 -1\n", OTHER, "1 2\n1 -1\n"),
        (
            "2 4\n2 -3 1 0\n0 2 -3 1\n",
            OTHER,
            "3 4\n0 -2 3 -1\n-2 1 2 -1\n-2 3 -1 0\n",
        ),
        // The reduced basis has a move more.
        ("2 3\n3 -1 -2\n1 1 -2\n", OTHER, "2 3\n1 1 -2\n2 -2 0\n"),
        (
            "2 4\n2 1 -3 0\n0 1 1 -2\n",
            OTHER,
            "2 4\n0 1 1 -2\n2 1 -3 0\n",
        ),
        // Leads that overlap, each two of the rows'.
        (
            "3 4\n1 1 -1 -1\n1 -1 1 -1\n1 -1 -1 1\n",
            OTHER,
            "6 4\n0 0 2 -2\n-1 1 1 -1\n1 -1 1 -1\n0 2 0 -2\n1 1 -1 -1\n2 0 0 -2\n",
        ),
        // A lattice has one answer for each of its bases: rows exchanged, negated, and replaced by sums.
        ("2 4\n0 1 -2 1\n1 -2 1 0\n", OTHER, CUBIC_MOVES),
        ("2 4\n-1 2 -1 0\n0 -1 2 -1\n", OTHER, CUBIC_MOVES),
        ("2 4\n1 -1 -1 1\n0 1 -2 1\n", OTHER, CUBIC_MOVES),
        (INDEPENDENCE, OTHER, NINE_MOVES),
        (
            "4 9\n1 0 -1 -1 0 1 0 0 0\n0 1 -1 0 -1 1 0 0 0\n0 0 0 1 -1 0 -1 1 0\n0 0 0 0 1 -1 0 -1 1\n",
            OTHER,
            NINE_MOVES,
        ),
        (
            "4 9\n0 0 0 0 1 -1 0 -1 1\n0 -1 1 0 1 -1 0 0 0\n0 0 0 -1 1 0 1 -1 0\n1 -1 0 -1 1 0 0 0 0\n",
            OTHER,
            NINE_MOVES,
        ),
        // A grade goes before all ones, and these go before a matrix: the order of moves tells which it was.
        (
            "2 4\n1 -1 0 0\n0 0 1 -1\n",
            OTHER,
            "2 4\n0 0 1 -1\n1 -1 0 0\n",
        ),
        (
            "2 4\n1 -1 0 0\n0 0 1 -1\n",
            ("P.mat", "1 4\n1 1 2 2\n"),
            "2 4\n0 0 1 -1\n1 -1 0 0\n",
        ),
        (
            "2 4\n1 -1 0 0\n0 0 1 -1\n",
            ("P.grade", "1 4\n1 1 2 2\n"),
            "2 4\n1 -1 0 0\n0 0 1 -1\n",
        ),
        // The grading comes from the margins, from a grade, or from a matrix.
        (INDEPENDENCE, ("P.mat", MARGINS), NINE_MOVES),
        (
            "2 3\n1 -2 1\n3 -1 -1\n",
            ("P.grade", "1 3\n3 4 5\n"),
            "3 3\n-1 2 -1\n3 -1 -1\n2 1 -2\n",
        ),
        (
            "2 3\n2 -1 0\n1 1 -1\n",
            ("P.mat", "1 3\n1 2 3\n"),
            "2 3\n2 -1 0\n1 1 -1\n",
        ),
    ];
    for (lattice, beside, answer) in rows {
        assert_project(&rt, lattice, beside, Status::Done, answer)?;
    }
    Ok(())
}

// A grade goes before a matrix, which gives the moves in another order.
#[test]
fn a_grade_goes_before_a_matrix(rt: HostRuntime) -> Result<(), Fail> {
    let lattice = ("P.lat", "2 4\n1 -1 0 0\n0 0 2 -1\n");
    let matrix = ("P.mat", "1 4\n1 1 2 4\n");
    let rows = [
        (OTHER, "2 4\n1 -1 0 0\n0 0 2 -1\n"),
        (("P.grade", "1 4\n5 5 1 2\n"), "2 4\n0 0 2 -1\n1 -1 0 0\n"),
    ];
    for (beside, answer) in rows {
        let given = &[lattice, matrix, beside];
        let after = &[lattice, matrix, beside, ("P.mar", answer)];
        assert_run(&rt, &["P"], given, MANY, &[], (Status::Done, ""), after)?;
    }
    Ok(())
}

// What is wrong with a lattice, with a file beside it, or with the two together.
#[test]
fn lattices_are_refused_with_their_line(rt: HostRuntime) -> Result<(), Fail> {
    let rows = [
        // No table.
        (
            "",
            OTHER,
            "markov: P.lat: line 1, byte 0: 0 of 2 header numbers\n",
        ),
        (
            "2\n",
            OTHER,
            "markov: P.lat: line 2, byte 2: 1 of 2 header numbers\n",
        ),
        (
            "-1 2\n",
            OTHER,
            "markov: P.lat: line 1, byte 0: not a number\n",
        ),
        (
            "1 2\n1 +-1\n",
            OTHER,
            "markov: P.lat: line 2, byte 6: not a number\n",
        ),
        (
            "4097 1\n",
            OTHER,
            "markov: P.lat: line 1, byte 0: more than 4096 rows\n",
        ),
        (
            "1 513\n0\n",
            OTHER,
            "markov: P.lat: line 1, byte 2: more than 512 columns\n",
        ),
        (
            "1 2\n1208925819614629174706176 -1\n",
            OTHER,
            "markov: P.lat: line 2, byte 4: number out of range\n",
        ),
        (
            "1 2\n1 -1208925819614629174706176\n",
            OTHER,
            "markov: P.lat: line 2, byte 6: number out of range\n",
        ),
        (
            "2 4\n1 -2 1 0\n0 1 -2\n",
            OTHER,
            "markov: P.lat: line 4, byte 20: 7 of 8 entries\n",
        ),
        (
            "2 4\n1 -2 1 0\n0 1 -2 1\nx\n",
            OTHER,
            "markov: P.lat: line 4, byte 22: text after the last entry\n",
        ),
        (
            CUBIC,
            ("P.mat", "1 4\n1 1 1 2147483648\n"),
            "markov: P.mat: line 2, byte 10: number out of range\n",
        ),
        (
            CUBIC,
            ("P.grade", "1 4\n1 1 1\n"),
            "markov: P.grade: line 3, byte 10: 3 of 4 entries\n",
        ),
        // No grading.
        (
            "1 2\n1 1\n",
            OTHER,
            "markov: P: no positive grading found\n",
        ),
        (
            "1 2\n1 1\n",
            ("P.grade", "1 2\n1 1\n"),
            "markov: P.grade: product with P.lat row 1 is 2\n",
        ),
        (
            "1 2\n1 -1\n",
            ("P.grade", "1 2\n0 1\n"),
            "markov: P.grade: column 1 is 0\n",
        ),
        (
            "1 2\n1 -1\n",
            ("P.grade", "1 3\n1 1 1\n"),
            "markov: P.grade: 1 rows and 3 columns, 1 and 2 wanted\n",
        ),
        (
            CUBIC,
            ("P.mat", "1 4\n1 2 3 5\n"),
            "markov: P.mat: row 1 times P.lat row 2 is 1\n",
        ),
        (
            CUBIC,
            ("P.mat", "1 3\n1 2 3\n"),
            "markov: P.mat: 3 columns, P.lat has 4\n",
        ),
    ];
    for (lattice, beside, line) in rows {
        assert_project(&rt, lattice, beside, Status::Input, line)?;
    }
    Ok(())
}

// Where an entry leaves its range, by the book and the line: in the difference of a pair, in a step of its reduction, in one whose
// product is far out of range, in one on the tail of a move, and at a weight.
#[test]
fn entries_leave_their_range(rt: HostRuntime) -> Result<(), Fail> {
    let rows = [
        (
            "2 4\n1 604462909807314587353089 0 -604462909807314587353090\n1 -604462909807314587353089 604462909807314587353089 -1\n",
            OTHER,
            OverflowPlace::Pair { phase: 1 },
            None,
            "markov: overflow in column 2: -604462909807314587353089 - (1) * (604462909807314587353089)\n",
        ),
        (
            "2 3\n0 -604462909807314587353087 604462909807314587353087\n604462909807314587353087 -1208925819614629174706174 -604462909807314587353087\n",
            ("P.grade", "1 3\n3 1 1\n"),
            OverflowPlace::Pair { phase: 0 },
            Some(0),
            "markov: overflow in column 3: 1208925819614629174706174 - (1) * (-604462909807314587353087)\n",
        ),
        (
            "2 4\n0 -1 0 2\n0 1208925819614629174706175 -1208925819614629174706175 0\n",
            ("P.grade", "1 4\n2 2 2 1\n"),
            OverflowPlace::Pair { phase: 0 },
            Some(0),
            "markov: overflow in column 4: 2 - (1208925819614629174706174) * (-2)\n",
        ),
        (
            "2 4\n-604462909807314587353086 302231454903657293676543 0 1208925819614629174706172\n0 302231454903657293676543 -302231454903657293676543 -302231454903657293676543\n",
            ("P.grade", "1 4\n8 8 6 2\n"),
            OverflowPlace::Tail { index: 0 },
            Some(1),
            "markov: overflow in column 4: -1208925819614629174706172 - (-1) * (-302231454903657293676543)\n",
        ),
        (
            "3 4\n-226673591177742970257405 0 226673591177742970257405 -226673591177742970257405\n302231454903657293676540 151115727451828646838270 151115727451828646838270 -226673591177742970257405\n-151115727451828646838270 302231454903657293676540 -151115727451828646838270 151115727451828646838270\n",
            ("P.grade", "1 4\n1 1 9 8\n"),
            OverflowPlace::Degree,
            None,
            "markov: overflow in column 2: -906694364710971881029620 - (1) * (453347182355485940514810)\n",
        ),
    ];
    for (lattice, beside, place, by, line) in rows {
        let ended = assert_project(&rt, lattice, beside, Status::Overflow, line)?;
        match ended.book.stop() {
            Some(BookStop::Overflow { place: kept, stop }) => {
                assert_eq!(rt; (*kept, stop.by), (place, by));
            }
            other => panic!(rt; "{other:?}"),
        }
    }
    Ok(())
}
