use crate::runs::{INDEPENDENCE, MANY, NINE_MOVES, OTHER, assert_run, assert_saying};
use mk_run::Status;
use std::test::Fail;

// Requests for the project `P` over a lattice and one more file: with an answer, or with a line where there is none. So many pairs
// are settled then.
#[test]
fn budgets_and_bounds_are_kept(rt: HostRuntime) -> Result<(), Fail> {
    let cubic = ("P.lat", "2 4\n1 -2 1 0\n0 1 -2 1\n");
    let curve = ("P.lat", "2 3\n1 -2 1\n3 -1 -1\n");
    let grade = ("P.grade", "1 3\n3 4 5\n");
    let tables = ("P.lat", INDEPENDENCE);
    let none = "markov: budget of 0 pairs used and a pair is left\n";
    let one = "markov: budget of 1 pairs used and a pair is left\n";
    let rows = [
        (
            ["--workers", "8", "P"].as_slice(),
            tables,
            OTHER,
            NINE_MOVES,
        ),
        (
            ["--upto", "9", "P"].as_slice(),
            curve,
            grade,
            "2 3\n-1 2 -1\n3 -1 -1\n",
        ),
        (
            ["--upto", "10", "P"].as_slice(),
            curve,
            grade,
            "3 3\n-1 2 -1\n3 -1 -1\n2 1 -2\n",
        ),
        (["--upto", "7", "P"].as_slice(), curve, grade, "0 3\n"),
        (
            ["--budget", "0", "P"].as_slice(),
            ("P.lat", "1 2\n1 -1\n"),
            OTHER,
            "1 2\n1 -1\n",
        ),
    ];
    for (words, lattice, beside, answer) in rows {
        let after = &[lattice, beside, ("P.mar", answer)];
        assert_run(
            &rt,
            words,
            &[lattice, beside],
            MANY,
            &[],
            (Status::Done, ""),
            after,
        )?;
    }
    for (budget, settled, line) in [("0", 0, none), ("1", 1, one)] {
        let words = &["--budget", budget, "P"];
        let wanted = (Status::Budget, line);
        let ended = assert_run(&rt, words, &[cubic], MANY, &[], wanted, &[cubic])?;
        assert_eq!(rt; ended.book.settled(), settled);
    }
    Ok(())
}

// Made tables with their summary, which is said in one call. How many moves of each weight there are is in the literature: of 3x3x3
// 27 of weight 4 and 54 of weight 6 (Diaconis and Sturmfels, 1998), of R by C tables a move for each choice of two rows and two
// columns.
#[test]
fn made_tables_have_their_summary(rt: HostRuntime) -> Result<(), Fail> {
    let rows = [
        (
            ["--model", "2x2"].as_slice(),
            "model 2x2\nrows 1 columns 4\nmoves 1\nweight 2 moves 1\n",
        ),
        (
            ["--model", "2x2", "--upto", "1"].as_slice(),
            "model 2x2\nrows 1 columns 4\nmoves 0\n",
        ),
        (
            ["--model=04x4", "--workers", "1"].as_slice(),
            "model 4x4\nrows 9 columns 16\nmoves 36\nweight 2 moves 36\n",
        ),
        (
            ["--model", "3x3x3"].as_slice(),
            "model 3x3x3\nrows 8 columns 27\nmoves 81\nweight 4 moves 27\nweight 6 moves 54\n",
        ),
        (
            ["--model", "3x3x3", "--upto", "4"].as_slice(),
            "model 3x3x3\nrows 8 columns 27\nmoves 27\nweight 4 moves 27\n",
        ),
    ];
    for (words, summary) in rows {
        let wanted = (Status::Done, "", summary);
        let ended = assert_saying(&rt, words, &[OTHER], MANY, &[], wanted, &[OTHER])?;
        assert_eq!(rt; ended.folder.calls(), 1);
    }
    let words = &["--model", "3x3", "--budget", "0"];
    let line = "markov: budget of 0 pairs used and a pair is left\n";
    assert_run(
        &rt,
        words,
        &[OTHER],
        MANY,
        &[],
        (Status::Budget, line),
        &[OTHER],
    )?;
    Ok(())
}
