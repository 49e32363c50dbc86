ghost use Rattle.std.specs.Prelude.{All, IfOk, IfSome};
ghost use Rattle.mk_model.specs.ChosenGradings.{IsSmallEntry};

use mk_files::{Bounds, Table, read_table};
use mk_grading::{GradeFault, choose};
use mk_move::Grading;
use std::alloc::AllocGlobal;
use std::process::Abort;
use std::test::Fail;

const BOUNDS: Bounds = Bounds {
    rows: 4096,
    columns: 512,
    least: -2147483647,
    most: 2147483647,
};

const CUBIC: &str = "2 4\n1 -2 1 0\n0 1 -2 1\n";

const CURVE: &str = "2 3\n2 -1 0\n1 1 -1\n";

// The table in a text.
fn table(rt: &impl AllocGlobal, text: &str) -> Result<Table, Fail>
    ensures { IfOk result (λ table. All IsSmallEntry table.entries) }
{
    Ok(read_table(rt.alloc(), text.as_bytes(), &BOUNDS)?)
}

// The table in a text, where there is a text.
fn given(rt: &impl AllocGlobal, text: &str) -> Result<Option<Table>, Fail>
    ensures { IfOk result (λ given. IfSome given (λ table. All IsSmallEntry table.entries)) }
{
    if text.is_empty() {
        Ok(None)
    } else {
        Ok(Some(table(rt, text)?))
    }
}

// What is chosen for a lattice, beside which a matrix and a grade may be given.
fn chosen(
    rt: &impl AllocGlobal,
    lattice: &str,
    matrix: &str,
    grade: &str,
) -> Result<Result<Grading, GradeFault>, Fail> {
    let lattice = table(rt, lattice)?;
    let matrix = given(rt, matrix)?;
    let grade = given(rt, grade)?;
    Ok(choose(rt.alloc(), &lattice, matrix.as_ref(), grade.as_ref()))
}

// It is the grading of these weights.
fn assert_weights(rt: &impl Abort, chosen: &Result<Grading, GradeFault>, weights: &[i64]) {
    let Ok(grading) = chosen else {
        panic!(rt; "no grading");
    };
    assert_eq!(rt; grading.columns() as usize, weights.len());
    for (column, weight) in weights.iter().enumerate() {
        assert_eq!(rt;
            grading.weight_at(column as u32),
            *weight,
            "column {column}"
        );
    }
}

// A lattice alone has all ones, a matrix gives the sum of its rows without a negative entry, and a grade goes before all ones.
#[test]
fn a_grading_is_chosen(rt: HostRuntime) -> Result<(), Fail> {
    let rows = "3 3\n1 2 3\n-1 -2 -3\n2 4 6\n";
    for (lattice, matrix, grade, weights) in [
        (CUBIC, "", "", [1, 1, 1, 1].as_slice()),
        (CURVE, "1 3\n1 2 3\n", "", [1, 2, 3].as_slice()),
        (CURVE, rows, "", [3, 6, 9].as_slice()),
        ("1 2\n0 0\n", "", "1 2\n3 4\n", [3, 4].as_slice()),
    ] {
        assert_weights(&rt, &chosen(&rt, lattice, matrix, grade)?, weights);
    }
    Ok(())
}

// No source gives a grading, or a matrix or a grade does not fit the lattice.
#[test]
fn what_is_given_is_refused(rt: HostRuntime) -> Result<(), Fail> {
    for (lattice, matrix, grade, fault) in [
        ("1 2\n1 1\n", "", "", GradeFault::NoGrading),
        ("1 3\n1 -2 0\n", "1 3\n2 1 0\n", "", GradeFault::NoGrading),
        (
            CUBIC,
            "1 4\n1 2 3 5\n",
            "",
            GradeFault::MatMismatch {
                mat_row: 0,
                lat_row: 1,
                value: 1,
            },
        ),
        (
            CUBIC,
            "1 3\n1 2 3\n",
            "",
            GradeFault::MatColumns {
                found: 3,
                wanted: 4,
            },
        ),
        (
            "1 2\n1 1\n",
            "",
            "1 2\n1 1\n",
            GradeFault::GradeMismatch {
                lat_row: 0,
                value: 2,
            },
        ),
        (
            "1 2\n1 -1\n",
            "",
            "1 2\n0 1\n",
            GradeFault::GradeNotPositive {
                column: 0,
                value: 0,
            },
        ),
        (
            "1 2\n1 -1\n",
            "",
            "1 3\n1 1 1\n",
            GradeFault::GradeShape {
                rows: 1,
                columns: 3,
                wanted: 2,
            },
        ),
    ] {
        let Err(found) = chosen(&rt, lattice, matrix, grade)? else {
            panic!(rt; "a grading");
        };
        assert_eq!(rt; found, fault, "{lattice} {matrix} {grade}");
    }
    Ok(())
}
