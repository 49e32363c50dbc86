use crate::calls::{MANY, folder_of};
use mk_files::{Place, TableFault};
use mk_grading::GradeFault;
use mk_input::{InputFault, InputFile, Problem, ReadFault, read_project};
use std::alloc::AllocGlobal;
use std::process::Abort;
use std::test::Fail;

const LATTICE: (&str, &str) = ("P.lat", "2 3\n2 -1 0\n1 1 -1\n");

const MATRIX: (&str, &str) = ("P.mat", "1 3\n1 2 3\n");

const SHORT_GRADE: (&str, &str) = ("P.grade", "1 3\n1 2\n");

// What reading the project `P` answers over a folder of these files, whose call of that number fails.
fn read(
    rt: &impl AllocGlobal,
    files: &[(&str, &str)],
    failing: u64,
) -> Result<Result<Problem, ReadFault>, Fail> {
    let mut folder = folder_of(rt.alloc(), files, MANY, failing)?;
    Ok(read_project(rt.alloc(), &mut folder, "P"))
}

// It is a problem of two lattice rows, with these weights.
fn assert_weights(rt: &impl Abort, read: &Result<Problem, ReadFault>, weights: &[i64]) {
    let Ok(problem) = read else {
        panic!(rt; "no problem");
    };
    assert_eq!(rt; problem.lat.rows(), 2);
    assert_eq!(rt; problem.grading.columns() as usize, weights.len());
    for (column, weight) in weights.iter().enumerate() {
        assert_eq!(rt; problem.grading.weight_at(column as u32), *weight);
    }
}

// It is this fault.
fn assert_fault(rt: &impl Abort, read: &Result<Problem, ReadFault>, fault: ReadFault) {
    let Err(found) = read else {
        panic!(rt; "a problem");
    };
    assert_eq!(rt; *found, fault);
}

#[test]
fn a_matrix_or_a_grade_gives_the_weights(rt: HostRuntime) -> Result<(), Fail> {
    let lattice = ("P.lat", "2 3\n1 -2 1\n3 -1 -1\n");
    let grade = ("P.grade", "1 3\n3 4 5\n");
    for (files, weights) in [
        ([LATTICE, MATRIX], [1, 2, 3]),
        ([lattice, grade], [3, 4, 5]),
    ] {
        assert_weights(&rt, &read(&rt, &files, 0)?, &weights);
    }
    Ok(())
}

// A matrix alone is no lattice, the first file that is no table is named, and a lattice needs a grading.
#[test]
fn the_first_fault_is_told(rt: HostRuntime) -> Result<(), Fail> {
    let matrix = ("P.mat", "1 3\n2147483648 0 0\n");
    for (files, fault) in [
        ([MATRIX].as_slice(), InputFault::NoLattice),
        (
            [LATTICE, MATRIX, SHORT_GRADE].as_slice(),
            InputFault::Table {
                file: InputFile::Grade,
                fault: TableFault::Missing {
                    place: Place { line: 3, byte: 8 },
                    found: 2,
                    wanted: 3,
                },
            },
        ),
        (
            [LATTICE, matrix, SHORT_GRADE].as_slice(),
            InputFault::Table {
                file: InputFile::Mat,
                fault: TableFault::EntryRange(Place { line: 2, byte: 4 }),
            },
        ),
        (
            [("P.lat", "1 2\n1 1\n")].as_slice(),
            InputFault::Grade(GradeFault::NoGrading),
        ),
    ] {
        assert_fault(&rt, &read(&rt, files, 0)?, ReadFault::Input(fault));
    }
    Ok(())
}

// The calls of the folder are three of the lattice's file, three of the matrix's, and one that finds no grade.
#[test]
fn a_folder_that_fails_is_told(rt: HostRuntime) -> Result<(), Fail> {
    let files = [LATTICE, MATRIX];
    for failing in 1..8 {
        assert_fault(&rt, &read(&rt, &files, failing)?, ReadFault::Failed);
    }
    assert_weights(&rt, &read(&rt, &files, 8)?, &[1, 2, 3]);
    Ok(())
}
