use mk_files::{Place, TableFault};
use mk_grading::GradeFault;
use mk_project::{InputFault, InputFile, input_line};
use std::test::Fail;

#[test]
fn says_what_is_wrong_with_the_input(rt: HostRuntime) -> Result<(), Fail> {
    for (fault, line) in [
        (InputFault::NoLattice, "markov: P.lat: not there\n"),
        (
            InputFault::FileSize {
                file: InputFile::Grade,
                read: 67_108_865,
            },
            "markov: P.grade: more than 67108864 bytes\n",
        ),
        (
            InputFault::Table {
                file: InputFile::Lat,
                fault: TableFault::Missing {
                    place: Place { line: 4, byte: 20 },
                    found: 7,
                    wanted: 8,
                },
            },
            "markov: P.lat: line 4, byte 20: 7 of 8 entries\n",
        ),
        (
            InputFault::Table {
                file: InputFile::Lat,
                fault: TableFault::Trailing(Place { line: 4, byte: 22 }),
            },
            "markov: P.lat: line 4, byte 22: text after the last entry\n",
        ),
        (
            InputFault::Table {
                file: InputFile::Lat,
                fault: TableFault::EntryRange(Place { line: 2, byte: 4 }),
            },
            "markov: P.lat: line 2, byte 4: number out of range\n",
        ),
        (
            InputFault::Grade(GradeFault::MatMismatch {
                mat_row: 0,
                lat_row: 1,
                value: 1,
            }),
            "markov: P.mat: row 1 times P.lat row 2 is 1\n",
        ),
        (
            InputFault::Grade(GradeFault::MatColumns {
                found: 3,
                wanted: 4,
            }),
            "markov: P.mat: 3 columns, P.lat has 4\n",
        ),
        (
            InputFault::Grade(GradeFault::GradeShape {
                rows: 1,
                columns: 3,
                wanted: 2,
            }),
            "markov: P.grade: 1 rows and 3 columns, 1 and 2 wanted\n",
        ),
        (
            InputFault::Grade(GradeFault::GradeNotPositive {
                column: 0,
                value: 0,
            }),
            "markov: P.grade: column 1 is 0\n",
        ),
        (
            InputFault::Grade(GradeFault::GradeMismatch {
                lat_row: 0,
                value: 2,
            }),
            "markov: P.grade: product with P.lat row 1 is 2\n",
        ),
        (
            InputFault::Grade(GradeFault::NoGrading),
            "markov: P: no positive grading found\n",
        ),
    ] {
        assert_eq!(rt;
            input_line(rt.alloc(), "markov", "P", fault)?.as_str(),
            line
        );
    }
    Ok(())
}
