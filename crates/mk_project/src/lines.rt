ghost use Rattle.std.specs.Prelude.{◌≡◌, suc, Some, IfOk, string_bytes};
ghost use Rattle.mk_project.specs.Lines.{input_line, place_text, table_complaint, grade_complaint};

use crate::fault::InputFault;
use crate::file::FILE_LIMIT;
use mk_files::{MAX_COLUMNS, MAX_ROWS, Place, TableFault};
use mk_grading::GradeFault;
use std::alloc::{AllocError, Global};
use std::fmt;

/// The line for a fault of the project's input, which begins with the name of the program.
pub fn input_line(
    alloc: Global,
    program: &str,
    project: &str,
    fault: InputFault,
) -> Result<String, AllocError>
    ensures { IfOk result (λ line. string_bytes line ≡ input_line program.now project.now fault) }
{
    match fault {
        InputFault::NoLattice => format!(in alloc; "{program}: {project}.lat: not there\n"),
        InputFault::FileSize { file, .. } => {
            let ending = file.ending();
            format!(in alloc; "{program}: {project}{ending}: more than {FILE_LIMIT} bytes\n")
        }
        InputFault::Table { file, fault } => {
            let ending = file.ending();
            let complaint = table_complaint(alloc, fault)?;
            format!(in alloc; "{program}: {project}{ending}{complaint}")
        }
        InputFault::Grade(fault) => {
            let complaint = grade_complaint(alloc, project, fault)?;
            format!(in alloc; "{program}: {project}{complaint}")
        }
    }
}

/// A place, as a complaint of a table says it.
#[derive(Drop)]
struct At(Place);

impl fmt::Display for At {
    ghost output = { λ at. Some (place_text at.0) };

    fn fmt<W: fmt::Write>(&self, f: &mut fmt::Formatter<W>) -> fmt::Result {
        write!(f, ": line {}, byte {}", self.0.line, self.0.byte)
    }
}

/// What is wrong with a table, behind its file's name.
fn table_complaint(alloc: Global, fault: TableFault) -> Result<String, AllocError>
    ensures { IfOk result (λ text. string_bytes text ≡ table_complaint fault) }
{
    match fault {
        TableFault::Memory => Ok(String::new(alloc)),
        TableFault::NoHeader { place, found } => {
            format!(in alloc; "{}: {found} of 2 header numbers\n", At(place))
        }
        TableFault::BadNumber(place) => format!(in alloc; "{}: not a number\n", At(place)),
        TableFault::Rows(place) => format!(in alloc; "{}: more than {MAX_ROWS} rows\n", At(place)),
        TableFault::Columns(place) => format!(in alloc;
            "{}: more than {MAX_COLUMNS} columns\n",
            At(place)
        ),
        TableFault::EntryRange(place) => format!(in alloc; "{}: number out of range\n", At(place)),
        TableFault::Missing {
            place,
            found,
            wanted,
        } => format!(in alloc; "{}: {found} of {wanted} entries\n", At(place)),
        TableFault::Trailing(place) => format!(in alloc;
            "{}: text after the last entry\n",
            At(place)
        ),
    }
}

/// Why a project has no grading, behind the project's name. Rows and columns are said counting from 1.
fn grade_complaint(alloc: Global, project: &str, fault: GradeFault) -> Result<String, AllocError>
    ensures { IfOk result (λ text. string_bytes text ≡ grade_complaint project.now fault) }
{
    match fault {
        GradeFault::Memory => Ok(String::new(alloc)),
        GradeFault::MatColumns { found, wanted } => {
            format!(in alloc; ".mat: {found} columns, {project}.lat has {wanted}\n")
        }
        GradeFault::MatMismatch {
            mat_row,
            lat_row,
            value,
        } => {
            let mat_row = ordinal(mat_row);
            let lat_row = ordinal(lat_row);
            format!(in alloc; ".mat: row {mat_row} times {project}.lat row {lat_row} is {value}\n")
        }
        GradeFault::GradeShape {
            rows,
            columns,
            wanted,
        } => format!(in alloc;
            ".grade: {rows} rows and {columns} columns, 1 and {wanted} wanted\n"
        ),
        GradeFault::GradeNotPositive { column, value } => {
            format!(in alloc; ".grade: column {} is {value}\n", ordinal(column))
        }
        GradeFault::GradeMismatch { lat_row, value } => {
            let lat_row = ordinal(lat_row);
            format!(in alloc; ".grade: product with {project}.lat row {lat_row} is {value}\n")
        }
        GradeFault::NoGrading => format!(in alloc; ": no positive grading found\n"),
    }
}

/// The number of a row or a column, counting from 1.
fn ordinal(index: u32) -> u64
    ensures { result ≡ suc index }
{
    u64::from(index) + 1
}
