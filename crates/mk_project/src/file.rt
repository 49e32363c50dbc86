ghost use Rattle.std.specs.Prelude.{◌≡◌, ◌++◌, IfOk, string_bytes};
ghost use Rattle.mk_project.specs.Files.{ending_of, name_of, bounds_of};

use mk_files::{Bounds, MAX_COLUMNS, MAX_ROWS};
use mk_model::{ENTRY_MAX, Entry};
use std::alloc::{AllocError, Global};

/// The most bytes of a file.
pub const FILE_LIMIT: u64 = 67_108_864;

/// The largest entry of a matrix and of a grade; the least is its negative.
pub const SMALL_MAX: Entry = 2_147_483_647;

/// A file of a project.
#[derive(Clone, Copy, Debug, PartialEq, Eq)]
pub enum InputFile {
    /// The rows that span the lattice.
    Lat,
    /// A matrix whose rows have product 0 with the lattice.
    Mat,
    /// A grading, as one row.
    Grade,
}

impl InputFile {
    /// The ending of the file's name.
    pub fn ending(self) -> &'static str
        ensures { result.now ≡ ending_of self }
    {
        match self {
            InputFile::Lat => ".lat",
            InputFile::Mat => ".mat",
            InputFile::Grade => ".grade",
        }
    }

    /// What the file may have as a table: at most 4,096 rows and 512 columns, and entries from `-ENTRY_MAX` to `ENTRY_MAX` in a
    /// lattice, from -2147483647 to 2147483647 in a matrix and in a grade.
    pub fn bounds(self) -> Bounds
        ensures { result ≡ bounds_of self }
    {
        let most = match self {
            InputFile::Lat => ENTRY_MAX,
            InputFile::Mat | InputFile::Grade => SMALL_MAX,
        };
        Bounds {
            rows: MAX_ROWS,
            columns: MAX_COLUMNS,
            least: -most,
            most,
        }
    }

    /// The file's name: the project, and the file's ending.
    pub fn name(self, alloc: Global, project: &str) -> Result<String, AllocError>
        ensures { IfOk result (λ name. string_bytes name ≡ name_of self project.now) }
    {
        file_name(alloc, project, self.ending())
    }
}

/// The name of a project's file: the project, and an ending.
pub fn file_name(alloc: Global, project: &str, ending: &str) -> Result<String, AllocError>
    ensures { IfOk result (λ name. string_bytes name ≡ project.now ++ ending.now) }
{
    let mut name = String::from_str(alloc, project)?;
    name.push_str(ending)?;
    Ok(name)
}
