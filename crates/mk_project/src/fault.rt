use crate::file::InputFile;
use mk_files::TableFault;
use mk_grading::GradeFault;

/// What is wrong with the input. Tried in this order, file by file.
#[derive(Clone, Copy, Debug, PartialEq, Eq)]
pub enum InputFault {
    /// The project's `.lat` is not there.
    NoLattice,
    /// A file has more than 67108864 bytes: so many were read.
    FileSize { file: InputFile, read: u64 },
    /// A file is no table.
    Table { file: InputFile, fault: TableFault },
    /// No grading is chosen.
    Grade(GradeFault),
}
