//! The files of a project: their names, what they may have, what may be wrong with them, and the line that says so; and the lines
//! for why a search among moves stopped.
#![tactic(auto)]

mod fault;
mod file;
mod laws;
mod lines;
mod stops;

pub use fault::InputFault;
pub use file::{FILE_LIMIT, InputFile, file_name};
pub use laws::limits_of_files;
pub use lines::input_line;
pub use stops::{budget_line, overflow_line};
