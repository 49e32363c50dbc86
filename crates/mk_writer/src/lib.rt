//! The writing of a list of moves into the file that is being made in a folder.
#![tactic(auto)]

mod line;
mod writing;

pub use writing::{WriteFault, write_moves};
