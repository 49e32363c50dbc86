//! The choice of a lattice's grading: a given grade, all ones, or the sum of rows of a given matrix.
#![tactic(auto)]

mod choice;
mod fault;
mod given;
mod products;
mod sums;

pub use choice::choose;
pub use fault::GradeFault;
