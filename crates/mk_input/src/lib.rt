//! What a project's files give: the lattice's table and the grading that is chosen for it, or what is wrong first.
#![tactic(auto)]

mod fault;
mod laws;
mod problem;
mod reading;

pub use fault::ReadFault;
pub use laws::{faults_exclude_each_other, problem_has_no_fault};
pub use mk_project::{InputFault, InputFile};
pub use problem::Problem;
pub use reading::read_project;
