//! A whole run: from the words and the files to the answer.
#![tactic(auto)]

mod fault;
mod giving;
mod lines;
mod problem;
mod refusal;
mod run;
mod status;

pub use lines::stop_line;
pub use mk_desk::{Channel, Folder, MemoryFolder, RealFolder, SureFolder};
pub use mk_files::{Place, TableFault};
pub use mk_grading::GradeFault;
pub use mk_project::{InputFault, InputFile};
pub use mk_solve::{
    BookStop, Gate, Journal, JournalEntry, Kind, OpenGate, OverflowPlace, OverflowStop, Phase,
    RunBook, RunStop, solve_alone, solve_shared,
};
pub use mk_words::wants_one;
pub use run::{markov_top, run_alone};
pub use status::Status;
