//! Solving a lattice: its saturation, phase by phase, the reduced basis and the essential moves, with the book that keeps what
//! was done.
#![tactic(auto)]

mod book;
mod completing;
mod crew;
mod laws;
mod solving;
mod workers;

pub use book::{BookStop, OverflowPlace, RunBook};
pub use crew::{Crew, OneWorker};
pub use laws::first_start_tells_the_lattice;
pub use mk_core::{Journal, JournalEntry, Kind, Phase};
pub use mk_ledger::OverflowStop;
pub use mk_minimise::MinimalList;
pub use mk_project::{InputFault, InputFile};
pub use mk_workers::{Gate, OpenGate};
pub use solving::{RunStop, solve, solve_alone, solve_shared};
pub use workers::Workers;
