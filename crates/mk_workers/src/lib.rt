//! The workers of a shared completion: each claims pairs, settles them by its own copy of the basis, and is done where nothing is
//! left for it; and the completion of a job by several of them.
#![tactic(auto)]

mod completing;
mod gate;
mod pauses;
mod stage;
mod worker;
mod working;

pub use completing::complete_shared;
pub use gate::{Gate, OpenGate};
pub use working::worker_loop;
