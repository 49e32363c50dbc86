//! Completion of a basis by several workers that take turns in the order of a schedule.
#![tactic(auto)]

mod driving;
mod laws;
mod seat;

pub use driving::{Turn, drive, drive_halting};
pub use laws::refusals_happen_by_events;
