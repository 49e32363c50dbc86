//! Moves of a lattice, their gradings, the priority lists that orient them, and what a completion does with them: steps,
//! divisions and comparisons of leads, bases, and the traits of those that find a lead and of lists of moves.
#![tactic(auto)]

mod basis;
mod chain;
mod finder;
mod grading;
mod in_place;
mod leads;
mod likely;
mod list;
mod masks;
mod moves;
mod orders;
mod priority;
mod settled;
mod side;
mod steps;

pub use basis::{Basis, PushFault};
pub use chain::chain_divides;
pub use finder::Finder;
pub use grading::{Grading, GradingFault, product_of};
pub use leads::{coprime_leads, lead_divides, times_dividing};
pub use list::MoveList;
pub use masks::{first_bit, least_unmasked};
pub use moves::{Move, MoveFault};
pub use orders::{compare_leads, move_order};
pub use priority::Priority;
pub use settled::SettledPairs;
pub use side::Side;
pub use steps::{OverflowAt, StepFault, subtract_times};
