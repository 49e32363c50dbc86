//! The reduced basis of a lattice: redundant moves dropped, and tails reduced.
#![tactic(auto)]

mod sorting;
mod tail;
mod tails;

pub use mk_core::{SaturatedBasis, drop_redundant};
pub use tails::{ReducedBasis, TailFault, reduce_tails, reduce_tails_shared};
