//! The essential moves of a lattice, chosen from its reduced basis weight by weight.
#![tactic(auto)]

mod linkers;
mod links;
mod lower;
mod minimal;
mod overlaps;
mod shared;
mod stages;

pub use minimal::{MinimalList, MinimiseFault, minimise, minimise_shared};
