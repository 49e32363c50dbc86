//! The arithmetic of a tableau's pivots in 128 bits: what a pivot divides, where it can be
//! computed, and which of two fractions is the smaller.
#![tactic(auto)]

mod fractions;
mod numbers;

pub use fractions::is_smaller;
pub use numbers::{PIVOT_MAX, cross_difference};
