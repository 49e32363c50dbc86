//! Saturation of a lattice: the basis that its rows begin, and the columns that are saturated one after another.
#![tactic(auto)]

mod columns;
mod freeing;
mod saturation;
mod start;
mod turning;

pub use mk_core::SaturatedBasis;
pub use saturation::Saturation;
pub use start::start_basis;
