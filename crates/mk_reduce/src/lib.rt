//! Reduction of the differences of pairs by a basis: the work on a pair, its steps, and a finder of leads that scans.
#![tactic(auto)]

mod critical_pair;
mod keeper;
mod plain;
mod reduction;
mod remainder;
mod step;
mod stop;
mod work;

pub use critical_pair::critical;
pub use plain::PlainFinder;
pub use reduction::reduce;
pub use remainder::{RemainderFault, Scratch, remainder_in};
pub use step::Step;
pub use stop::Stop;
pub use work::Work;
