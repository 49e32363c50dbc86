//! The journal of a completion: which pairs of moves were settled, by which worker and how, in their order.
#![tactic(auto)]

mod journal;

pub use journal::{Journal, JournalEntry, Kind};
