//! Completion of a basis by one worker: each pair of its moves is settled, by the ledger, until every pair is joined below.
#![tactic(auto)]

mod completed;
mod completion;
mod dropping;
mod phase;
mod saturated;
mod skipping;
mod third_moves;
mod work;

pub use completed::Completed;
pub use completion::{LeadFinder, complete_alone, finder_of, finish_alone};
pub use dropping::drop_redundant;
pub use mk_ledger::{Journal, JournalEntry, Kind};
pub use phase::{Job, Phase, Stopped};
pub use saturated::SaturatedBasis;
pub use work::{WorkFault, work_on};
