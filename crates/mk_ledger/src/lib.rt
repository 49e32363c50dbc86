//! The ledger of a completion: which pairs of moves are settled, which worker has which pair, and the journal of what was
//! settled how.
#![tactic(auto)]

mod bits;
mod claims;
mod halt;
mod ledger;
mod pairs;

pub use bits::SettledBits;
pub use claims::Claim;
pub use halt::{Halt, OverflowStop};
pub use ledger::{ChainFault, Ledger, LedgerParts, PlaceFault};
pub use mk_journal::{Journal, JournalEntry, Kind};
pub use pairs::{Frontier, pair_number};
