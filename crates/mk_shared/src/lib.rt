//! One completion that many workers share: each claims pairs of its ledger, settles them and halts,
//! in turns and never waiting.
#![tactic(auto)]

mod answers;
mod claiming;
mod completion;
mod copying;
mod seat;
mod settling;
mod state;

pub use answers::{Busy, RefreshFault, SettleFault, SettledBy, SplitFault, TryChainFault};
pub use completion::SharedCompletion;
pub use seat::Seat;
pub use state::{HeldPair, MadeEntry, Outset, SharedLedger};
