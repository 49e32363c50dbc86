//! The turn: a value that many threads change, one at a time and never waiting, each under a number
//! of its own.
#![tactic(auto)]

mod calls;
mod plays;
mod state;
mod table;
mod view;

pub use state::TurnState;
pub use table::{TurnSeat, TurnTable};
pub use view::{About, JoinedSeat, Rule, View};

#[cfg(test)]
mod tests;
