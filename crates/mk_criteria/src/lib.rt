//! The criteria by which a pair is settled without reduction.
#![tactic(auto)]

mod chains;
mod disjoint;

pub use chains::{TRIES_MAX, chain_candidates, find_chain, is_chain, next_third};
pub use disjoint::have_coprime_leads;
