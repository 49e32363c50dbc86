//! A finder of leads by a tree over the columns of their supports.
#![tactic(auto)]

mod bits;
mod block;
mod children;
mod held;
mod node;
mod support_tree;

pub use support_tree::SupportTree;
