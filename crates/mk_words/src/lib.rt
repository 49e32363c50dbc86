//! The words of the command line, and what they ask for.
#![tactic(auto)]

mod language;
mod numbers;
mod options;
mod parser;
mod request;

pub use language::{read_words, wants_one};
pub use request::{ProjectName, Request, Sizes, Task, UsageFault};
