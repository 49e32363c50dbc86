//! The calls of the seats of a shared completion, and completions by several workers, each with what it must give. The tests are all
//! there is.
#![tactic(auto)]

#[cfg(test)]
mod calls;
#[cfg(test)]
mod completed;
#[cfg(test)]
mod held;
#[cfg(test)]
mod rows;
#[cfg(test)]
mod starts;
#[cfg(test)]
mod threads;
