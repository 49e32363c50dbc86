//! Runs over a folder in memory that fails, and over bytes made to hurt. The tests are all there is.
#![tactic(auto)]

#[cfg(test)]
mod bytes;
#[cfg(test)]
mod calls;
#[cfg(test)]
mod runs;
