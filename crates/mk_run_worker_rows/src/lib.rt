//! Whole runs by several workers, each with what it must give. The tests are all there is.
#![tactic(auto)]

#[cfg(test)]
mod meetings;
#[cfg(test)]
mod runs;
