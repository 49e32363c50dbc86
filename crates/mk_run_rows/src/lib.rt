//! Whole runs over a folder in memory, each with what it must give. The tests are all there is.
#![tactic(auto)]

#[cfg(test)]
mod endings;
#[cfg(test)]
mod folders;
#[cfg(test)]
mod projects;
#[cfg(test)]
mod requests;
#[cfg(test)]
mod runs;
#[cfg(test)]
mod words;
