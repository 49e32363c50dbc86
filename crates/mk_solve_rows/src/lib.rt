//! The calls that solve a lattice, by one worker and by several, on small lattices, each with what it must give. The tests are all
//! there is.
#![tactic(auto)]

#[cfg(test)]
mod chosen;
#[cfg(test)]
mod lists;
#[cfg(test)]
mod saturated;
#[cfg(test)]
mod solved;
#[cfg(test)]
mod steep;
#[cfg(test)]
mod stopped;
