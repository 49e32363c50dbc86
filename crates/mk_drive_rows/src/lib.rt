//! The calls on pairs, ledgers and completions on small lattices, and halts of workers while others have claims, each with what it must
//! give. The tests are all there is.
#![tactic(auto)]

#[cfg(test)]
mod calls;
#[cfg(test)]
mod completions;
#[cfg(test)]
mod halts;
#[cfg(test)]
mod lattices;
#[cfg(test)]
mod pairs;
#[cfg(test)]
mod refused;
#[cfg(test)]
mod skips;
#[cfg(test)]
mod turns;
