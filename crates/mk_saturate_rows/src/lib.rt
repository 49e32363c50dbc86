//! The calls on gradings, lists, moves, bases, finders, remainders, ledgers and saturations, each with what it must give. The tests
//! are all there is.
#![tactic(auto)]

#[cfg(test)]
mod finders;
#[cfg(test)]
mod in_place;
#[cfg(test)]
mod ledgers;
#[cfg(test)]
mod moves;
#[cfg(test)]
mod remainders;
#[cfg(test)]
mod saturations;
#[cfg(test)]
mod shown;
