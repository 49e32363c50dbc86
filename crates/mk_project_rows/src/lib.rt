//! Tables, gradings, made tables, and the words and lines of a project. The tests are all there is.
#![tactic(auto)]

#[cfg(test)]
mod gradings;
#[cfg(test)]
mod lines;
#[cfg(test)]
mod models;
#[cfg(test)]
mod tables;
#[cfg(test)]
mod words;
