//! Folders, whole files over them, and what is read from them and written into them. The tests are all there is.
#![tactic(auto)]

#[cfg(test)]
mod calls;
#[cfg(test)]
mod memory_folders;
#[cfg(test)]
mod readings;
#[cfg(test)]
mod real_folders;
#[cfg(test)]
mod transfers;
#[cfg(test)]
mod writings;
