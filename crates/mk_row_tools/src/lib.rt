//! What rows as tests begin with and compare by: tables, bases and graded tables from texts, their moves, and a meeting of two workers.
//! What doesn't fit is a failure of the test that calls.
#![tactic(auto)]

mod lattices;
mod meeting;
mod moves;

pub use lattices::{Graded, graded_of, start_of, table_of};
pub use meeting::Meeting;
pub use moves::{expect_moves, expect_row};
