//! The reader of tables: files of integers as the 4ti2 manual has them.
//!
//! A table is a text of numbers with white space between them: the number of rows, the number of columns, and the
//! entries row by row. The grammar stands in `specs/Tables.antt` of `mk_model`, and what is wrong with any other text in
//! `specs/TableFaults.antt` there.
#![tactic(auto)]

mod bounds;
mod fault;
mod numbers;
mod reading;
mod table;
mod tokens;

pub use bounds::{Bounds, MAX_COLUMNS, MAX_ROWS};
pub use fault::{Place, TableFault};
pub use numbers::{BEYOND, magnitude};
pub use reading::read_table;
pub use table::Table;
