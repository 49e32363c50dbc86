//! Made tables: the lattices of tables of two or three sizes, whose rows are products of differences of neighbours; and what
//! is said of them.
#![tactic(auto)]

mod laws;
mod model;
mod report;

pub use laws::entries_of_models;
pub use model::model_table;
pub use report::summary;
