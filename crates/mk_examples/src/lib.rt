//! Worked examples of the definitions of `mk_model`, and its plain programs shown on small vectors.
//!
//! An example is the contract of a function without parameters. What has a name stands in
//! `specs/Worked.antt`.
#![tactic(auto)]

mod cheapest;
mod examples;

pub use cheapest::cheapest_examples;
pub use examples::{
    answer_examples, book_examples, chain_examples, event_examples, free_column_examples,
    grading_examples, grading_fault_examples, halt_examples, journal_examples, lattice_examples,
    order_examples, overflow_examples, pair_examples, reduced_basis_examples, reduction_examples,
    redundancy_examples, saturation_examples, state_examples, table_examples, table_fault_examples,
    text_examples, token_examples, turn_examples, vector_examples, walk_examples,
};

#[cfg(test)]
mod tests;
