//! The definitions that the other crates are proved against, over plain lists of integers, and
//! their laws.
//!
//! The definitions stand in `specs/`, and `docs/DEFINITIONS.md` says each in plain words. A law is
//! the contract of a function without parameters.
#![tactic(auto)]

mod book_laws;
mod laws;
mod lifting_laws;
mod plain;
mod tableau_laws;

pub use book_laws::one_row_never_stops;
pub use laws::{
    answer_from_components, answer_has_the_essential_moves, answer_is_unique, answer_of_one_row,
    answer_without_rows, below_is_strict_and_total, confluence_from_pairs, conn_drop, conn_free,
    connected_by_rows, connected_up_to_none_is_markov, drop_redundant_apart, drop_redundant_covers,
    each_text_is_a_table_or_has_a_fault, ended_is_joined, essential_is_markov,
    essential_is_minimal, essential_moves_are_stars, events_keep_legal, every_fibre_is_finite,
    free_columns_leave, irreducible_is_least, join_chain, join_translate, least_vector_is_unique,
    lighter_members_join, markov_up_to_none_is_markov, move_order_is_strict_and_total,
    phase_is_legal, reached_is_legal, reduced_basis_divides, reduced_basis_has_the_essential_moves,
    reduced_basis_is_markov, reduced_basis_is_unique, replay_goes_on, turns_happen_by_events,
};
pub use lifting_laws::lifted_fibres;
pub use plain::{divides, is_below};
use std::alloc::{AllocError, AllocFailed};
pub use tableau_laws::{
    entering_column_has_a_pivot, forbidding_end_forbids, graded_end_is_a_grading,
    pivots_divide_exactly,
};

/// An entry of a lattice or of a move: from `-ENTRY_MAX` to `ENTRY_MAX`.
pub type Entry = i128;

/// The largest entry, 2^80 - 1.
pub const ENTRY_MAX: Entry = 1208925819614629174706175;

/// How many moves a basis may have.
pub const MOVES_MAX: u32 = 65_536;

/// How many workers a completion may have.
pub const WORKERS_MAX: u32 = 64;

/// There is no memory left.
#[derive(Clone, Copy, Debug, PartialEq, Eq)]
pub struct NoMemory;

impl From<AllocError> for NoMemory {
    fn from(_e: AllocError) -> NoMemory {
        NoMemory
    }
}

impl<T: Drop> From<AllocFailed<T>> for NoMemory {
    fn from(_e: AllocFailed<T>) -> NoMemory {
        NoMemory
    }
}
