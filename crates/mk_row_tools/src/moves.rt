//! How moves are compared with a text.

use crate::lattices::table_of;
use mk_model::Entry;
use mk_move::{Basis, Move};
use std::alloc::Global;
use std::test::Fail;

/// The move has these entries.
pub fn expect_row(m: &Move, row: &[Entry]) -> Result<(), Fail> {
    if m.columns() as usize != row.len() {
        return Err(Fail::new("a move of other columns"));
    }
    for (column, entry) in row.iter().enumerate() {
        let found = m.entry(column as u32);
        if found != *entry {
            return Err(Fail::new(format_args!(
                "{found} in column {column} of a move, and not {entry}"
            )));
        }
    }
    Ok(())
}

/// The basis has the moves in a text and no other, in their order.
pub fn expect_moves(alloc: Global, basis: &Basis, text: &str) -> Result<(), Fail> {
    let wanted = table_of(alloc, text)?;
    if basis.len() != wanted.rows() {
        return Err(Fail::new(format_args!("{} moves, and not those of {text}", basis.len())));
    }
    for place in 0..wanted.rows() {
        expect_row(basis.move_at(place), wanted.row(place))?;
    }
    Ok(())
}
