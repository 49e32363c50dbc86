//! What a text begins.

ghost use Rattle.std.specs.Prelude.{◌≡◌, All, length, pos, IfOk};
ghost use Rattle.mk_model.specs.Tables.{rows_of};
ghost use Rattle.mk_model.specs.Vectors.{weight};

use mk_files::{Bounds, Table, read_table};
use mk_model::ENTRY_MAX;
use mk_move::{Basis, Grading, Priority};
use mk_saturate::start_basis;
use std::alloc::Global;
use std::test::Fail;

/// A table, and a grading for which each of its rows has product 0.
#[derive(Debug, Drop)]
pub struct Graded {
    pub table: Table,
    pub grading: Grading,
}

/// The table in a text, of at most 4096 rows and 512 columns, with any entries that a move may have.
pub fn table_of(alloc: Global, text: &str) -> Result<Table, Fail> {
    let limits = Bounds {
        rows: 4096,
        columns: 512,
        least: -ENTRY_MAX,
        most: ENTRY_MAX,
    };
    Ok(read_table(alloc, text.as_bytes(), &limits)?)
}

/// The grading of these weights, one for each of so many columns.
fn grading_of(alloc: Global, weights: &[i64], columns: u32) -> Result<Grading, Fail>
    ensures value { IfOk result (λ grading. grading ≡ weights.now) }
    ensures columns { IfOk result (λ grading. length grading ≡ columns) }
{
    if weights.len() > 512 {
        return Err(Fail::new("more than 512 weights"));
    }
    let grading = Grading::new(alloc, weights)?;
    if grading.columns() != columns {
        return Err(Fail::new("another number of weights than of columns"));
    }
    Ok(grading)
}

/// The list of so many columns that a column begins, or the standard list.
fn list_of(alloc: Global, columns: u32, first: Option<u32>) -> Result<Priority, Fail>
    ensures { IfOk result (λ list. length list ≡ columns) }
{
    let list = match first {
        Some(column) if column < columns => Priority::first(alloc, columns, column)?,
        Some(_) => return Err(Fail::new("no such column")),
        None => Priority::standard(alloc, columns)?,
    };
    if list.columns() != columns {
        return Err(Fail::new("a list of other columns"));
    }
    Ok(list)
}

/// The basis that the rows in a text begin, for the grading of these weights, along the list that a column begins or the standard
/// list.
pub fn start_of(
    alloc: Global,
    text: &str,
    weights: &[i64],
    first: Option<u32>,
) -> Result<Basis, Fail> {
    let table = table_of(alloc, text)?;
    let grading = grading_of(alloc, weights, table.columns())?;
    let list = list_of(alloc, table.columns(), first)?;
    Ok(start_basis(alloc, &table, grading, list)?)
}

/// The table, graded by the weights. That these give 0 for each row is known once the rows begin a basis.
pub fn graded_of(alloc: Global, table: Table, weights: &[i64]) -> Result<Graded, Fail>
    ensures weights { IfOk result (λ lattice. lattice.grading ≡ weights.now) }
    ensures columns { IfOk result (λ lattice. length lattice.grading ≡ lattice.table.columns) }
    ensures graded { IfOk result
        (λ lattice. All (λ row. weight lattice.grading row ≡ pos 0) (rows_of lattice.table)) }
{
    let grading = grading_of(alloc, weights, table.columns())?;
    let list = list_of(alloc, table.columns(), None)?;
    start_basis(alloc, &table, grading.try_copy()?, list)?;
    Ok(Graded { table, grading })
}
