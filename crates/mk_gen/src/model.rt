//! The table of a model: its cells are the columns, and its rows are products of differences of neighbours.

ghost use Rattle.std.specs.Prelude.{◌≡◌, ◌≤◌, ◌-◌, ◌*◌, ◌++◌, [], All, IfOk, pos, neg_ℤ, ◌≤ℤ◌};
ghost use Rattle.std.specs.List.{flat_map};
ghost use Rattle.mk_model.specs.Vectors.{IsEntry, scale};
ghost use Rattle.mk_model.specs.Tables.{rows_of};
ghost use Rattle.mk_model.specs.Lattices.{ones};
ghost use Rattle.mk_model.specs.ChosenGradings.{IsGradingOf};
ghost use Rattle.mk_gen.specs.Models.{AreModelSizes, neighbour_entry, times_difference, model_grid};
ghost use Rattle.mk_gen.specs.Wider.{wider};

use mk_files::Table;
use mk_model::{Entry, NoMemory};
use std::alloc::Global;

/// The table of two or three sizes, each 2 to 16, of at most 512 cells (Sturmfels, chapter 5).
///
/// The columns are the cells, the last index fastest. For sizes `a`, `b` there is a row for each `s` from 0 to `a - 2` and
/// `t` from 0 to `b - 2`, in the same order. Its entry at the cell (`p`, `q`) is the product of two factors: 1 for `p = s`,
/// -1 for `p = s + 1` and 0 else, and the same for `q` and `t`. A third size gives a third factor. Each row has sum 0.
pub fn model_table(alloc: Global, sizes: &[u32]) -> Result<Table, NoMemory>
    requires { AreModelSizes sizes.now }
    ensures table { IfOk result (λ t. t ≡ model_grid sizes.now) }
    ensures graded { IfOk result (λ t. IsGradingOf t (ones t.columns)) }
{
    let mut table = one_cell(alloc)?;
    for done in 0..sizes.len() {
        table = with_size(alloc, sizes[sizes.len() - 1 - done], &table)?;
    }
    Ok(table)
}

/// The table of no sizes: the entry 1.
fn one_cell(alloc: Global) -> Result<Table, NoMemory>
    ensures { IfOk result (λ t. t ≡ model_grid []) }
{
    Ok(Table::from_entries(1, 1, vec![in alloc; 1]?))
}

/// The table of one size more in front: each difference of neighbours times each row.
fn with_size(alloc: Global, size: u32, table: &Table) -> Result<Table, NoMemory>
    requires size { 2 ≤ size }
    requires rows { (size - 1) * table.now.rows ≤ 4096 }
    requires columns { size * table.now.columns ≤ 512 }
    ensures { IfOk result (λ t. t ≡ wider size table.now) }
{
    let mut entries = Vec::new(alloc);
    for s in 0..size - 1 {
        push_rows(&mut entries, size, s, table)?;
    }
    let rows = (size - 1) * table.rows();
    let columns = size * table.columns();
    Ok(Table::from_entries(rows, columns, entries))
}

/// Appends the difference at `s` times each row.
fn push_rows(entries: &mut Vec<Entry>, size: u32, s: u32, table: &Table) -> Result<(), NoMemory>
    ensures { IfOk result (λ done. entries.new.items ≡ entries.old.items ++ flat_map (times_difference size s) (rows_of table.now)) }
{
    for r in 0..table.rows() {
        push_row(entries, size, s, table.row(r))?;
    }
    Ok(())
}

/// Appends the difference at `s` times the row.
fn push_row(entries: &mut Vec<Entry>, size: u32, s: u32, row: &[Entry]) -> Result<(), NoMemory>
    requires { All IsEntry row.now }
    ensures { IfOk result (λ done. entries.new.items ≡ entries.old.items ++ times_difference size s row.now) }
{
    for p in 0..size {
        push_multiple(entries, factor_at(s, p), row)?;
    }
    Ok(())
}

/// Appends the row times the factor.
fn push_multiple(entries: &mut Vec<Entry>, factor: Entry, row: &[Entry]) -> Result<(), NoMemory>
    requires factor { (neg_ℤ (pos 1) ≤ℤ factor) × (factor ≤ℤ pos 1) }
    requires row { All IsEntry row.now }
    ensures { IfOk result (λ done. entries.new.items ≡ entries.old.items ++ scale factor row.now) }
{
    for entry in row {
        entries.push(factor * *entry)?;
    }
    Ok(())
}

/// The entry at `p` of the difference of the neighbours `s` and `s + 1`.
fn factor_at(s: u32, p: u32) -> Entry
    ensures value { result ≡ neighbour_entry s p }
    ensures small { (neg_ℤ (pos 1) ≤ℤ result) × (result ≤ℤ pos 1) }
{
    match p.checked_sub(s) {
        Some(0) => 1,
        Some(1) => -1,
        _ => 0,
    }
}
