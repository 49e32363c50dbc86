use std::alloc::Global;
use std::test::Fail;

// Two rows of whose moves a tail is the first to leave the range.
pub(crate) const STEEP_TAIL: [&str; 2] = [
    "-604462909807314587353086 302231454903657293676543 0 1208925819614629174706172",
    "0 302231454903657293676543 -302231454903657293676543 -302231454903657293676543",
];

// Three rows of whose moves a pair of a weight is the first to leave the range.
pub(crate) const STEEP_WEIGHT: [&str; 3] = [
    "-226673591177742970257405 0 226673591177742970257405 -226673591177742970257405",
    "302231454903657293676540 151115727451828646838270 151115727451828646838270 -226673591177742970257405",
    "-151115727451828646838270 302231454903657293676540 -151115727451828646838270 151115727451828646838270",
];

// The text of a lattice: these rows of four columns, and in further columns those of the tables of two rows and so many columns with
// margins 0, whose entries are 0, this one and its negative.
pub(crate) fn beside_tables(
    alloc: Global,
    rows: &[&str],
    columns: u32,
    entry: &str,
) -> Result<String, Fail> {
    let adjacent = columns.saturating_sub(1);
    let count = u64::from(adjacent).saturating_add(rows.len() as u64);
    let mut text = format!(in alloc; "{count} {}\n", 2 * u64::from(columns) + 4)?;
    let negative = format!(in alloc; "-{entry}")?;
    push_rows(&mut text, rows, columns)?;
    for column in 0..adjacent {
        text.push_str("0 0 0 0")?;
        push_cells(&mut text, columns, column, entry, negative.as_str())?;
        push_cells(&mut text, columns, column, negative.as_str(), entry)?;
        text.push_str("\n")?;
    }
    Ok(text)
}

// Puts the rows to the text, with 0 in the cells of the tables.
fn push_rows(text: &mut String, rows: &[&str], columns: u32) -> Result<(), Fail> {
    for row in rows {
        text.push_str(row)?;
        push_cells(text, columns, columns, "0", "0")?;
        push_cells(text, columns, columns, "0", "0")?;
        text.push_str("\n")?;
    }
    Ok(())
}

// Puts the cells of a row of tables to the text: one entry in a column and another in the next.
fn push_cells(
    text: &mut String,
    columns: u32,
    column: u32,
    here: &str,
    next: &str,
) -> Result<(), Fail> {
    for cell in 0..columns {
        text.push_str(" ")?;
        if cell == column {
            text.push_str(here)?;
        } else if cell.saturating_sub(1) == column {
            text.push_str(next)?;
        } else {
            text.push_str("0")?;
        }
    }
    Ok(())
}
