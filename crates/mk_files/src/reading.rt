ghost use Rattle.std.specs.Prelude.{◌≡◌, ◌⊎◌, ℕ, ◌*◌, ◌≤◌, [], length, neg_ℤ, ◌≤ℤ◌, IfOk, IfErr, IsErrOf};
ghost use Rattle.mk_model.specs.Tables.{Grid, IsNumber, ReadsTable};
ghost use Rattle.mk_files.specs.Bounds.{IsWithin, limits_of};
ghost use Rattle.mk_files.specs.Reading.{GivesGrid, IsFaultOf, IsEntryFault, RowsRead, EntriesRead};
ghost use Rattle.mk_files.specs.Table.{IsTable};
ghost use Rattle.mk_files.specs.Tokens.{token_bytes};

use crate::bounds::{Bounds, MAX_COLUMNS, MAX_ROWS};
use crate::fault::{TableFault, place_at};
use crate::numbers::{NumberFault, count_of, entry_of};
use crate::table::Table;
use crate::tokens::{Token, next_token};
use mk_model::{ENTRY_MAX, Entry};
use std::alloc::Global;

/// Reads a table, a file of the kind that the 4ti2 manual describes: the number of rows, the number of columns, and
/// the entries row by row, as many as rows times columns, with white space between the numbers and nothing else behind
/// them.
///
/// White space is any of the bytes 9 to 13 and 32. A number of rows or columns is one or more digits, maybe after a
/// plus; an entry is the same, or digits after a minus. Zeros in front are read over. The bounds allow at most 4096
/// rows and 512 columns, and entries from `-ENTRY_MAX` to `ENTRY_MAX`.
///
/// The tokens are read from the left, and the first fault is answered, with its place. `Memory` may come in place of a
/// table or of a fault, where there is no room for the entries in front.
pub fn read_table(alloc: Global, bytes: &[u8], bounds: &Bounds) -> Result<Table, TableFault>
    requires rows { bounds.now.rows ≤ MAX_ROWS }
    requires columns { bounds.now.columns ≤ MAX_COLUMNS }
    requires least { neg_ℤ ENTRY_MAX ≤ℤ bounds.now.least }
    requires most { bounds.now.most ≤ℤ ENTRY_MAX }

    ensures ok { IfOk result (ReadsTable bytes.now (limits_of bounds.now)) }
    ensures kept { IfOk result IsTable }
    // A text that is a table is read as that table.
    ensures only { (grid : Grid)
        → ReadsTable bytes.now (limits_of bounds.now) grid → GivesGrid grid result }

    ensures fault { IfErr result
        (λ fault. (fault ≡ TableFault.Memory) ⊎ IsFaultOf bytes.now (limits_of bounds.now) fault) }
    // A text that has a fault is answered with that fault.
    ensures faulty { (fault : TableFault) → IsFaultOf bytes.now (limits_of bounds.now) fault
        → IsErrOf result fault ⊎ IsErrOf result TableFault.Memory }
{
    let (rows, end) = read_rows(bytes, bounds)?;
    let (columns, end) = read_columns(bytes, rows, end, bounds)?;
    let entries = read_entries(alloc, bytes, rows, columns, end, bounds)?;
    Ok(Table::from_entries(rows, columns, entries))
}

/// The number of rows, and the byte behind it.
fn read_rows(bytes: &[u8], bounds: &Bounds) -> Result<(u32, usize), TableFault>
    ensures ok { IfOk result (λ read. RowsRead bytes.now bounds.now read.0 read.1) }
    ensures fault { IfErr result (IsFaultOf bytes.now (limits_of bounds.now)) }
{
    let Some(first) = next_token(bytes, 0) else {
        return Err(TableFault::NoHeader {
            place: place_at(bytes, bytes.len()),
            found: 0,
        });
    };
    match count_of(&bytes[first.start..first.end], bounds.rows) {
        Ok(rows) => Ok((rows, first.end)),
        Err(NumberFault::NoNumber) => Err(TableFault::BadNumber(place_at(bytes, first.start))),
        Err(NumberFault::OutOfRange) => Err(TableFault::Rows(place_at(bytes, first.start))),
    }
}

/// The number of columns, and the byte behind it.
fn read_columns(
    bytes: &[u8],
    rows: u32,
    end: usize,
    bounds: &Bounds,
) -> Result<(u32, usize), TableFault>
    requires { RowsRead bytes.now bounds.now rows end }
    ensures ok { IfOk result (λ read. EntriesRead bytes.now bounds.now
        (record { rows = rows; columns = read.0; entries = [] }) read.1) }
    ensures fault { IfErr result (IsFaultOf bytes.now (limits_of bounds.now)) }
{
    let Some(second) = next_token(bytes, end) else {
        return Err(TableFault::NoHeader {
            place: place_at(bytes, bytes.len()),
            found: 1,
        });
    };
    match count_of(&bytes[second.start..second.end], bounds.columns) {
        Ok(columns) => Ok((columns, second.end)),
        Err(NumberFault::NoNumber) => Err(TableFault::BadNumber(place_at(bytes, second.start))),
        Err(NumberFault::OutOfRange) => Err(TableFault::Columns(place_at(bytes, second.start))),
    }
}

/// The entries, with nothing behind them.
fn read_entries(
    alloc: Global,
    bytes: &[u8],
    rows: u32,
    columns: u32,
    end: usize,
    bounds: &Bounds,
) -> Result<Vec<Entry>, TableFault>
    requires header { EntriesRead bytes.now bounds.now
        (record { rows = rows; columns = columns; entries = [] }) end }
    requires least { neg_ℤ ENTRY_MAX ≤ℤ bounds.now.least }
    requires most { bounds.now.most ≤ℤ ENTRY_MAX }
    ensures count { IfOk result (λ entries. length entries.items ≡ rows * columns) }
    ensures ok { IfOk result (λ entries. ReadsTable bytes.now (limits_of bounds.now)
        (record { rows = rows; columns = columns; entries = entries.items })) }
    ensures fault { IfErr result
        (λ fault. (fault ≡ TableFault.Memory) ⊎ IsFaultOf bytes.now (limits_of bounds.now) fault) }
{
    let wanted = u64::from(rows) * u64::from(columns);
    let mut entries = Vec::new(alloc);
    let mut end = end;
    for found in 0..wanted {
        let Some(token) = next_token(bytes, end) else {
            let place = place_at(bytes, bytes.len());
            return Err(TableFault::Missing {
                place,
                found,
                wanted,
            });
        };
        entries.push(read_entry(bytes, token, bounds)?)?;
        end = token.end;
    }
    match next_token(bytes, end) {
        None => Ok(entries),
        Some(token) => Err(TableFault::Trailing(place_at(bytes, token.start))),
    }
}

/// The entry that the token writes.
fn read_entry(bytes: &[u8], token: Token, bounds: &Bounds) -> Result<Entry, TableFault>
    requires ordered { token.start ≤ token.end }
    requires inside { token.end ≤ length bytes.now }
    requires least { neg_ℤ ENTRY_MAX ≤ℤ bounds.now.least }
    requires most { bounds.now.most ≤ℤ ENTRY_MAX }
    ensures ok { IfOk result (λ z. IsWithin bounds.now z × IsNumber (token_bytes bytes.now token) z) }
    ensures fault { IfErr result (IsEntryFault bytes.now bounds.now token) }
{
    match entry_of(&bytes[token.start..token.end], bounds) {
        Ok(entry) => Ok(entry),
        Err(NumberFault::NoNumber) => Err(TableFault::BadNumber(place_at(bytes, token.start))),
        Err(NumberFault::OutOfRange) => Err(TableFault::EntryRange(place_at(bytes, token.start))),
    }
}
