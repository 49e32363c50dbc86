ghost use Rattle.std.specs.Prelude.{◌≡◌, ◌<◌, ◌≤◌, length, slice_get, All, Some};
ghost use Rattle.mk_model.specs.Tables.{Grid, rows_of};
ghost use Rattle.mk_files.specs.Table.{IsTable};
ghost use Rattle.mk_model.specs.Vectors.{IsEntry};

use crate::bounds::{MAX_COLUMNS, MAX_ROWS};
use mk_model::Entry;
use std::marker::Model;

/// A table of integers: at most 4096 rows of at most 512 columns, with entries from `-ENTRY_MAX` to `ENTRY_MAX`.
#[derive(Debug, Drop)]
pub struct Table {
    rows: u32,
    columns: u32,
    entries: Vec<Entry>,
}

impl Model for Table {
    ghost use Rattle.mk_model.specs.Tables.{Grid};
    ghost use Rattle.mk_files.specs.Table.{IsTable};

    ghost Value = { Grid };

    ghost view = { λ t. record { rows = t.rows; columns = t.columns; entries = t.entries.items } };

    ghost invariant = { λ t.
        IsTable (record { rows = t.rows; columns = t.columns; entries = t.entries.items }) };
}

impl Table {
    /// The table of so many rows and columns, with these entries row by row, as many as rows times columns.
    pub fn from_entries(rows: u32, columns: u32, entries: Vec<Entry>) -> Table
        requires { IsTable (record { rows = rows; columns = columns; entries = entries.items }) }
        ensures grid { result ≡ record { rows = rows; columns = columns; entries = entries.items } }
        ensures kept { IsTable result }
    {
        Table {
            rows,
            columns,
            entries,
        }
    }

    /// How many rows it has, at most 4096.
    pub fn rows(&self) -> u32
        ensures value { result ≡ self.now.rows }
        ensures small { result ≤ MAX_ROWS }
        ensures kept { IsTable self.now }
    {
        self.rows
    }

    /// How many columns it has, at most 512.
    pub fn columns(&self) -> u32
        ensures value { result ≡ self.now.columns }
        ensures small { result ≤ MAX_COLUMNS }
        ensures kept { IsTable self.now }
    {
        self.columns
    }

    /// The row `r`, counted from 0 and below the number of rows: as many entries as there are columns.
    pub fn row(&self, r: u32) -> &[Entry]
        requires { r < self.now.rows }
        ensures value { slice_get (rows_of self.now) r ≡ Some result.now }
        ensures len { length result.now ≡ self.now.columns }
        ensures entries { All IsEntry result.now }
        ensures kept { IsTable self.now }
    {
        let columns = self.columns as usize;
        let start = r as usize * columns;
        &self.entries[start..start + columns]
    }
}
