use mk_model::Entry;

/// The most rows of any table.
pub const MAX_ROWS: u32 = 4096;

/// The most columns of any table.
pub const MAX_COLUMNS: u32 = 512;

/// What a table may have: at most so many rows, at most 4096, and so many columns, at most 512, and entries from the
/// least to the most, both from `-ENTRY_MAX` to `ENTRY_MAX`.
#[derive(Clone, Copy, Debug, PartialEq, Eq)]
pub struct Bounds {
    pub rows: u32,
    pub columns: u32,
    pub least: Entry,
    pub most: Entry,
}
