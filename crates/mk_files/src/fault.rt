ghost use Rattle.std.specs.Prelude.{◌≡◌, ◌≤◌, length};
ghost use Rattle.mk_files.specs.Places.{place_at};
ghost use Rattle.mk_files.specs.declared.fault.TableFault.TheVariants.{Memory};

use std::alloc::AllocFailed;

/// A place in a text: its line, counted from 1, and its byte, counted from 0 over the whole text.
#[derive(Debug, Clone, Copy, PartialEq, Eq)]
pub struct Place {
    pub line: u64,
    pub byte: u64,
}

/// Why a table is not read. The place is the first byte of the token at fault, or the end of the text.
#[derive(Debug, Clone, Copy, PartialEq, Eq)]
pub enum TableFault {
    /// There is no memory left.
    Memory,
    /// The text ends before it has both the number of rows and the number of columns; it has `found` of the two.
    NoHeader {
        place: Place,
        found: u32,
    },
    /// The token is no number, or has a minus where a number of rows or columns is wanted.
    BadNumber(Place),
    /// More rows than the bounds allow.
    Rows(Place),
    /// More columns than the bounds allow.
    Columns(Place),
    /// An entry below the least or above the most.
    EntryRange(Place),
    /// The text ends behind `found` of `wanted` entries.
    Missing {
        place: Place,
        found: u64,
        wanted: u64,
    },
    /// A token follows the last entry.
    Trailing(Place),
}

impl<T: Drop> From<AllocFailed<T>> for TableFault {
    ghost from_gives = { λ _ e. e ≡ Memory };

    fn from(_e: AllocFailed<T>) -> TableFault {
        TableFault::Memory
    }
}

/// The place of a byte of the text, or of its end. The lines in front of it are counted.
pub fn place_at(bytes: &[u8], byte: usize) -> Place
    requires { byte ≤ length bytes.now }
    ensures { result ≡ place_at bytes.now byte }
{
    let ends = bytes[..byte].iter().filter(|b| **b == b'\n').count();
    Place {
        line: ends as u64 + 1,
        byte: byte as u64,
    }
}
