ghost use Rattle.std.specs.Prelude.{◌≡◌, ◌≢◌, ◌≤◌, ◌<◌, ℕ, length, All};
ghost use Rattle.std.specs.Int.{bit_at};
ghost use Rattle.mk_model.specs.Vectors.{IsEntry};
ghost use Rattle.mk_move.specs.Masks.{block_width, least_unmasked, AreMasks};

use mk_model::Entry;

/// The masks of the positive and the negative part of a row of at most 512 columns: a bit for each block of columns, set
/// where the part has an entry there. The blocks stand in the order of the columns.
pub(crate) fn masks_of(row: &[Entry]) -> (u64, u64)
    requires few { length row.now ≤ 512 }
    requires entries { All IsEntry row.now }
    ensures { AreMasks row.now result.0 result.1 }
{
    let width = block_width(row.len());
    let mut plus: u64 = 0;
    let mut minus: u64 = 0;
    for (column, entry) in row.iter().enumerate() {
        if *entry > 0 {
            plus |= 1 << (column / width);
        } else if *entry < 0 {
            minus |= 1 << (column / width);
        }
    }
    (plus, minus)
}

/// The place of the lowest bit that is set, and the other bits.
pub fn first_bit(bits: u64) -> (u32, u64)
    requires { bits ≢ 0 }
    ensures range { result.0 < 64 }
    ensures set { bit_at bits result.0 ≡ 1 }
    ensures cleared { bit_at result.1 result.0 ≡ 0 }
    ensures others { (place : ℕ) → place < 64 → place ≢ result.0 → bit_at result.1 place ≡ bit_at bits place }
    ensures fewer { result.1 < bits }
{
    (bits.trailing_zeros(), bits & (bits - 1))
}

/// The least entry that the mask of a vector of so many columns doesn't give: with at most 64 columns it gives an entry 1.
pub fn least_unmasked(columns: u32) -> Entry
    ensures value { result ≡ least_unmasked columns }
    ensures range { IsEntry result }
{
    if columns <= 64 { 2 } else { 1 }
}

/// How many columns a block has, of so many columns: 1 for up to 64 columns, and 8 for 512.
fn block_width(columns: usize) -> usize
    requires { columns ≤ 512 }
    ensures { result ≡ block_width columns }
{
    columns.div_ceil(64).max(1)
}
