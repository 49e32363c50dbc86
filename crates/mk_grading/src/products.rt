ghost use Rattle.std.specs.Prelude.{◌≡◌, ◌≤◌, length, All, IfSome, IfNone, IfOk};
ghost use Rattle.mk_model.specs.ChosenGradings.{IsSmallEntry, IsOrthogonal, IsFirstProduct};

use mk_files::Table;
use mk_model::Entry;
use mk_move::product_of;
use std::alloc::{AllocError, Global};

/// The first row of the lattice whose product with these weights isn't 0, and that product.
pub(crate) fn first_product(lat: &Table, weights: &[i64]) -> Option<(u32, i128)>
    requires columns { length weights.now ≡ lat.now.columns }
    requires small { All IsSmallEntry weights.now }
    ensures found { IfSome result (λ found. IsFirstProduct lat.now weights.now found.0 found.1) }
    ensures none { IfNone result (IsOrthogonal lat.now weights.now) }
{
    for lat_row in 0..lat.rows() {
        let value = product_of(weights, lat.row(lat_row));
        if value != 0 {
            return Some((lat_row, value));
        }
    }
    None
}

/// A row of a matrix, or of a grade, in 64 bits: its entries are from -2147483647 to 2147483647.
pub(crate) fn narrowed(alloc: Global, row: &[Entry]) -> Result<Vec<i64>, AllocError>
    requires { All IsSmallEntry row.now }
    ensures { IfOk result (λ numbers. numbers.items ≡ row.now) }
{
    let mut numbers = Vec::with_capacity(alloc, row.len())?;
    for entry in row {
        numbers.push(*entry as i64)?;
    }
    Ok(numbers)
}
