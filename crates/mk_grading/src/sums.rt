ghost use Rattle.std.specs.Prelude.{◌≡◌, ◌^◌, length, All, IfOk, not, pos, neg_ℤ, ◌≤ℤ◌};
ghost use Rattle.std.specs.List.{list_all};
ghost use Rattle.std.specs.Int.{is_negative};
ghost use Rattle.mk_model.specs.Vectors.{add};
ghost use Rattle.mk_model.specs.ChosenGradings.{IsSmallEntry, matrix_sum};

use mk_files::Table;
use mk_model::Entry;
use std::alloc::{AllocError, Global};

/// The sum of the matrix rows without a negative entry.
pub(crate) fn sum_of_rows(alloc: Global, matrix: &Table) -> Result<Vec<i64>, AllocError>
    requires { All IsSmallEntry matrix.now.entries }
    ensures value { IfOk result (λ sums. sums.items ≡ matrix_sum matrix.now) }
    ensures columns { IfOk result (λ sums. length sums.items ≡ matrix.now.columns) }
{
    let mut sums = vec![in alloc; 0i64; matrix.columns() as usize]?;
    for r in 0..matrix.rows() {
        let row = matrix.row(r);
        if is_nonnegative(row) {
            add_row(&mut sums, row);
        }
    }
    Ok(sums)
}

/// Whether no entry of the row is negative.
fn is_nonnegative(row: &[Entry]) -> bool
    ensures { result ≡ list_all (λ a. not (is_negative a)) row.now }
{
    row.iter().all(|entry| *entry >= 0)
}

/// Adds a row to the sums.
fn add_row(sums: &mut [i64], row: &[Entry])
    requires columns { length row.now ≡ length sums.old }
    requires sums { All (λ k. (pos 0 ≤ℤ k) × (k ≤ℤ pos (2 ^ 62))) sums.old }
    requires small { All IsSmallEntry row.now }
    ensures { sums.new ≡ add sums.old row.now }
{
    for (column, entry) in row.iter().enumerate() {
        sums[column] += *entry as i64;
    }
}
