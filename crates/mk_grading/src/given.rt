ghost use Rattle.std.specs.Prelude.{◌≡◌, ◌⊎◌, ◌≤◌, length, All, Option, Some, IfSome, IfOk, IfErr, OnOk};
ghost use Rattle.std.specs.Option.{option_copied};
ghost use Rattle.mk_model.specs.Tables.{Grid, rows_of};
ghost use Rattle.mk_model.specs.ChosenGradings.{IsGradingOf, IsSmallEntry, FitsMatrix, FitsGrade};
ghost use Rattle.mk_grading.specs.Choices.{IsGradeFault};
ghost use Rattle.mk_grading.specs.declared.fault.GradeFault.{GradeFault};

use crate::fault::GradeFault;
use crate::products::{first_product, narrowed};
use mk_files::Table;
use std::alloc::Global;

/// Whether a matrix, if one is given, has the lattice's columns, and product 0 with each lattice row.
pub(crate) fn check_matrix(
    alloc: Global,
    lat: &Table,
    mat: Option<&Table>,
) -> Result<(), GradeFault>
    requires { IfSome (option_copied mat) (λ matrix. All IsSmallEntry matrix.entries) }
    ensures fits { OnOk result (IfSome (option_copied mat.entry) (FitsMatrix lat.now)) }
    ensures caused { IfErr result (λ fault. (fault ≡ GradeFault.Memory)
        ⊎ ((grade : Option Grid) → IsGradeFault lat.now (option_copied mat.entry) grade fault)) }
{
    let Some(matrix) = mat else {
        return Ok(());
    };
    if matrix.columns() != lat.columns() {
        return Err(GradeFault::MatColumns {
            found: matrix.columns(),
            wanted: lat.columns(),
        });
    }
    for mat_row in 0..matrix.rows() {
        let numbers = narrowed(alloc, matrix.row(mat_row))?;
        if let Some((lat_row, value)) = first_product(lat, &numbers) {
            return Err(GradeFault::MatMismatch {
                mat_row,
                lat_row,
                value,
            });
        }
    }
    Ok(())
}

/// The weights of a grade, which is one row of the lattice's columns, of entries of at least 1, and has product 0 with each
/// lattice row.
pub(crate) fn weights_of(alloc: Global, lat: &Table, grade: &Table) -> Result<Vec<i64>, GradeFault>
    requires { All IsSmallEntry grade.now.entries }
    ensures value { IfOk result (λ weights. weights.items ≡ grade.now.entries) }
    ensures few { IfOk result (λ weights. length weights.items ≤ 512) }
    ensures fits { OnOk result (FitsGrade lat.now grade.now) }
    ensures graded { OnOk result (IsGradingOf lat.now grade.now.entries) }
    ensures caused { IfErr result (λ fault. (fault ≡ GradeFault.Memory)
        ⊎ ((mat : Option Grid) → IfSome mat (FitsMatrix lat.now) → IsGradeFault lat.now mat (Some grade.now) fault)) }
{
    if grade.rows() != 1 || grade.columns() != lat.columns() {
        return Err(GradeFault::GradeShape {
            rows: grade.rows(),
            columns: grade.columns(),
            wanted: lat.columns(),
        });
    }
    let row = grade.row(0);
    for (column, entry) in row.iter().enumerate() {
        if *entry < 1 {
            return Err(GradeFault::GradeNotPositive {
                column: column as u32,
                value: *entry as i64,
            });
        }
    }
    let weights = narrowed(alloc, row)?;
    match first_product(lat, &weights) {
        Some((lat_row, value)) => Err(GradeFault::GradeMismatch { lat_row, value }),
        None => Ok(weights),
    }
}
