ghost use Rattle.std.specs.Prelude.{◌≡◌, ◌≤◌, ◌⊎◌, length, List, All, Any, None, IfSome, IfOk, IfErr, ℤ};
ghost use Rattle.std.specs.Option.{option_copied};
ghost use Rattle.mk_model.specs.Tables.{rows_of};
ghost use Rattle.mk_model.specs.ChosenGradings.{IsGradingOf, IsSmallEntry, IsColumnWeight, FitsMatrix, IsGradeOf, IsOnesOrSum, HasNoSource};
ghost use Rattle.mk_grading.specs.Choices.{IsGradeFault};
ghost use Rattle.mk_grading.specs.declared.fault.GradeFault.{GradeFault};

use crate::fault::GradeFault;
use crate::given::{check_matrix, weights_of};
use crate::products::first_product;
use crate::sums::sum_of_rows;
use mk_files::Table;
use mk_move::{Grading, GradingFault};
use std::alloc::Global;

/// The grading of a lattice, beside which a matrix and a grade may be given: the grade; else all ones, where each lattice row
/// has sum 0; else the sum of the matrix rows without a negative entry, where each entry of it is from 1 to 2147483647. The
/// faults are tried in the order in which they stand. The entries of the matrix and of the grade are from -2147483647 to
/// 2147483647.
pub fn choose(
    alloc: Global,
    lat: &Table,
    mat: Option<&Table>,
    grade: Option<&Table>,
) -> Result<Grading, GradeFault>
    requires matrix { IfSome (option_copied mat) (λ matrix. All IsSmallEntry matrix.entries) }
    requires grade { IfSome (option_copied grade) (λ given. All IsSmallEntry given.entries) }
    ensures chosen { IfOk result (IsGradeOf lat.now (option_copied mat.entry) (option_copied grade.entry)) }
    ensures graded { IfOk result (IsGradingOf lat.now) }
    ensures caused { IfErr result (λ fault. (fault ≡ GradeFault.Memory)
        ⊎ IsGradeFault lat.now (option_copied mat.entry) (option_copied grade.entry) fault) }
    ensures answered { (w : List ℤ) → IsGradeOf lat.now (option_copied mat.entry) (option_copied grade.entry) w →
        (result ≡ Ok w) ⊎ (result ≡ Err GradeFault.Memory) }
    ensures refused { (fault : GradeFault) → IsGradeFault lat.now (option_copied mat.entry) (option_copied grade.entry) fault →
        (result ≡ Err fault) ⊎ (result ≡ Err GradeFault.Memory) }
{
    check_matrix(alloc, lat, mat)?;
    let Some(given) = grade else {
        return ones_or_sum(alloc, lat, mat);
    };
    let weights = weights_of(alloc, lat, given)?;
    grading_of(alloc, &weights)
}

/// The grading of a lattice that comes without a grade, beside which a matrix may be given.
fn ones_or_sum(alloc: Global, lat: &Table, mat: Option<&Table>) -> Result<Grading, GradeFault>
    requires small { IfSome (option_copied mat) (λ matrix. All IsSmallEntry matrix.entries) }
    requires fits { IfSome (option_copied mat) (FitsMatrix lat.now) }
    ensures chosen { IfOk result (IsOnesOrSum lat.now (option_copied mat.entry)) }
    ensures graded { IfOk result (IsGradingOf lat.now) }
    ensures caused { IfErr result (λ fault. (fault ≡ GradeFault.Memory)
        ⊎ ((fault ≡ GradeFault.NoGrading) × HasNoSource lat.now (option_copied mat.entry) None)) }
{
    let ones = vec![in alloc; 1i64; lat.columns() as usize]?;
    if first_product(lat, &ones).is_none() {
        return grading_of(alloc, &ones);
    }
    let Some(matrix) = mat else {
        return Err(GradeFault::NoGrading);
    };
    let sums = sum_of_rows(alloc, matrix)?;
    grading_of(alloc, &sums)
}

/// The grading of these weights. `NoGrading` where some weight is out of range.
fn grading_of(alloc: Global, weights: &[i64]) -> Result<Grading, GradeFault>
    requires { length weights.now ≤ 512 }
    ensures value { IfOk result (λ grading. grading ≡ weights.now) }
    ensures weights { IfOk result (All IsColumnWeight) }
    ensures refused { IfErr result (λ fault. (fault ≡ GradeFault.Memory)
        ⊎ ((fault ≡ GradeFault.NoGrading) × Any (λ k. ¬ (IsColumnWeight k)) weights.now)) }
{
    match Grading::new(alloc, weights) {
        Ok(grading) => Ok(grading),
        Err(GradingFault::Memory) => Err(GradeFault::Memory),
        Err(GradingFault::NotInRange { .. }) => Err(GradeFault::NoGrading),
    }
}
