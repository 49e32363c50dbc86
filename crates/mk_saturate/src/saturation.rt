ghost use Rattle.std.specs.Prelude.{◌≡◌, ◌+◌, ℕ, ◌<◌, ◌≤◌, true, false, ◌∷◌, length, replicate, set, All, IfOk, OnOk, OnErr, pos};
ghost use Rattle.mk_model.specs.FreeColumns.{is_left, columns_left, freed_by_rows};
ghost use Rattle.mk_model.specs.Lattices.{SameLattice};
ghost use Rattle.mk_model.specs.Orders.{standard};
ghost use Rattle.mk_model.specs.Tables.{rows_of};
ghost use Rattle.mk_model.specs.Vectors.{weight};
ghost use Rattle.mk_move.specs.MoveLists.{vectors_of};
ghost use Rattle.mk_move.specs.Priorities.{others};
ghost use Rattle.mk_saturate.specs.Starts.{IsStart};
ghost use Rattle.mk_saturate.specs.Saturations.{IsSaturation, IsLeastLeft, NoneLeft, IsJob, IsNextJob, IsPhaseFromBasis, IsNeeded, IsDropped};

use crate::columns::{least_left, saturate_least};
use crate::freeing::free_by_moves;
use crate::start::start_basis;
use crate::turning::job_along;
use mk_core::{Completed, Job, SaturatedBasis, drop_redundant};
use mk_files::Table;
use mk_model::NoMemory;
use mk_move::{Basis, Grading, MoveFault, Priority};
use std::alloc::Global;
use std::marker::Model;

/// The saturation of a lattice: moves that span it, and the columns that aren't saturated yet. Up to these columns the moves
/// connect all nonnegative vectors that differ by the lattice. (Sturmfels, chapter 12; Hemmecke and Malkin 2009)
#[derive(Debug, Drop)]
pub struct Saturation {
    basis: Basis,
    left: Vec<bool>,
}

impl Model for Saturation {
    ghost use Rattle.mk_saturate.specs.Saturations.{SaturationView, IsSaturation};

    ghost Value = { SaturationView };

    ghost view = { λ s. record { basis = s.basis; left = s.left.items } };

    ghost invariant = { λ s. IsSaturation (record { basis = s.basis; left = s.left.items }) };
}

impl Saturation {
    /// The saturation that a lattice's rows begin, with every column unsaturated: the rows that are not zero, oriented by the
    /// standard list. The grading has as many columns as the table, and product 0 with each row.
    pub fn start(alloc: Global, lat: &Table, grading: &Grading) -> Result<Saturation, NoMemory>
        requires columns { length grading.now ≡ lat.now.columns }
        requires graded { All (λ row. weight grading.now row ≡ pos 0) (rows_of lat.now) }
        ensures basis { IfOk result (λ saturation.
            IsStart (rows_of lat.now) grading.now (standard lat.now.columns) saturation.basis) }
        ensures left { IfOk result (λ saturation.
            saturation.left ≡ replicate lat.now.columns true) }
        ensures lattice { IfOk result (λ saturation.
            SameLattice lat.now.columns (rows_of lat.now) (vectors_of saturation.basis.moves)) }
    {
        let basis = begin(alloc, lat, grading)?;
        let left = vec![in alloc; true; lat.columns() as usize]?;
        Ok(Saturation { basis, left })
    }

    /// Is a column unsaturated?
    pub fn is_left(&self, column: u32) -> bool
        requires { column < length self.now.left }
        ensures value { result ≡ is_left self.now.left column }
        ensures kept { IsSaturation self.now }
    {
        self.left[column as usize]
    }

    /// Saturates the free columns without completion, and answers how many. The moves go by in their order, each as the standard
    /// list orients it and then as the negative of that: where all columns of its negative part are unsaturated, those of its
    /// positive part are saturated.
    pub fn free_columns(&mut self) -> u32
        ensures left { self.new
            ≡ record self.old {
              left = freed_by_rows (standard (length self.old.basis.grading))
                  (vectors_of self.old.basis.moves) self.old.left;
            } }
        ensures count { length (columns_left self.old.left)
            ≡ result + length (columns_left self.new.left) }
    {
        free_by_moves(&self.basis, &mut self.left)
    }

    /// The job of the least unsaturated column, along the list that names it first, and none exactly where no column is left.
    pub fn next_job(&self, alloc: Global, budget: u64) -> Result<Option<Job>, NoMemory>
        ensures { IfOk result (IsNextJob self.now budget) }
    {
        let Some(column) = least_left(&self.left) else {
            return Ok(None);
        };
        let priority = Priority::first(alloc, self.basis.grading().columns(), column)?;
        Ok(Some(job_along(alloc, &self.basis, priority, budget)?))
    }

    /// Takes what completes the next job: its moves that are not redundant are the moves from now on, and its column is
    /// saturated. After a refusal all is as before.
    pub fn accept(&mut self, completed: &Completed) -> Result<(), NoMemory>
        requires { (column : ℕ) × IsLeastLeft self.old.left column
            × IsPhaseFromBasis self.old.basis (column ∷ others column
            (length self.old.basis.grading)) completed.now }
        ensures basis { OnOk result (IsDropped self.old.basis completed.now self.new.basis) }
        ensures left { OnOk result
            ((column : ℕ) × IsLeastLeft self.old.left column
            × (self.new.left ≡ set self.old.left column false)) }
        ensures err { OnErr result (self.new ≡ self.old) }
    {
        let kept = needed(completed)?;
        saturate_least(&mut self.left);
        self.basis = kept;
        Ok(())
    }

    /// The last job, along the standard list, once no column is left.
    pub fn final_job(&self, alloc: Global, budget: u64) -> Result<Job, NoMemory>
        requires { NoneLeft self.now.left }
        ensures { IfOk result
            (IsJob self.now.basis (standard (length self.now.basis.grading)) budget) }
    {
        let priority = Priority::standard(alloc, self.basis.grading().columns())?;
        job_along(alloc, &self.basis, priority, budget)
    }

    /// The saturated basis that completing the last job gives: its moves that are not redundant.
    pub fn finish(&self, completed: &Completed) -> Result<SaturatedBasis, NoMemory>
        requires none_left { NoneLeft self.now.left }
        requires last { IsPhaseFromBasis self.now.basis
            (standard (length self.now.basis.grading)) completed.now }
        ensures { IfOk result (IsDropped self.now.basis completed.now) }
    {
        // What a saturation keeps is known once a field is used.
        let _ = &self.basis;
        let kept = needed(completed)?;
        Ok(SaturatedBasis::new(kept))
    }
}

/// The basis that a table's rows begin, along the standard list.
fn begin(alloc: Global, lat: &Table, grading: &Grading) -> Result<Basis, NoMemory>
    requires columns { length grading.now ≡ lat.now.columns }
    requires graded { All (λ row. weight grading.now row ≡ pos 0) (rows_of lat.now) }
    ensures start { IfOk result (λ basis.
        IsStart (rows_of lat.now) grading.now (standard lat.now.columns) basis) }
    ensures few_moves { IfOk result (λ basis. length basis.moves ≤ 4096) }
{
    let priority = Priority::standard(alloc, lat.columns())?;
    match start_basis(alloc, lat, grading.try_copy()?, priority) {
        Ok(basis) => Ok(basis),
        Err(MoveFault::Memory) => Err(NoMemory),
        Err(MoveFault::NotGraded { .. }) => unreachable!(),
    }
}

/// The moves of a completed phase that are not redundant.
fn needed(completed: &Completed) -> Result<Basis, NoMemory>
    ensures { IfOk result (IsNeeded completed.now) }
{
    let kept = drop_redundant(&completed.phase().basis)?;
    // What a basis keeps is known once a call tells it.
    let _ = kept.len();
    Ok(kept)
}
