ghost use Rattle.std.specs.Prelude.{◌≡◌, ◌≤◌, ◌<◌, ◌^◌, unsigned_abs, length, IfOk, IfErr, All};
ghost use Rattle.mk_model.specs.Vectors.{entry, weight, positive_part, IsEntry};
ghost use Rattle.mk_model.specs.ChosenGradings.{IsSmallEntry};
ghost use Rattle.mk_move.specs.Gradings.{IsWeight, AreWeights, IsGradingFault};

use mk_model::{Entry, NoMemory};
use std::alloc::{AllocError, Global};
use std::marker::Model;

/// The largest weight of a column.
const WEIGHT_MAX: i64 = 2147483647;

/// Why weights are no grading.
#[derive(Clone, Copy, Debug, PartialEq, Eq)]
pub enum GradingFault {
    Memory,
    NotInRange { column: u32, value: i64 },
}

impl From<AllocError> for GradingFault {
    ghost use Rattle.std.specs.Prelude.{◌≡◌};
    ghost use Rattle.mk_move.specs.declared.grading.GradingFault.TheVariants.{Memory};

    ghost from_gives = { λ _ e. e ≡ Memory };

    fn from(_e: AllocError) -> GradingFault {
        GradingFault::Memory
    }
}

/// A positive weight for each column: from 1 to 2147483647, of at most 512 columns. (Sturmfels, chapter 4)
#[derive(Debug, Drop)]
pub struct Grading {
    weights: Vec<i64>,
}

impl Model for Grading {
    ghost use Rattle.std.specs.Prelude.{List, ℤ};
    ghost use Rattle.mk_move.specs.Gradings.{AreWeights};

    ghost Value = { List ℤ };

    ghost view = { λ g. g.weights.items };

    ghost invariant = { λ g. AreWeights g.weights.items };
}

impl Grading {
    /// The grading of these weights, one for each column. `NotInRange` names the first weight that is out of range.
    pub fn new(alloc: Global, weights: &[i64]) -> Result<Grading, GradingFault>
        requires { length weights.now ≤ 512 }
        ensures value { IfOk result (λ grading. grading ≡ weights.now) }
        ensures weights { IfOk result AreWeights }
        ensures refused { IfErr result (IsGradingFault weights.now) }
    {
        for (column, value) in weights.iter().enumerate() {
            if *value < 1 || *value > WEIGHT_MAX {
                return Err(GradingFault::NotInRange {
                    column: column as u32,
                    value: *value,
                });
            }
        }
        Ok(Grading {
            weights: Vec::from_slice(alloc, weights)?,
        })
    }

    /// How many columns it has.
    pub fn columns(&self) -> u32
        ensures value { result ≡ length self.now }
        ensures kept { AreWeights self.now }
    {
        self.weights.len() as u32
    }

    /// A copy of it.
    pub fn try_copy(&self) -> Result<Grading, NoMemory>
        ensures { IfOk result (λ copy. copy ≡ self.now) }
    {
        let alloc = *self.weights.allocator();
        Ok(Grading {
            weights: Vec::from_slice(alloc, &self.weights)?,
        })
    }

    /// The weight of a column: from 1 to 2147483647.
    pub fn weight_at(&self, column: u32) -> i64
        requires { column < length self.now }
        ensures value { result ≡ entry self.now column }
        ensures range { IsWeight result }
    {
        self.weights[column as usize]
    }

    /// The product with a row of as many columns: below 2^121 in absolute value.
    pub fn product(&self, row: &[Entry]) -> i128
        requires columns { length row.now ≡ length self.now }
        requires entries { All IsEntry row.now }
        ensures value { result ≡ weight self.now row.now }
        ensures small { unsigned_abs result < 2 ^ 121 }
        ensures kept { AreWeights self.now }
    {
        product_of(&self.weights, row)
    }

    /// The product with the positive part of a row of as many columns: below 2^121.
    pub fn lead_weight(&self, row: &[Entry]) -> i128
        requires columns { length row.now ≡ length self.now }
        requires entries { All IsEntry row.now }
        ensures value { result ≡ weight self.now (positive_part row.now) }
        ensures small { unsigned_abs result < 2 ^ 121 }
    {
        lead_product_of(&self.weights, row)
    }
}

/// The product of at most 512 numbers, from -2147483647 to 2147483647, and a row of as many columns.
pub fn product_of(weights: &[i64], row: &[Entry]) -> i128
    requires columns { length row.now ≡ length weights.now }
    requires few { length weights.now ≤ 512 }
    requires small { All IsSmallEntry weights.now }
    requires entries { All IsEntry row.now }
    ensures { result ≡ weight weights.now row.now }
{
    let mut total: i128 = 0;
    for (column, entry) in row.iter().enumerate() {
        total += i128::from(weights[column]) * *entry;
    }
    total
}

/// The product with the positive part of a row of as many columns.
fn lead_product_of(weights: &[i64], row: &[Entry]) -> i128
    requires columns { length row.now ≡ length weights.now }
    requires weights { AreWeights weights.now }
    requires entries { All IsEntry row.now }
    ensures { result ≡ weight weights.now (positive_part row.now) }
{
    let mut total: i128 = 0;
    for (column, entry) in row.iter().enumerate() {
        total += i128::from(weights[column]) * (*entry).max(0);
    }
    total
}
