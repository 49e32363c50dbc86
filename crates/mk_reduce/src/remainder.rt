//! What is left of the difference of a pair, made and reduced in one place.

ghost use Rattle.std.specs.Prelude.{◌≡◌, ◌<◌, length, Some, IfOk, OnOk, MatchResult, slice_get};
ghost use Rattle.mk_model.specs.CoreStates.{Pair, pair_of, difference};
ghost use Rattle.mk_model.specs.Reductions.{Reduct};
ghost use Rattle.mk_model.specs.Vectors.{weight, positive_part};
ghost use Rattle.mk_move.specs.MoveLists.{IsBasis, vectors_of};
ghost use Rattle.mk_reduce.specs.Leads.{leads_of};
ghost use Rattle.mk_reduce.specs.Remainders.{IsRemainder, IsRemainderFault};
ghost use Rattle.mk_reduce.specs.Traces.{IsUnweighed};

use crate::keeper::NoTrace;
use crate::reduction::reduce_keeping;
use crate::stop::Stop;
use mk_model::NoMemory;
use mk_move::{Basis, Finder, Grading, Move, OverflowAt};

/// Why there is no remainder of a pair: want of memory, or a column where an entry leaves the range: in the difference of
/// the pair, where there is no operand, or in a step from the operand by the move of a place.
#[derive(Debug, Drop)]
pub enum RemainderFault {
    Memory,
    Overflow {
        by: Option<u32>,
        operand: Option<Move>,
        at: OverflowAt,
    },
}

impl From<NoMemory> for RemainderFault {
    ghost use Rattle.std.specs.Prelude.{◌≡◌};
    ghost use Rattle.mk_reduce.specs.declared.remainder.RemainderFault.TheVariants.{Memory};

    ghost from_gives = { λ _ e. e ≡ Memory };

    fn from(_e: NoMemory) -> RemainderFault {
        RemainderFault::Memory
    }
}

/// Memory in which the difference of one pair after another is reduced. It is taken once, unless the columns change.
#[derive(Debug, Drop)]
pub struct Scratch {
    row: Option<Move>,
}

impl Scratch {
    /// One that has no memory yet.
    pub fn new() -> Scratch {
        Scratch { row: None }
    }

    /// Holds a copy of a move from now on.
    fn load(&mut self, m: &Move) -> Result<(), NoMemory>
        ensures { OnOk result (self.new.row ≡ Some m.now) }
    {
        if let Some(row) = &mut self.row {
            if row.columns() == m.columns() {
                row.copy_from(m);
                return Ok(());
            }
        }
        self.row = Some(m.try_copy()?);
        Ok(())
    }
}

/// What is left of the difference of a pair of the basis, reduced by the basis: none for zero. The leads of the finder are
/// those of the basis. The scratch is used alone, and takes memory at most once for its columns; what is left is copied.
/// (Sturmfels, chapters 1 and 5: the remainder of an S-pair)
pub fn remainder_in<F: Finder>(
    scratch: &mut Scratch,
    basis: &Basis,
    finder: &F,
    i: u32,
    j: u32,
) -> Result<Option<Move>, RemainderFault>
    requires leads { F.leads finder.now ≡ leads_of basis.now.moves }
    requires ordered { i < j }
    requires within { j < length basis.now.moves }
    ensures { MatchResult result (IsRemainder basis.now (pair_of i j)) (IsRemainderFault (vectors_of basis.now.moves) (pair_of i j)) }
{
    prove!(j < basis.len());
    scratch.load(basis.move_at(j))?;
    match &mut scratch.row {
        Some(rest) => difference_left(rest, basis, finder, i, j),
        None => unreachable!(),
    }
}

/// As `remainder_in`, in a copy of the second move.
fn difference_left<F: Finder>(
    rest: &mut Move,
    basis: &Basis,
    finder: &F,
    i: u32,
    j: u32,
) -> Result<Option<Move>, RemainderFault>
    requires basis { IsBasis basis.now }
    requires leads { F.leads finder.now ≡ leads_of basis.now.moves }
    requires ordered { i < j }
    requires second { slice_get basis.now.moves j ≡ Some rest.old }
    ensures { MatchResult result (IsRemainder basis.now (pair_of i j)) (IsRemainderFault (vectors_of basis.now.moves) (pair_of i j)) }
{
    match rest.take_off(1, basis.move_at(i)) {
        Ok(true) => normal_left(rest, basis, finder),
        Ok(false) => Ok(None),
        Err(at) => Err(RemainderFault::Overflow {
            by: None,
            operand: None,
            at,
        }),
    }
}

/// What is left of a reduct of a pair's difference, reduced in place and then copied: none for zero.
fn normal_left<F: Finder>(
    rest: &mut Move,
    basis: &Basis,
    finder: &F,
) -> Result<Option<Move>, RemainderFault>
    requires basis { IsBasis basis.now }
    requires leads { F.leads finder.now ≡ leads_of basis.now.moves }
    requires unweighed { IsUnweighed basis.now.grading rest.old }
    ensures { (pair : Pair) → Reduct (vectors_of basis.now.moves) (difference (vectors_of basis.now.moves) pair) rest.old.entries →
        MatchResult result (IsRemainder basis.now pair) (IsRemainderFault (vectors_of basis.now.moves) pair) }
{
    match reduce_keeping(rest, &mut NoTrace, basis, finder) {
        Ok(true) => Ok(Some(weighed(rest, basis.grading())?)),
        Ok(false) => Ok(None),
        Err(Stop::Memory) => Err(RemainderFault::Memory),
        Err(Stop::Overflow { by, at }) => Err(RemainderFault::Overflow {
            by,
            operand: Some(weighed(rest, basis.grading())?),
            at,
        }),
    }
}

/// A copy of a row as a move, with its weight.
fn weighed(row: &mut Move, grading: &Grading) -> Result<Move, NoMemory>
    requires { length grading.now ≡ length row.old.entries }
    ensures { IfOk result (λ m. m ≡ record row.old { weight = weight grading.now (positive_part row.old.entries) }) }
{
    row.weigh(grading);
    row.try_copy()
}
