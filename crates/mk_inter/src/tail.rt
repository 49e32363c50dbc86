ghost use Rattle.std.specs.Prelude.{◌≡◌, ◌≢◌, ◌<◌, IfOk, IfErr, length};
ghost use Rattle.mk_model.specs.Vectors.{zeros, IsEntry};
ghost use Rattle.mk_model.specs.CoreStates.{move_at};
ghost use Rattle.mk_model.specs.Orders.{IsBelow, standard, lead, tail};
ghost use Rattle.mk_model.specs.Reductions.{Divides};
ghost use Rattle.mk_move.specs.MoveLists.{vectors_of};
ghost use Rattle.mk_reduce.specs.Leads.{leads_of};
ghost use Rattle.mk_core.specs.SaturatedBases.{IsSaturated};
ghost use Rattle.mk_inter.specs.Tails.{IsTailFault};
ghost use Rattle.mk_inter.specs.TailSteps.{HasTailReduced, IsTailStep, IsTimesAdded, IsReducedFrom};

use crate::tails::TailFault;
use mk_core::LeadFinder;
use mk_model::Entry;
use mk_move::{Basis, Finder, Move, Side, StepFault, subtract_times, times_dividing};
use std::alloc::Global;

/// The move of an index of a saturated basis, with its tail reduced until no lead divides it.
pub(crate) fn reduce_tail(
    alloc: Global,
    basis: &Basis,
    finder: &LeadFinder,
    index: u32,
) -> Result<Move, TailFault>
    requires saturated { IsSaturated basis.now }
    requires leads { finder.now ≡ leads_of basis.now.moves }
    requires of_list { index < length basis.now.moves }
    ensures reduced { IfOk result
        (IsReducedFrom basis.now (move_at (vectors_of basis.now.moves) index)) }
    ensures refused { IfErr result (IsTailFault basis.now) }
{
    let mut rest = basis.move_at(index).try_copy()?;
    while let Some(place) = finder.find(&rest, Side::Minus) {
        rest = tail_step(alloc, basis, index, rest, place)?;
    }
    Ok(rest)
}

/// One step on a tail: as many times the move of the place as its lead divides the tail are added.
fn tail_step(
    alloc: Global,
    basis: &Basis,
    index: u32,
    rest: Move,
    place: u32,
) -> Result<Move, TailFault>
    requires saturated { IsSaturated basis.now }
    requires step { IsTailStep basis.now index place rest }
    ensures reduced { IfOk result (HasTailReduced basis.now index) }
    ensures falls { IfOk result (λ next.
        IsBelow (standard (length basis.now.grading)) (tail next.entries) (tail rest.entries)) }
    ensures refused { IfErr result (IsTailFault basis.now) }
{
    let by = basis.move_at(place);
    let times = added_times(by, &rest);
    match subtract_times(alloc, &rest, times, by, basis.grading()) {
        Ok(Some(next)) => Ok(next),
        Ok(None) => unreachable!(),
        Err(StepFault::Memory) => Err(TailFault::Memory),
        Err(StepFault::Overflow(at)) => Err(TailFault::Overflow {
            index,
            by: place,
            operand: rest,
            at,
        }),
    }
}

/// Minus the number of times that the lead of `by` divides the tail of `rest`: at least once.
fn added_times(by: &Move, rest: &Move) -> Entry
    requires columns { length by.now.entries ≡ length rest.now.entries }
    requires not_zero { lead by.now.entries ≢ zeros (length by.now.entries) }
    requires divides { Divides (lead by.now.entries) (tail rest.now.entries) }
    ensures times { IsTimesAdded by.now.entries rest.now.entries result }
    ensures range { IsEntry result }
{
    -times_dividing(by, rest, Side::Minus)
}
