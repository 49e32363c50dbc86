ghost use Rattle.std.specs.Prelude.{◌≡◌, length, IfErr, OnOk, OnErr, IfSome, IfNone};
ghost use Rattle.mk_model.specs.Vectors.{IsEntry};
ghost use Rattle.mk_model.specs.Reductions.{IsNormal};
ghost use Rattle.mk_move.specs.MoveLists.{IsBasis, vectors_of};
ghost use Rattle.mk_move.specs.Sides.{part_of, DividesAt};
ghost use Rattle.mk_reduce.specs.Leads.{leads_of};
ghost use Rattle.mk_reduce.specs.Traces.{IsUnweighed, ReducesKeeping};
ghost use Rattle.mk_reduce.specs.Works.{WorkOf, IsReductionStep, IsReduced, ContinuesWork};
ghost use Rattle.mk_reduce.specs.Stops.{IsStepRefused};

use crate::keeper::StepKeeper;
use crate::step::Step;
use crate::stop::Stop;
use crate::work::Work;
use mk_move::{Basis, Finder, Move, Side, times_dividing};

/// Reduces the work on a pair by the basis until nothing is left, or what is left is normal: no lead of the basis divides
/// either part. Each step takes a move off as many times as its lead divides; by which move, and on which part, is free.
/// The leads of the finder are those of the basis. `Overflow` names the move and the first column by which a step from
/// what is kept leaves the range. After a refusal the steps done stay, and the front is 0. (Sturmfels, chapters 1 and 5:
/// reduction to a normal form)
pub fn reduce<F: Finder>(work: &mut Work, basis: &Basis, finder: &F) -> Result<(), Stop>
    requires leads { F.leads finder.now ≡ leads_of basis.now.moves }
    requires work { WorkOf work.old basis.now }
    ensures work { WorkOf work.new basis.now }
    ensures pair { work.new.pair ≡ work.old.pair }
    ensures front { OnOk result (work.new.front ≡ length basis.now.moves) }
    ensures reduced { OnOk result (IsReduced (vectors_of basis.now.moves) work.new.remainder) }
    ensures refused { OnErr result (work.new.front ≡ 0) }
    ensures stop { IfErr result (IsStepRefused basis.now.moves work.old.pair work.new.remainder) }
    ensures stays { ContinuesWork work.old.trace work.new.trace }
{
    work.front = basis.len();
    let Some(rest) = &mut work.remainder else {
        return Ok(());
    };
    match reduce_keeping(rest, &mut work.trace, basis, finder) {
        Ok(true) => {
            rest.weigh(basis.grading());
            prove!(rest.columns() == basis.grading().columns());
            Ok(())
        }
        Ok(false) => {
            work.remainder = None;
            Ok(())
        }
        Err(stop) => {
            rest.weigh(basis.grading());
            prove!(rest.columns() == basis.grading().columns());
            work.front = 0;
            Err(stop)
        }
    }
}

/// Reduces a row by the basis until no lead divides either part: true; or until a step leaves zero: false; or until a step
/// is refused. The steps are kept behind the earlier ones. The weight of the row isn't kept.
pub(crate) fn reduce_keeping<F: Finder, K: StepKeeper>(
    rest: &mut Move,
    keeper: &mut K,
    basis: &Basis,
    finder: &F,
) -> Result<bool, Stop>
    requires basis { IsBasis basis.now }
    requires leads { F.leads finder.now ≡ leads_of basis.now.moves }
    requires unweighed { IsUnweighed basis.now.grading rest.old }
    ensures { ReducesKeeping basis.now rest.old.entries (K.has keeper.old) result rest.new (K.has keeper.new) }
{
    while let Some(step) = next_step(rest, basis, finder) {
        // Where there is no memory for the step, nothing has changed yet.
        keeper.keep(step)?;
        match rest.take_off(step.times, basis.move_at(step.place)) {
            Ok(true) => {}
            Ok(false) => return Ok(false),
            Err(at) => {
                keeper.take_back();
                return Err(Stop::Overflow {
                    by: Some(step.place),
                    at,
                });
            }
        }
    }
    Ok(true)
}

/// The step by the move of a place, whose lead divides the part of `rest` on that side, as many times as it does.
fn step_at(rest: &Move, basis: &Basis, place: u32, side: Side) -> Step
    requires basis { IsBasis basis.now }
    requires columns { length rest.now.entries ≡ length basis.now.grading }
    requires divides { DividesAt (leads_of basis.now.moves) (part_of side rest.now.entries) place }
    ensures step { IsReductionStep (vectors_of basis.now.moves) rest.now.entries result }
    ensures times { IsEntry result.times }
{
    let count = times_dividing(basis.move_at(place), rest, side);
    match side {
        Side::Plus => Step {
            times: count,
            place,
        },
        Side::Minus => Step {
            times: -count,
            place,
        },
    }
}

/// A step of reduction of a move, by which move and on which part is free; none exactly where it is normal. The part that is
/// likely the greater is tried first: two monomials that have one normal form meet sooner where the greater is reduced.
fn next_step<F: Finder>(rest: &Move, basis: &Basis, finder: &F) -> Option<Step>
    requires basis { IsBasis basis.now }
    requires leads { F.leads finder.now ≡ leads_of basis.now.moves }
    requires columns { length rest.now.entries ≡ length basis.now.grading }
    ensures found { IfSome result (IsReductionStep (vectors_of basis.now.moves) rest.now.entries) }
    ensures times { IfSome result (λ step. IsEntry step.times) }
    ensures none { IfNone result (IsNormal (vectors_of basis.now.moves) rest.now.entries) }
{
    prove!(rest.columns() == basis.grading().columns());
    let (first, second) = rest.likely_sides(basis.priority());
    if let Some(place) = finder.find(rest, first) {
        return Some(step_at(rest, basis, place, first));
    }
    let place = finder.find(rest, second)?;
    Some(step_at(rest, basis, place, second))
}
