ghost use Rattle.std.specs.Prelude.{◌≡◌, ◌≤◌, ◌<◌, ℕ, List, Option, ℤ, length, All, IfOk, IfErr, OnOk, IsTrue, ◌↔◌, MatchResult};
ghost use Rattle.mk_model.specs.Bases.{IsUpTo};
ghost use Rattle.mk_model.specs.CoreStates.{pair_of, IsPairOf};
ghost use Rattle.mk_model.specs.Orders.{lead};
ghost use Rattle.mk_move.specs.MoveLists.{BelongsTo, vectors_of};
ghost use Rattle.mk_move.specs.Gradings.{AreWeights};
ghost use Rattle.mk_reduce.specs.Works.{IsRest};
ghost use Rattle.mk_inter.specs.Tails.{IsReducedList};
ghost use Rattle.mk_reduce.specs.Remainders.{IsRemainder};
ghost use Rattle.mk_minimise.specs.Minimal.{IsMinimiseFault, IsPairFault};
ghost use Rattle.mk_minimise.specs.Stages.{weight_at, IsFront, IsAsHeavy, IsPlaceUpTo, IsWeightRun, HasLead, TellsLeast, AreChosen};

use crate::links::{add_link, is_end};
use crate::lower::Lower;
use crate::minimal::MinimiseFault;
use crate::overlaps::overlaps_of;
use mk_core::{WorkFault, work_on};
use mk_model::NoMemory;
use mk_move::{Basis, Move, Side};
use mk_reduce::Scratch;
use std::alloc::Global;

/// The end of the run of moves of one weight that begins at a place.
pub(crate) fn end_of_weight(basis: &Basis, start: u32) -> u32
    requires reduced { IsReducedList basis.now }
    requires within { start < length basis.now.moves }
    ensures { IsWeightRun basis.now start result }
{
    let mut end = start + 1;
    while is_as_heavy(basis, start, end) {
        end += 1;
    }
    end
}

/// Is the place one of the basis, with a move as heavy as that of the start?
fn is_as_heavy(basis: &Basis, start: u32, place: u32) -> bool
    requires { start < length basis.now.moves }
    ensures { IsTrue result ↔ IsAsHeavy basis.now start place }
{
    place < basis.len() && basis.move_at(place).weight() == basis.move_at(start).weight()
}

/// Is the place one of the basis, with a move of a weight up to the bound?
pub(crate) fn is_up_to(basis: &Basis, place: u32, upto: Option<u64>) -> bool
    ensures { IsTrue result ↔ IsPlaceUpTo basis.now upto place }
{
    place < basis.len() && is_weight_up_to(basis.move_at(place).weight(), upto)
}

/// Is the weight at most the bound, or is there no bound?
fn is_weight_up_to(weight: i128, upto: Option<u64>) -> bool
    ensures { IsTrue result ↔ IsUpTo upto weight }
{
    match upto {
        Some(bound) => weight <= i128::from(bound),
        None => true,
    }
}

/// The links of the weight that follows the lower moves: from what is left of the differences of the pairs of lower moves
/// that overlap with this weight.
pub(crate) fn links_of(
    alloc: Global,
    basis: &Basis,
    lower: &Lower,
) -> Result<Vec<Move>, MinimiseFault>
    requires reduced { IsReducedList basis.now }
    requires front { IsFront basis.now lower.now }
    requires within { length lower.now.moves < length basis.now.moves }
    ensures tells { IfOk result (λ links.
        TellsLeast (length basis.now.grading) basis.now.grading (vectors_of basis.now.moves)
        (weight_at basis.now (length lower.now.moves)) (vectors_of links.items)) }
    ensures belongs { IfOk result (λ links.
        All (BelongsTo basis.now.priority basis.now.grading) links.items) }
    ensures refused { IfErr result (λ fault.
        (upto : Option ℕ) → IsUpTo upto (weight_at basis.now (length lower.now.moves)) →
        IsMinimiseFault basis.now upto fault) }
{
    let weight = basis.move_at(lower.len()).weight();
    let mut links = Vec::new(alloc);
    let mut scratch = Scratch::new();
    let pairs = overlaps_of(alloc, lower.basis(), weight)?;
    for pair in &pairs {
        if let Some(rest) = remainder_of(&mut scratch, lower, pair.first, pair.second)? {
            add_link(alloc, rest, basis, &mut links)?;
        }
    }
    Ok(links)
}

/// What is left of the difference of a pair of lower moves, reduced by them: none for zero.
pub(crate) fn remainder_of(
    scratch: &mut Scratch,
    lower: &Lower,
    i: u32,
    j: u32,
) -> Result<Option<Move>, MinimiseFault>
    requires pair { IsPairOf (vectors_of lower.now.moves) (pair_of i j) }
    ensures { MatchResult result (IsRemainder lower.now (pair_of i j))
        (IsPairFault (vectors_of lower.now.moves) (pair_of i j)) }
{
    match work_on(scratch, lower.basis(), lower.finder(), i, j) {
        Ok(rest) => Ok(rest),
        Err(WorkFault::Memory) => Err(MinimiseFault::Memory),
        Err(WorkFault::Overflow(stop)) => Err(MinimiseFault::Overflow {
            i: stop.i,
            j: stop.j,
            by: stop.by,
            operand: stop.operand,
            at: stop.at,
        }),
    }
}

/// Chooses, of the moves of a run of one weight, those whose lead is no link's lead.
pub(crate) fn choose(
    basis: &Basis,
    start: u32,
    end: u32,
    links: &[Move],
    chosen: &mut Vec<Move>,
) -> Result<(), NoMemory>
    requires reduced { IsReducedList basis.now }
    requires run { IsWeightRun basis.now start end }
    requires links { All (BelongsTo basis.now.priority basis.now.grading) links.now }
    requires tells { TellsLeast (length basis.now.grading) basis.now.grading
        (vectors_of basis.now.moves) (weight_at basis.now start) (vectors_of links.now) }
    requires chosen { AreChosen (length basis.now.grading) basis.now.grading
        (vectors_of basis.now.moves) start (vectors_of chosen.old.items) }
    requires belongs { All (BelongsTo basis.now.priority basis.now.grading) chosen.old.items }
    requires few_chosen { length chosen.old.items ≤ start }
    ensures chosen { OnOk result
        (AreChosen (length basis.now.grading) basis.now.grading (vectors_of basis.now.moves) end
        (vectors_of chosen.new.items)) }
    ensures belongs { OnOk result
        (All (BelongsTo basis.now.priority basis.now.grading) chosen.new.items) }
    ensures few_chosen { OnOk result (length chosen.new.items ≤ end) }
{
    for place in start..end {
        let m = basis.move_at(place);
        if !has_lead(links, m) {
            chosen.push(m.try_copy()?)?;
        }
    }
    Ok(())
}

/// Is the lead of the move the lead of a link? All have as many columns.
fn has_lead(links: &[Move], m: &Move) -> bool
    requires columns { All (λ link. length link.entries ≡ length m.now.entries) links.now }
    ensures { (w : List ℤ) → AreWeights w → All (IsRest w) links.now → IsRest w m.now →
        IsTrue result ↔ HasLead (vectors_of links.now) (lead m.now.entries) }
{
    for link in links {
        if is_end(link, m, Side::Plus) {
            return true;
        }
    }
    false
}
