ghost use Rattle.std.specs.Prelude.{◌≡◌, ◌⊎◌, ◌<◌, ◌↔◌, length, IfOk, IfSome, IfNone, OnOk, IsTrue};
ghost use Rattle.mk_model.specs.CoreStates.{pair_of};
ghost use Rattle.mk_model.specs.Orders.{lead};
ghost use Rattle.mk_model.specs.Pairs.{AreDisjoint};
ghost use Rattle.mk_model.specs.Reductions.{lcm};
ghost use Rattle.mk_model.specs.Vectors.{weight};
ghost use Rattle.mk_move.specs.MoveLists.{vectors_of};
ghost use Rattle.mk_reduce.specs.Works.{IsRest};
ghost use Rattle.mk_minimise.specs.Overlaps.{AreCoprime, HasOtherWeight, overlap_at, IsOverlap, ListsBefore, AreOverlaps};

use mk_model::NoMemory;
use mk_move::{Basis, Grading, Move, coprime_leads};
use std::alloc::Global;

/// Two moves of a basis whose leads overlap, by their places, the lesser first. (Sturmfels, chapter 1: an S-pair)
#[derive(Clone, Copy, Debug, PartialEq, Eq)]
pub(crate) struct Overlap {
    pub(crate) first: u32,
    pub(crate) second: u32,
}

/// The pairs of moves whose leads overlap with a least common multiple of this weight.
pub(crate) fn overlaps_of(
    alloc: Global,
    basis: &Basis,
    weight: i128,
) -> Result<Vec<Overlap>, NoMemory>
    ensures { IfOk result (λ found.
        AreOverlaps basis.now.grading (vectors_of basis.now.moves) weight found.items) }
{
    let mut found = Vec::new(alloc);
    for second in 0..basis.len() {
        push_overlaps(basis, weight, second, &mut found)?;
    }
    Ok(found)
}

/// Puts to the list the pairs of this weight that a move makes with those before it.
fn push_overlaps(
    basis: &Basis,
    weight: i128,
    second: u32,
    found: &mut Vec<Overlap>,
) -> Result<(), NoMemory>
    requires within { second < length basis.now.moves }
    requires found { ListsBefore basis.now.grading (vectors_of basis.now.moves) weight
        (pair_of 0 second) found.old.items }
    ensures found { OnOk result
        (ListsBefore basis.now.grading (vectors_of basis.now.moves) weight
        (pair_of second second) found.new.items) }
{
    for first in 0..second {
        if let Some(pair) = overlap_of(basis, weight, first, second) {
            found.push(pair)?;
        }
    }
    Ok(())
}

/// The pair of two places, and none where their leads are coprime or their least common multiple has another weight.
fn overlap_of(basis: &Basis, weight: i128, first: u32, second: u32) -> Option<Overlap>
    requires ordered { first < second }
    requires within { second < length basis.now.moves }
    ensures value { IfSome result (λ pair. pair ≡ overlap_at first second) }
    ensures overlap { IfSome result
        (IsOverlap basis.now.grading (vectors_of basis.now.moves) weight) }
    ensures none { IfNone result (AreCoprime (vectors_of basis.now.moves) first second
        ⊎ HasOtherWeight basis.now.grading (vectors_of basis.now.moves) weight first second) }
{
    prove!(second < basis.len());
    let a = basis.move_at(first);
    let b = basis.move_at(second);
    if coprime_leads(a, b) {
        return None;
    }
    if !has_lcm_weight(a, b, basis.grading(), weight) {
        return None;
    }
    Some(Overlap { first, second })
}

/// Does the least common multiple of two leads weigh so much? The leads overlap, so it is lighter than both together.
fn has_lcm_weight(a: &Move, b: &Move, grading: &Grading, bound: i128) -> bool
    requires first { IsRest grading.now a.now }
    requires second { IsRest grading.now b.now }
    requires overlap { ¬ (AreDisjoint (lead a.now.entries) (lead b.now.entries)) }
    ensures { IsTrue result ↔
        (weight grading.now (lcm (lead a.now.entries) (lead b.now.entries)) ≡ bound) }
{
    prove!(a.columns() == grading.columns());
    prove!(b.columns() == grading.columns());
    bound < a.weight() + b.weight() && lcm_weight(a, b, grading) == bound
}

/// The weight of the least common multiple of two leads. Both moves have as many columns as the grading.
fn lcm_weight(a: &Move, b: &Move, grading: &Grading) -> i128
    requires columns { length a.now.entries ≡ length grading.now }
    requires as_many { length b.now.entries ≡ length grading.now }
    ensures { result ≡ weight grading.now (lcm (lead a.now.entries) (lead b.now.entries)) }
{
    prove!(a.columns() == grading.columns());
    prove!(b.columns() == grading.columns());
    let mut total: i128 = 0;
    for column in 0..grading.columns() {
        let larger = a.entry(column).max(b.entry(column)).max(0);
        total += i128::from(grading.weight_at(column)) * larger;
    }
    total
}
