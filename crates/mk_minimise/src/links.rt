ghost use Rattle.std.specs.Prelude.{◌≡◌, ◌↔◌, ◌<◌, length, All, IsTrue, IfOk, IfSome, IfNone, OnOk};
ghost use Rattle.mk_model.specs.Orders.{lead};
ghost use Rattle.mk_move.specs.MoveLists.{BelongsTo, IsBasis, vectors_of};
ghost use Rattle.mk_move.specs.Sides.{part_of};
ghost use Rattle.mk_reduce.specs.Works.{IsRest};
ghost use Rattle.mk_minimise.specs.LinkSteps.{IsEnd, times_at, IsLeftOf, IsLinkAt, NoneIsEnd, IsLessLink, IsAdded};

use mk_model::{Entry, NoMemory};
use mk_move::{Basis, Grading, Move, Side, StepFault, lead_divides, subtract_times};
use std::alloc::Global;

/// Puts what the links leave of a move to the links, oriented, unless they leave nothing.
pub(crate) fn add_link(
    alloc: Global,
    rest: Move,
    basis: &Basis,
    links: &mut Vec<Move>,
) -> Result<(), NoMemory>
    requires basis { IsBasis basis.now }
    requires rest { IsRest basis.now.grading rest }
    requires links { All (BelongsTo basis.now.priority basis.now.grading) links.old.items }
    ensures { OnOk result (IsAdded basis.now rest links.old.items links.new.items) }
{
    if let Some(mut left) = left_of(alloc, rest, basis, links)? {
        left.orient(basis.priority());
        links.push(left)?;
    }
    Ok(())
}

/// What is left of a move once links are taken off as long as the lead of one is a part of it: none for zero.
fn left_of(alloc: Global, m: Move, basis: &Basis, links: &[Move]) -> Result<Option<Move>, NoMemory>
    requires basis { IsBasis basis.now }
    requires rest { IsRest basis.now.grading m }
    requires links { All (BelongsTo basis.now.priority basis.now.grading) links.now }
    ensures { IfOk result (IsLeftOf (vectors_of links.now) basis.now.grading m.entries) }
{
    let mut rest = m;
    while let Some((place, side)) = link_at_end(links, &rest) {
        match less_link(alloc, &rest, &links[place], side, basis.grading())? {
            Some(next) => rest = next,
            None => return Ok(None),
        }
    }
    Ok(Some(rest))
}

/// A link whose lead is a part of a move, with the side of that part, and none where there is no such link. All have as
/// many columns.
fn link_at_end(links: &[Move], m: &Move) -> Option<(usize, Side)>
    requires { All (λ link. length link.entries ≡ length m.now.entries) links.now }
    ensures found { IfSome result (λ found. IsLinkAt links.now m.now found.0 found.1) }
    ensures within { IfSome result (λ found. found.0 < length links.now) }
    ensures none { IfNone result (All (NoneIsEnd m.now) links.now) }
{
    for (place, link) in links.iter().enumerate() {
        if is_end(link, m, Side::Plus) {
            return Some((place, Side::Plus));
        }
        if is_end(link, m, Side::Minus) {
            return Some((place, Side::Minus));
        }
    }
    None
}

/// Is the lead of a link the part of a move on that side? It is as heavy and divides it. Both have as many columns.
pub(crate) fn is_end(link: &Move, m: &Move, side: Side) -> bool
    requires { length link.now.entries ≡ length m.now.entries }
    ensures { IsTrue result ↔ IsEnd side m.now link.now }
{
    link.weight() == m.weight() && lead_divides(link, m, side)
}

/// A move without a link whose lead is its part on that side. Every entry stays in its range.
fn less_link(
    alloc: Global,
    m: &Move,
    link: &Move,
    side: Side,
    grading: &Grading,
) -> Result<Option<Move>, NoMemory>
    requires rest { IsRest grading.now m.now }
    requires link { IsRest grading.now link.now }
    requires at_end { lead link.now.entries ≡ part_of side m.now.entries }
    ensures { IfOk result (IsLessLink grading.now m.now.entries side link.now.entries) }
{
    prove!(m.columns() == link.columns());
    match subtract_times(alloc, m, times_of(side), link, grading) {
        Ok(left) => Ok(left),
        Err(StepFault::Memory) => Err(NoMemory),
        Err(StepFault::Overflow(_)) => unreachable!(),
    }
}

/// Once off for the positive part, once added for the negative part.
fn times_of(side: Side) -> Entry
    ensures { result ≡ times_at side }
{
    match side {
        Side::Plus => 1,
        Side::Minus => -1,
    }
}
