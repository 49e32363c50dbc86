ghost use Rattle.std.specs.Prelude.{◌≡◌, ◌<◌, ◌↔◌, length, All};
ghost use Rattle.std.specs.Ordering.{MatchOrdering};
ghost use Rattle.mk_model.specs.Vectors.{IsEntry, entry, positive_part};
ghost use Rattle.mk_model.specs.Orders.{IsBelow, standard};
ghost use Rattle.mk_move.specs.Moves.{IsBefore};
ghost use Rattle.mk_move.specs.Sides.{part_of};

use crate::moves::Move;
use crate::priority::Priority;
use crate::side::Side;
use mk_model::Entry;
use std::cmp::Ordering;

/// The leads in their order along the list. Both moves and the list have as many columns. (Sturmfels, chapters 1 and 4)
pub fn compare_leads(a: &Move, b: &Move, priority: &Priority) -> Ordering
    requires columns { length a.now.entries ≡ length priority.now }
    requires as_many { length b.now.entries ≡ length priority.now }
    ensures less { (result ≡ Ordering.Less) ↔ IsBelow priority.now (positive_part a.now.entries) (positive_part b.now.entries) }
    ensures equal { (result ≡ Ordering.Equal) ↔ (positive_part a.now.entries ≡ positive_part b.now.entries) }
    ensures greater { (result ≡ Ordering.Greater) ↔ IsBelow priority.now (positive_part b.now.entries) (positive_part a.now.entries) }
{
    compare_along(a.entries(), b.entries(), priority.as_slice())
}

/// The order of moves of as many columns: by weight; then the lead that is below the other by the standard list; then,
/// for one lead, the tail.
pub fn move_order(a: &Move, b: &Move) -> Ordering
    requires { length a.now.entries ≡ length b.now.entries }
    ensures less { (result ≡ Ordering.Less) ↔ IsBefore (length a.now.entries) a.now b.now }
    ensures equal { (result ≡ Ordering.Equal) ↔ (a.now ≡ b.now) }
    ensures greater { (result ≡ Ordering.Greater) ↔ IsBefore (length a.now.entries) b.now a.now }
{
    if a.weight() < b.weight() {
        return Ordering::Less;
    }
    if a.weight() > b.weight() {
        return Ordering::Greater;
    }
    match compare_parts(a, b, Side::Plus) {
        Ordering::Equal => compare_parts(a, b, Side::Minus),
        decided => decided,
    }
}

/// The parts of moves on a side in their order by the standard list. Both moves have as many columns.
fn compare_parts(a: &Move, b: &Move, side: Side) -> Ordering
    requires { length a.now.entries ≡ length b.now.entries }
    ensures { MatchOrdering result
        (IsBelow (standard (length a.now.entries)) (part_of side a.now.entries) (part_of side b.now.entries))
        (part_of side a.now.entries ≡ part_of side b.now.entries)
        (IsBelow (standard (length a.now.entries)) (part_of side b.now.entries) (part_of side a.now.entries)) }
{
    let left = a.mask(side).leading_zeros();
    let right = b.mask(side).leading_zeros();
    if left < right {
        return Ordering::Less;
    }
    if left > right {
        return Ordering::Greater;
    }
    compare_standard(a.entries(), b.entries(), side)
}

/// The positive parts in their order along the columns.
fn compare_along(a: &[Entry], b: &[Entry], columns: &[u32]) -> Ordering
    requires columns { All (λ c. c < length a.now) columns.now }
    requires as_many { length a.now ≡ length b.now }
    requires left { All IsEntry a.now }
    requires right { All IsEntry b.now }
    ensures { MatchOrdering result
        (IsBelow columns.now (positive_part a.now) (positive_part b.now))
        (All (λ c. entry (positive_part a.now) c ≡ entry (positive_part b.now) c) columns.now)
        (IsBelow columns.now (positive_part b.now) (positive_part a.now)) }
{
    for column in columns {
        let left = a[*column as usize].max(0);
        let right = b[*column as usize].max(0);
        if left > right {
            return Ordering::Less;
        }
        if left < right {
            return Ordering::Greater;
        }
    }
    Ordering::Equal
}

/// The parts on a side in their order by the standard list. Both rows have as many columns.
fn compare_standard(a: &[Entry], b: &[Entry], side: Side) -> Ordering
    requires columns { length a.now ≡ length b.now }
    requires left { All IsEntry a.now }
    requires right { All IsEntry b.now }
    ensures { MatchOrdering result
        (IsBelow (standard (length a.now)) (part_of side a.now) (part_of side b.now))
        (part_of side a.now ≡ part_of side b.now)
        (IsBelow (standard (length a.now)) (part_of side b.now) (part_of side a.now)) }
{
    let mut end = a.len();
    while end > 0 {
        end -= 1;
        let left = side.entry_of(a[end]);
        let right = side.entry_of(b[end]);
        if left > right {
            return Ordering::Less;
        }
        if left < right {
            return Ordering::Greater;
        }
    }
    Ordering::Equal
}
