ghost use Rattle.std.specs.Prelude.{◌≡◌, ◌↔◌, OnOk};
ghost use Rattle.std.specs.List.Sorted.{IsPermutation};
ghost use Rattle.mk_inter.specs.TailSteps.{IsEarlier, NoneEarlier};

use mk_move::{Move, move_order};
use std::alloc::AllocError;
use std::cmp::Ordering;

/// Puts moves in their order.
pub(crate) fn sort_moves(moves: &mut Vec<Move>) -> Result<(), AllocError>
    ensures same { IsPermutation moves.old.items moves.new.items }
    ensures sorted { OnOk result (NoneEarlier moves.new.items) }
{
    moves.sort_by(|a, b| order_of(a, b))
}

/// The order of moves by the number of their columns, then by move order.
fn order_of(a: &Move, b: &Move) -> Ordering
    ensures less { (result ≡ Ordering.Less) ↔ IsEarlier a.now b.now }
{
    if a.columns() == b.columns() {
        move_order(a, b)
    } else {
        a.columns().cmp(&b.columns())
    }
}
