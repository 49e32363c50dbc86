//! Pairs whose leads have no column in common.

ghost use Rattle.std.specs.Prelude.{◌↔◌, ◌<◌, IsTrue, length};
ghost use Rattle.mk_model.specs.CoreStates.{move_at};
ghost use Rattle.mk_model.specs.Orders.{lead};
ghost use Rattle.mk_model.specs.Pairs.{AreDisjoint};
ghost use Rattle.mk_move.specs.MoveLists.{vectors_of};

use mk_move::{Basis, coprime_leads};

/// Have the leads of two moves of the basis no column in common? It takes no memory. (Sturmfels, chapter 1: coprime leading
/// terms)
pub fn have_coprime_leads(basis: &Basis, i: u32, j: u32) -> bool
    requires first { i < length basis.now.moves }
    requires second { j < length basis.now.moves }
    ensures { IsTrue result
        ↔ AreDisjoint (lead (move_at (vectors_of basis.now.moves) i))
        (lead (move_at (vectors_of basis.now.moves) j)) }
{
    let masks = basis.lead_masks();
    if masks[i as usize] & masks[j as usize] == 0 {
        return true;
    }
    coprime_leads(basis.move_at(i), basis.move_at(j))
}
