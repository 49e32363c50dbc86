ghost use Rattle.std.specs.Prelude.{◌≡◌, ◌+◌, ◌^◌, ◌<◌, ◌≤◌, [], ◌∷◌, ◌++◌, length, IfOk, OnOk, OnErr};
ghost use Rattle.mk_model.specs.Saturation.{drop_redundant};
ghost use Rattle.mk_move.specs.MoveLists.{BelongsTo, vectors_of};
ghost use Rattle.mk_core.specs.Redundancy.{is_redundant_at, makes_redundant};

use mk_model::NoMemory;
use mk_move::{Basis, Move, Side, lead_divides};

/// The moves of a basis that are not redundant, in their order: those whose lead no other lead divides, but for a later one
/// that is the same. (Sturmfels, chapter 1: a minimal basis of leading terms)
pub fn drop_redundant(basis: &Basis) -> Result<Basis, NoMemory>
    ensures moves { IfOk result
        (λ kept. vectors_of kept.moves ≡ drop_redundant (vectors_of basis.now.moves)) }
    ensures priority { IfOk result (λ kept. kept.priority ≡ basis.now.priority) }
    ensures grading { IfOk result (λ kept. kept.grading ≡ basis.now.grading) }
    ensures few { IfOk result (λ kept. length kept.moves ≤ length basis.now.moves) }
{
    let count = basis.len();
    let mut kept = basis.try_copy_bare()?;
    for place in 0..count {
        if !is_redundant_at(basis, place) {
            put_copy(&mut kept, basis.move_at(place))?;
        }
    }
    Ok(kept)
}

/// Puts a copy of a move that belongs to the basis at its end. The basis is as before where there is no memory.
fn put_copy(kept: &mut Basis, m: &Move) -> Result<(), NoMemory>
    requires belongs { BelongsTo kept.old.priority kept.old.grading m.now }
    requires room { length kept.old.moves + 1 < 2 ^ 32 }
    ensures ok { OnOk result (kept.new ≡ record kept.old { moves = kept.old.moves ++ m.now ∷ [] }) }
    ensures err { OnErr result (kept.new ≡ kept.old) }
{
    kept.push(m.try_copy()?)?;
    Ok(())
}

/// Is the move of a place redundant: does the lead of one before it divide its lead, or a lead behind it that differs?
fn is_redundant_at(basis: &Basis, place: u32) -> bool
    requires { place < length basis.now.moves }
    ensures { result ≡ is_redundant_at (vectors_of basis.now.moves) place }
{
    let masks = basis.lead_masks();
    let outside = !masks[place as usize];
    for other in 0..basis.len() {
        if masks[other as usize] & outside == 0 && makes_redundant(basis, other, place) {
            return true;
        }
    }
    false
}

/// Does the move of the other place make that of the place redundant: does its lead divide, and does it stand before, or
/// have a lead that differs?
fn makes_redundant(basis: &Basis, other: u32, place: u32) -> bool
    requires other { other < length basis.now.moves }
    requires place { place < length basis.now.moves }
    ensures { result ≡ makes_redundant (vectors_of basis.now.moves) other place }
{
    let v = basis.move_at(other);
    let m = basis.move_at(place);
    lead_divides(v, m, Side::Plus) && (other < place || !lead_divides(m, v, Side::Plus))
}
