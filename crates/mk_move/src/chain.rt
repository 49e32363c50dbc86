ghost use Rattle.std.specs.Prelude.{◌≡◌, ◌≤◌, ◌<◌, ◌↔◌, length, All, IsTrue};
ghost use Rattle.mk_model.specs.Vectors.{IsEntry, positive_part};
ghost use Rattle.mk_model.specs.Reductions.{Divides, lcm};
ghost use Rattle.mk_move.specs.Chains.{DividesBetween, lcm_on};
ghost use Rattle.mk_move.specs.Masks.{IsMask};
ghost use Rattle.mk_move.specs.MoveLists.{vectors_of};

use crate::basis::Basis;
use crate::masks::first_bit;
use crate::moves::Move;
use crate::side::Side;
use mk_model::Entry;

/// Does the lead of the move of place `k` divide the least common multiple of the leads of places `i` and `j`?
/// (Sturmfels, chapter 1: the pairs that Buchberger's algorithm needn't reduce)
pub fn chain_divides(basis: &Basis, i: u32, j: u32, k: u32) -> bool
    requires first { i < length basis.now.moves }
    requires second { j < length basis.now.moves }
    requires third { k < length basis.now.moves }
    ensures { IsTrue result ↔ DividesBetween (vectors_of basis.now.moves) i j k }
{
    let masks = basis.lead_masks();
    if masks[k as usize] & !(masks[i as usize] | masks[j as usize]) != 0 {
        return false;
    }
    if basis.is_mask_exact(k) {
        return true;
    }
    divides_by_entries(basis, i, j, k)
}

/// As `chain_divides`, by the entries of the moves.
fn divides_by_entries(basis: &Basis, i: u32, j: u32, k: u32) -> bool
    requires first { i < length basis.now.moves }
    requires second { j < length basis.now.moves }
    requires third { k < length basis.now.moves }
    ensures { IsTrue result ↔ DividesBetween (vectors_of basis.now.moves) i j k }
{
    divides_between(basis.move_at(i), basis.move_at(j), basis.move_at(k))
}

/// Does the lead of `v` divide the least common multiple of the leads of `a` and `b`? All have as many columns.
fn divides_between(a: &Move, b: &Move, v: &Move) -> bool
    requires first { length v.now.entries ≡ length a.now.entries }
    requires second { length v.now.entries ≡ length b.now.entries }
    ensures { IsTrue result ↔ Divides (positive_part v.now.entries) (lcm (positive_part a.now.entries) (positive_part b.now.entries)) }
{
    let both = a.mask(Side::Plus) | b.mask(Side::Plus);
    if v.mask(Side::Plus) & !both != 0 {
        return false;
    }
    if v.columns() > 64 {
        return divides_lcm(v.entries(), a.entries(), b.entries());
    }
    divides_lcm_at(v.mask(Side::Plus), v.entries(), a.entries(), b.entries())
}

/// Does the positive part of the first divide the least common multiple of those of the others? All have as many columns.
fn divides_lcm(lead: &[Entry], a: &[Entry], b: &[Entry]) -> bool
    requires first { length lead.now ≡ length a.now }
    requires second { length lead.now ≡ length b.now }
    requires lead { All IsEntry lead.now }
    requires of_first { All IsEntry a.now }
    requires of_second { All IsEntry b.now }
    ensures { IsTrue result ↔ Divides (positive_part lead.now) (lcm (positive_part a.now) (positive_part b.now)) }
{
    for (column, entry) in lead.iter().enumerate() {
        if *entry > lcm_entry(a[column], b[column]) {
            return false;
        }
    }
    true
}

/// Does the positive part of the first, of at most 64 columns, divide the least common multiple of those of the others? All
/// have as many columns. It looks at the columns of the first's mask alone.
fn divides_lcm_at(mask: u64, lead: &[Entry], a: &[Entry], b: &[Entry]) -> bool
    requires few { length lead.now ≤ 64 }
    requires mask { IsMask (positive_part lead.now) mask }
    requires first { length lead.now ≡ length a.now }
    requires second { length lead.now ≡ length b.now }
    requires lead { All IsEntry lead.now }
    requires of_first { All IsEntry a.now }
    requires of_second { All IsEntry b.now }
    ensures { IsTrue result ↔ Divides (positive_part lead.now) (lcm (positive_part a.now) (positive_part b.now)) }
{
    let mut left = mask;
    while left != 0 {
        let (column, others) = first_bit(left);
        let place = column as usize;
        if lead[place] > lcm_entry(a[place], b[place]) {
            return false;
        }
        left = others;
    }
    true
}

/// The entry of the least common multiple of two leads, where these are the entries of the moves.
fn lcm_entry(a: Entry, b: Entry) -> Entry
    ensures { result ≡ lcm_on a b }
{
    a.max(b).max(0)
}
