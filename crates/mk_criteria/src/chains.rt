//! Third moves through which a pair is settled.

ghost use Rattle.std.specs.Prelude.{◌↔◌, ℕ, ◌<◌, ◌≤◌, IsTrue, IfSome, IfNone, length};
ghost use Rattle.mk_model.specs.CoreStates.{pair_of};
ghost use Rattle.mk_model.specs.Events.{IsChain};
ghost use Rattle.mk_move.specs.MoveLists.{vectors_of};
ghost use Rattle.mk_criteria.specs.ThirdMoves.{IsThirdMove, IsLeastThirdMove, IsLeastChain, IsNextThird, NoneIsNext};

use mk_move::{Basis, SettledPairs, chain_divides};

/// So many third moves are tried at most for a pair, where each try takes a turn.
pub const TRIES_MAX: u32 = 8;

/// The least third move by which the pair of two places is settled, and none exactly where there is none: its lead divides
/// the least common multiple of the two leads, and its pairs with both are settled. It takes no memory. (Sturmfels, chapter
/// 1: the pairs that Buchberger's algorithm needn't reduce)
pub fn find_chain<S: SettledPairs>(basis: &Basis, settled: &S, i: u32, j: u32) -> Option<u32>
    requires ordered { i < j }
    requires within { j < length basis.now.moves }
    ensures found { IfSome result
        (IsLeastChain (vectors_of basis.now.moves) (S.journal settled.now) (pair_of i j)) }
    ensures none { IfNone result ((k : ℕ) →
        ¬ (IsChain (vectors_of basis.now.moves) (S.journal settled.now) (pair_of i j) k)) }
{
    let masks = basis.lead_masks();
    let outside = !(masks[i as usize] | masks[j as usize]);
    let end = basis.len().min(settled.settled_end(j));
    for k in 0..end {
        if masks[k as usize] & outside == 0 && is_chain(basis, settled, i, j, k) {
            return Some(k);
        }
    }
    None
}

/// The least place from `from` on of another move than the two of the pair whose lead divides the least common multiple of
/// their leads, and none exactly where there is none. It takes no memory.
pub fn chain_candidates(basis: &Basis, i: u32, j: u32, from: u32) -> Option<u32>
    requires ordered { i < j }
    requires within { j < length basis.now.moves }
    ensures found { IfSome result
        (IsLeastThirdMove (vectors_of basis.now.moves) (pair_of i j) from) }
    ensures none { IfNone result ((k : ℕ) → from ≤ k →
        ¬ (IsThirdMove (vectors_of basis.now.moves) (pair_of i j) k)) }
{
    first_between(basis, i, j, from, basis.len())
}

/// The third move that a worker tries next for a pair, where it has tried so many: the least place from `from` on and before
/// `end` of another move than the two of the pair whose lead divides the least common multiple of their leads. None exactly
/// where `TRIES_MAX` were tried or there is none. It takes no memory.
pub fn next_third(basis: &Basis, i: u32, j: u32, from: u32, end: u32, tried: u32) -> Option<u32>
    requires ordered { i < j }
    requires within { j < length basis.now.moves }
    ensures found { IfSome result
        (IsNextThird (vectors_of basis.now.moves) (pair_of i j) from end tried) }
    ensures none { IfNone result
        (NoneIsNext (vectors_of basis.now.moves) (pair_of i j) from end tried) }
{
    if tried >= TRIES_MAX {
        return None;
    }
    first_between(basis, i, j, from, end.min(basis.len()))
}

/// The least place between two, the second of which is no place, of a third move, and none exactly where there is none.
fn first_between(basis: &Basis, i: u32, j: u32, from: u32, end: u32) -> Option<u32>
    requires ordered { i < j }
    requires within { j < length basis.now.moves }
    requires end { end ≤ length basis.now.moves }
    ensures before { IfSome result (λ k. k < end) }
    ensures found { IfSome result
        (IsLeastThirdMove (vectors_of basis.now.moves) (pair_of i j) from) }
    ensures none { IfNone result ((k : ℕ) → from ≤ k → k < end →
        ¬ (IsThirdMove (vectors_of basis.now.moves) (pair_of i j) k)) }
{
    let masks = basis.lead_masks();
    let outside = !(masks[i as usize] | masks[j as usize]);
    for k in from..end {
        if masks[k as usize] & outside == 0 && is_third_move(basis, i, j, k) {
            return Some(k);
        }
    }
    None
}

/// Is the pair of two places settled by this third move? Its lead divides the least common multiple of the two leads, and its
/// pairs with both are settled. It takes no memory. (Sturmfels, chapter 1)
pub fn is_chain<S: SettledPairs>(basis: &Basis, settled: &S, i: u32, j: u32, k: u32) -> bool
    requires ordered { i < j }
    requires within { j < length basis.now.moves }
    requires third { k < length basis.now.moves }
    ensures { IsTrue result
        ↔ IsChain (vectors_of basis.now.moves) (S.journal settled.now) (pair_of i j) k }
{
    if !is_third_move(basis, i, j, k) {
        return false;
    }
    settled.is_settled(i, k) && settled.is_settled(j, k)
}

/// Is it another move than the two of the pair, whose lead divides the least common multiple of their leads?
fn is_third_move(basis: &Basis, i: u32, j: u32, k: u32) -> bool
    requires ordered { i < j }
    requires within { j < length basis.now.moves }
    requires third { k < length basis.now.moves }
    ensures { IsTrue result ↔ IsThirdMove (vectors_of basis.now.moves) (pair_of i j) k }
{
    if k == i || k == j {
        return false;
    }
    chain_divides(basis, i, j, k)
}
