//! The links of a weight, where several threads work on its pairs.

ghost use Rattle.std.specs.Prelude.{◌<◌, Option, ℕ, length, All, IfOk, IfErr, MatchResult};
ghost use Rattle.std.specs.List.{AllZip};
ghost use Rattle.mk_model.specs.Bases.{IsUpTo};
ghost use Rattle.mk_model.specs.CoreStates.{pair_of};
ghost use Rattle.mk_move.specs.MoveLists.{BelongsTo, vectors_of};
ghost use Rattle.mk_inter.specs.Tails.{IsReducedList};
ghost use Rattle.mk_minimise.specs.Minimal.{IsMinimiseFault, IsPairFault, IsFaultOfPairs};
ghost use Rattle.mk_minimise.specs.Overlaps.{IsPlacePair, IsRemainderOf};
ghost use Rattle.mk_minimise.specs.Stages.{weight_at, IsFront, TellsLeast};

use crate::links::add_link;
use crate::lower::Lower;
use crate::minimal::MinimiseFault;
use crate::overlaps::{Overlap, overlaps_of};
use crate::stages::remainder_of;
use mk_move::{Basis, Move};
use mk_reduce::Scratch;
use rayon::prelude::*;
use std::alloc::Global;
use std::thread::Threads;

/// How many pairs are worth a thread of their own, at least.
const LEAST_PAIRS: usize = 256;

/// The links of the weight that follows the lower moves, as `links_of` finds them, with the pairs reduced in several threads.
/// Where several pairs leave the range, the fault is one of them.
pub(crate) fn shared_links_of<R: Threads + Sync>(
    rt: &R,
    alloc: Global,
    basis: &Basis,
    lower: &Lower,
) -> Result<Vec<Move>, MinimiseFault>
    requires reduced { IsReducedList basis.now }
    requires front { IsFront basis.now lower.now }
    requires within { length lower.now.moves < length basis.now.moves }
    ensures tells { IfOk result (λ links.
        TellsLeast (length basis.now.grading) basis.now.grading (vectors_of basis.now.moves)
        (weight_at basis.now (length lower.now.moves)) (vectors_of links.items)) }
    ensures belongs { IfOk result (λ links.
        All (BelongsTo basis.now.priority basis.now.grading) links.items) }
    ensures refused { IfErr result (λ fault.
        (upto : Option ℕ) → IsUpTo upto (weight_at basis.now (length lower.now.moves)) →
        IsMinimiseFault basis.now upto fault) }
{
    let weight = basis.move_at(lower.len()).weight();
    let pairs = overlaps_of(alloc, lower.basis(), weight)?;
    let rests = remainders_of(rt, alloc, lower, &pairs)?;
    let mut links = Vec::new(alloc);
    for rest in rests {
        if let Some(rest) = rest {
            add_link(alloc, rest, basis, &mut links)?;
        }
    }
    Ok(links)
}

/// What is left of the difference of each pair of lower moves, reduced by one of several threads.
fn remainders_of<R: Threads + Sync>(
    rt: &R,
    alloc: Global,
    lower: &Lower,
    pairs: &[Overlap],
) -> Result<Vec<Option<Move>>, MinimiseFault>
    requires { All (IsPlacePair (vectors_of lower.now.moves)) pairs.now }
    ensures remainders { IfOk result (λ rests.
        AllZip (IsRemainderOf lower.now) pairs.now rests.items) }
    ensures refused { IfErr result (IsFaultOfPairs (vectors_of lower.now.moves) pairs.now) }
{
    let rests: Result<Vec<Option<Move>>, MinimiseFault> = pairs
        .par_iter()
        .with_min_len(LEAST_PAIRS)
        .map_init(
            || Scratch::new(),
            |scratch: &mut Scratch, pair: &Overlap| -> Result<Option<Move>, MinimiseFault>
                requires { IsPlacePair (vectors_of lower.now.moves) pair.now }
                ensures { MatchResult result (IsRemainderOf lower.entry.now pair.now)
                    (IsPairFault (vectors_of lower.entry.now.moves)
                    (pair_of pair.now.first pair.now.second)) }
            { remainder_of(scratch, lower, pair.first, pair.second) },
        )
        .collect(rt, alloc)?;
    rests
}
