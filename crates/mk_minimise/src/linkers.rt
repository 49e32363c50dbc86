//! Who finds the links of a weight.

ghost use Rattle.std.specs.Prelude.{◌<◌, ⊤, Option, ℕ, length, All, IfOk, IfErr};
ghost use Rattle.std.specs.Thread.{IsSync};
ghost use Rattle.mk_model.specs.Bases.{IsUpTo};
ghost use Rattle.mk_move.specs.MoveLists.{BelongsTo, vectors_of};
ghost use Rattle.mk_inter.specs.Tails.{IsReducedList};
ghost use Rattle.mk_minimise.specs.Minimal.{IsMinimiseFault};
ghost use Rattle.mk_minimise.specs.Stages.{weight_at, IsFront, TellsLeast};

use crate::lower::Lower;
use crate::minimal::MinimiseFault;
use crate::shared::shared_links_of;
use crate::stages::links_of;
use mk_move::{Basis, Move};
use std::alloc::Global;
use std::thread::Threads;

/// Who finds the links of one weight after another. Whoever it is, they tell the same.
pub(crate) trait Linker {
    // Holds of one that may work: what it shares may be shared.
    ghost ready: { Self → Type 0 } = { λ _. ⊤ };

    /// The links of the weight that follows the lower moves.
    fn links_of(
        &self,
        alloc: Global,
        basis: &Basis,
        lower: &Lower,
    ) -> Result<Vec<Move>, MinimiseFault>
        requires ready { ready self.now }
        requires reduced { IsReducedList basis.now }
        requires front { IsFront basis.now lower.now }
        requires within { length lower.now.moves < length basis.now.moves }
        ensures tells { IfOk result (λ links.
            TellsLeast (length basis.now.grading) basis.now.grading (vectors_of basis.now.moves)
            (weight_at basis.now (length lower.now.moves)) (vectors_of links.items)) }
        ensures belongs { IfOk result (λ links.
            All (BelongsTo basis.now.priority basis.now.grading) links.items) }
        ensures refused { IfErr result (λ fault.
            (upto : Option ℕ) → IsUpTo upto (weight_at basis.now (length lower.now.moves)) →
            IsMinimiseFault basis.now upto fault) };
}

/// The caller's thread alone.
#[derive(Drop)]
pub(crate) struct OneThread;

impl Linker for OneThread {
    fn links_of(
        &self,
        alloc: Global,
        basis: &Basis,
        lower: &Lower,
    ) -> Result<Vec<Move>, MinimiseFault> {
        links_of(alloc, basis, lower)
    }
}

/// Several threads, among whom the pairs of a weight are divided.
#[derive(Drop)]
pub(crate) struct ManyThreads<'a, R> {
    pub(crate) rt: &'a R,
}

impl<'a, R: Threads + Sync> Linker for ManyThreads<'a, R> {
    ghost ready = { λ _. IsSync R.row };

    fn links_of(
        &self,
        alloc: Global,
        basis: &Basis,
        lower: &Lower,
    ) -> Result<Vec<Move>, MinimiseFault> {
        shared_links_of(self.rt, alloc, basis, lower)
    }
}
