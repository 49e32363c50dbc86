ghost use Rattle.std.specs.Prelude.{◌≡◌, ◌<◌, ◌^◌, IfOk, IfErr, length, All};
ghost use Rattle.std.specs.List.{AllZip};
ghost use Rattle.mk_model.specs.CoreStates.{move_at};
ghost use Rattle.mk_model.specs.Lattices.{SameLattice};
ghost use Rattle.mk_model.specs.ReducedBases.{IsReducedBasis};
ghost use Rattle.mk_move.specs.MoveLists.{lattice_spanned, BelongsTo, vectors_of};
ghost use Rattle.mk_reduce.specs.Leads.{leads_of};
ghost use Rattle.mk_core.specs.SaturatedBases.{IsSaturated};
ghost use Rattle.mk_inter.specs.Tails.{IsReducedList, IsTailFault};
ghost use Rattle.mk_inter.specs.TailSteps.{IsReducedFrom};

use crate::sorting::sort_moves;
use crate::tail::reduce_tail;
use mk_core::{LeadFinder, SaturatedBasis, finder_of};
use mk_model::NoMemory;
use mk_move::{Basis, Move, OverflowAt};
use rayon::prelude::*;
use std::alloc::{AllocError, AllocFailed, Global};
use std::marker::Model;
use std::thread::Threads;

/// How many tails are worth a thread of their own, at least.
const LEAST_TAILS: usize = 64;

/// Why tails can't be reduced: want of memory, or a column where an entry leaves the range, in a step on the tail of the move
/// of an index, by the move of the place `by`, from the vector `operand`.
#[derive(Debug, Drop)]
pub enum TailFault {
    Memory,
    Overflow {
        index: u32,
        by: u32,
        operand: Move,
        at: OverflowAt,
    },
}

impl From<NoMemory> for TailFault {
    ghost use Rattle.std.specs.Prelude.{◌≡◌};
    ghost use Rattle.mk_inter.specs.declared.tails.TailFault.TheVariants.{Memory};

    ghost from_gives = { λ _ e. e ≡ Memory };

    fn from(_e: NoMemory) -> TailFault {
        TailFault::Memory
    }
}

impl From<AllocError> for TailFault {
    ghost use Rattle.std.specs.Prelude.{◌≡◌};
    ghost use Rattle.mk_inter.specs.declared.tails.TailFault.TheVariants.{Memory};

    ghost from_gives = { λ _ e. e ≡ Memory };

    fn from(_e: AllocError) -> TailFault {
        TailFault::Memory
    }
}

impl<T: Drop> From<AllocFailed<T>> for TailFault {
    ghost use Rattle.std.specs.Prelude.{◌≡◌};
    ghost use Rattle.mk_inter.specs.declared.tails.TailFault.TheVariants.{Memory};

    ghost from_gives = { λ _ e. e ≡ Memory };

    fn from(_e: AllocFailed<T>) -> TailFault {
        TailFault::Memory
    }
}

/// The reduced basis of the lattice that its moves span, ascending by move order.
#[derive(Debug, Drop)]
pub struct ReducedBasis {
    basis: Basis,
}

impl Model for ReducedBasis {
    ghost use Rattle.mk_move.specs.MoveLists.{BasisView};
    ghost use Rattle.mk_inter.specs.Tails.{IsReducedList};

    ghost Value = { BasisView };

    ghost view = { λ r. r.basis };

    ghost invariant = { λ r. IsReducedList r.basis };
}

impl ReducedBasis {
    /// Its moves.
    pub fn basis(&self) -> &Basis
        ensures value { result.now ≡ self.now }
        ensures kept { IsReducedList self.now }
    {
        &self.basis
    }
}

/// The reduced basis of the lattice: each tail of a move is replaced by the least vector of its fibre, and the moves ascend by
/// move order. (Sturmfels, chapter 1: the reduced basis)
pub fn reduce_tails(alloc: Global, basis: &SaturatedBasis) -> Result<ReducedBasis, TailFault>
    ensures reduced { IfOk result (λ reduced.
        IsReducedBasis (lattice_spanned basis.now) (vectors_of reduced.moves)) }
    ensures lattice { IfOk result (λ reduced.
        SameLattice (length basis.now.grading) (vectors_of basis.now.moves)
        (vectors_of reduced.moves)) }
    ensures grading { IfOk result (λ reduced. reduced.grading ≡ basis.now.grading) }
    ensures kept { IfOk result IsReducedList }
    ensures refused { IfErr result (IsTailFault basis.now) }
{
    let basis = basis.basis();
    let finder = finder_of(alloc, basis)?;
    let tails = all_tails(alloc, basis, &finder)?;
    Ok(reduced_of(basis, tails)?)
}

/// The reduced basis of the lattice, as `reduce_tails` gives it, with the tails reduced in several threads. Where the tails of
/// several moves leave the range, the fault is one of them. (Sturmfels, chapter 1: the reduced basis)
pub fn reduce_tails_shared<R: Threads + Sync>(
    rt: &R,
    alloc: Global,
    basis: &SaturatedBasis,
) -> Result<ReducedBasis, TailFault>
    ensures reduced { IfOk result (λ reduced.
        IsReducedBasis (lattice_spanned basis.now) (vectors_of reduced.moves)) }
    ensures lattice { IfOk result (λ reduced.
        SameLattice (length basis.now.grading) (vectors_of basis.now.moves)
        (vectors_of reduced.moves)) }
    ensures grading { IfOk result (λ reduced. reduced.grading ≡ basis.now.grading) }
    ensures kept { IfOk result IsReducedList }
    ensures refused { IfErr result (IsTailFault basis.now) }
{
    let basis = basis.basis();
    let finder = finder_of(alloc, basis)?;
    let tails = shared_tails(rt, alloc, basis, &finder)?;
    Ok(reduced_of(basis, tails)?)
}

/// The reduced basis whose moves are those of a saturated basis with their tails reduced: they are put in their order.
fn reduced_of(basis: &Basis, mut tails: Vec<Move>) -> Result<ReducedBasis, NoMemory>
    requires saturated { IsSaturated basis.now }
    requires tails { AllZip (IsReducedFrom basis.now) (vectors_of basis.now.moves) tails.items }
    ensures reduced { IfOk result (λ reduced.
        IsReducedBasis (lattice_spanned basis.now) (vectors_of reduced.moves)) }
    ensures lattice { IfOk result (λ reduced.
        SameLattice (length basis.now.grading) (vectors_of basis.now.moves)
        (vectors_of reduced.moves)) }
    ensures grading { IfOk result (λ reduced. reduced.grading ≡ basis.now.grading) }
    ensures kept { IfOk result IsReducedList }
{
    sort_moves(&mut tails)?;
    let reduced = basis_of(basis, tails)?;
    Ok(ReducedBasis { basis: reduced })
}

/// The moves of a saturated basis, each with its tail reduced, in their order.
fn all_tails(alloc: Global, basis: &Basis, finder: &LeadFinder) -> Result<Vec<Move>, TailFault>
    requires saturated { IsSaturated basis.now }
    requires leads { finder.now ≡ leads_of basis.now.moves }
    ensures reduced { IfOk result (λ tails.
        AllZip (IsReducedFrom basis.now) (vectors_of basis.now.moves) tails.items) }
    ensures refused { IfErr result (IsTailFault basis.now) }
{
    let mut tails = Vec::new(alloc);
    for index in 0..basis.len() {
        let tail = reduce_tail(alloc, basis, finder, index)?;
        tails.push(tail)?;
    }
    Ok(tails)
}

/// The moves of a saturated basis, each with its tail reduced by one of several threads, in their order.
fn shared_tails<R: Threads + Sync>(
    rt: &R,
    alloc: Global,
    basis: &Basis,
    finder: &LeadFinder,
) -> Result<Vec<Move>, TailFault>
    requires saturated { IsSaturated basis.now }
    requires leads { finder.now ≡ leads_of basis.now.moves }
    ensures reduced { IfOk result (λ tails.
        AllZip (IsReducedFrom basis.now) (vectors_of basis.now.moves) tails.items) }
    ensures refused { IfErr result (IsTailFault basis.now) }
{
    let tails: Result<Vec<Move>, TailFault> = (0..basis.len())
        .into_par_iter()
        .with_min_len(LEAST_TAILS)
        .map(
            |index: u32| -> Result<Move, TailFault>
                requires saturated { IsSaturated basis.now }
                requires leads { finder.now ≡ leads_of basis.now.moves }
                requires of_list { index < length basis.now.moves }
                ensures reduced { IfOk result
                    (IsReducedFrom basis.entry.now (move_at
                    (vectors_of basis.entry.now.moves) index)) }
                ensures refused { IfErr result (IsTailFault basis.entry.now) }
            { reduce_tail(alloc, basis, finder, index) },
        )
        .collect(rt, alloc)?;
    tails
}

/// A basis with these moves, and the list and the grading of another.
fn basis_of(basis: &Basis, moves: Vec<Move>) -> Result<Basis, NoMemory>
    requires columns { length basis.now.priority ≡ length basis.now.grading }
    requires belongs { All (BelongsTo basis.now.priority basis.now.grading) moves.items }
    requires few_moves { length moves.items < 2 ^ 32 }
    ensures moves { IfOk result (λ made. made.moves ≡ moves.items) }
    ensures priority { IfOk result (λ made. made.priority ≡ basis.now.priority) }
    ensures grading { IfOk result (λ made. made.grading ≡ basis.now.grading) }
{
    let mut made = basis.try_copy_bare()?;
    for m in moves {
        made.push(m)?;
    }
    Ok(made)
}
