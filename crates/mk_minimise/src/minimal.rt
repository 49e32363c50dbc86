ghost use Rattle.std.specs.Prelude.{◌≡◌, ◌<◌, ◌≤◌, IfOk, IfErr, length, All};
ghost use Rattle.mk_model.specs.Bases.{IsAnswer};
ghost use Rattle.mk_move.specs.Moves.{IsGraded};
ghost use Rattle.mk_move.specs.MoveLists.{lattice_spanned, BelongsTo, vectors_of};
ghost use Rattle.mk_inter.specs.Tails.{IsReducedList};
ghost use Rattle.mk_minimise.specs.Minimal.{IsMinimiseFault};
ghost use Rattle.mk_minimise.specs.Stages.{AreChosenUpTo};

use crate::linkers::{Linker, ManyThreads, OneThread};
use crate::lower::Lower;
use crate::stages::{choose, end_of_weight, is_up_to};
use mk_inter::ReducedBasis;
use mk_model::NoMemory;
use mk_move::{Basis, Grading, Move, MoveList, OverflowAt};
use std::alloc::{AllocError, AllocFailed, Global};
use std::marker::Model;
use std::thread::Threads;

/// Why the essential moves can't be found: want of memory, or a column where an entry leaves the range, at the pair of the
/// places `i` and `j` of the reduced basis: in its difference, with no move and no operand, or in a step by the move of the place `by`
/// from the remainder `operand`.
#[derive(Debug, Drop)]
pub enum MinimiseFault {
    Memory,
    Overflow {
        i: u32,
        j: u32,
        by: Option<u32>,
        operand: Option<Move>,
        at: OverflowAt,
    },
}

impl From<NoMemory> for MinimiseFault {
    ghost use Rattle.std.specs.Prelude.{◌≡◌};
    ghost use Rattle.mk_minimise.specs.declared.minimal.MinimiseFault.TheVariants.{Memory};

    ghost from_gives = { λ _ e. e ≡ Memory };

    fn from(_e: NoMemory) -> MinimiseFault {
        MinimiseFault::Memory
    }
}

impl From<AllocError> for MinimiseFault {
    ghost use Rattle.std.specs.Prelude.{◌≡◌};
    ghost use Rattle.mk_minimise.specs.declared.minimal.MinimiseFault.TheVariants.{Memory};

    ghost from_gives = { λ _ e. e ≡ Memory };

    fn from(_e: AllocError) -> MinimiseFault {
        MinimiseFault::Memory
    }
}

impl<T: Drop> From<AllocFailed<T>> for MinimiseFault {
    ghost use Rattle.std.specs.Prelude.{◌≡◌};
    ghost use Rattle.mk_minimise.specs.declared.minimal.MinimiseFault.TheVariants.{Memory};

    ghost from_gives = { λ _ e. e ≡ Memory };

    fn from(_e: AllocFailed<T>) -> MinimiseFault {
        MinimiseFault::Memory
    }
}

/// A list of moves, all of as many columns.
#[derive(Debug, Drop)]
pub struct MinimalList {
    columns: u32,
    moves: Vec<Move>,
}

impl Model for MinimalList {
    ghost use Rattle.std.specs.Prelude.{◌≡◌, ◌<◌, ◌^◌, length, All};
    ghost use Rattle.mk_move.specs.MoveLists.{MoveListView};

    ghost Value = { MoveListView };

    ghost view = { λ l. record { columns = l.columns; moves = l.moves.items } };

    ghost invariant = { λ l.
        (length l.moves.items < 2 ^ 32) × All (λ m. length m.entries ≡ l.columns) l.moves.items };
}

impl MoveList for MinimalList {
    ghost list = { λ l. l };

    fn columns(&self) -> u32 {
        self.columns
    }

    fn len(&self) -> u32 {
        self.moves.len() as u32
    }

    fn move_at(&self, k: u32) -> &Move {
        &self.moves[k as usize]
    }
}

/// The essential moves of the lattice that a reduced basis spans, of weights up to a bound, ascending by move order, each with the
/// weight of its lead. No bound is above every weight. The grading is the basis's. Heavier moves and pairs aren't worked on.
/// (Sturmfels, chapter 5: minimal generators)
pub fn minimise(
    alloc: Global,
    basis: &ReducedBasis,
    grading: &Grading,
    upto: Option<u64>,
) -> Result<MinimalList, MinimiseFault>
    requires { grading.now ≡ basis.now.grading }
    ensures answer { IfOk result (λ list.
        IsAnswer (lattice_spanned basis.now) upto (vectors_of list.moves)) }
    ensures columns { IfOk result (λ list. list.columns ≡ length basis.now.grading) }
    ensures graded { IfOk result (λ list. All (IsGraded basis.now.grading) list.moves) }
    ensures refused { IfErr result (IsMinimiseFault basis.now upto) }
{
    list_of(&OneThread, alloc, basis, grading, upto)
}

/// The essential moves up to a bound, as `minimise` chooses them, with the pairs of each weight reduced in several threads. Where
/// several pairs of a weight leave the range, the fault is one of them. (Sturmfels, chapter 5: minimal generators)
pub fn minimise_shared<R: Threads + Sync>(
    rt: &R,
    alloc: Global,
    basis: &ReducedBasis,
    grading: &Grading,
    upto: Option<u64>,
) -> Result<MinimalList, MinimiseFault>
    requires { grading.now ≡ basis.now.grading }
    ensures answer { IfOk result (λ list.
        IsAnswer (lattice_spanned basis.now) upto (vectors_of list.moves)) }
    ensures columns { IfOk result (λ list. list.columns ≡ length basis.now.grading) }
    ensures graded { IfOk result (λ list. All (IsGraded basis.now.grading) list.moves) }
    ensures refused { IfErr result (IsMinimiseFault basis.now upto) }
{
    list_of(&ManyThreads { rt }, alloc, basis, grading, upto)
}

/// The essential moves up to a bound, from the links that the linker finds.
fn list_of<L: Linker>(
    linker: &L,
    alloc: Global,
    basis: &ReducedBasis,
    grading: &Grading,
    upto: Option<u64>,
) -> Result<MinimalList, MinimiseFault>
    requires ready { L.ready linker.now }
    requires grading { grading.now ≡ basis.now.grading }
    ensures answer { IfOk result (λ list.
        IsAnswer (lattice_spanned basis.now) upto (vectors_of list.moves)) }
    ensures columns { IfOk result (λ list. list.columns ≡ length basis.now.grading) }
    ensures graded { IfOk result (λ list. All (IsGraded basis.now.grading) list.moves) }
    ensures refused { IfErr result (IsMinimiseFault basis.now upto) }
{
    let moves = basis.basis();
    let chosen = chosen_of(linker, alloc, moves, upto)?;
    Ok(MinimalList {
        columns: grading.columns(),
        moves: chosen,
    })
}

/// The moves of a reduced basis, of weights up to a bound, whose lead is the least of its component, in their order.
fn chosen_of<L: Linker>(
    linker: &L,
    alloc: Global,
    basis: &Basis,
    upto: Option<u64>,
) -> Result<Vec<Move>, MinimiseFault>
    requires ready { L.ready linker.now }
    requires reduced { IsReducedList basis.now }
    ensures chosen { IfOk result (λ chosen.
        AreChosenUpTo (length basis.now.grading) basis.now.grading (vectors_of basis.now.moves) upto
        (vectors_of chosen.items)) }
    ensures belongs { IfOk result (λ chosen.
        All (BelongsTo basis.now.priority basis.now.grading) chosen.items) }
    ensures few_chosen { IfOk result (λ chosen. length chosen.items ≤ length basis.now.moves) }
    ensures refused { IfErr result (IsMinimiseFault basis.now upto) }
{
    let mut lower = Lower::new(alloc, basis)?;
    let mut chosen = Vec::new(alloc);
    while is_up_to(basis, lower.len(), upto) {
        let end = end_of_weight(basis, lower.len());
        let links = linker.links_of(alloc, basis, &lower)?;
        choose(basis, lower.len(), end, &links, &mut chosen)?;
        lower = lower.raised(basis, end)?;
    }
    Ok(chosen)
}
