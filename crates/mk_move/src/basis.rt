ghost use Rattle.std.specs.Prelude.{◌≡◌, ◌+◌, ◌^◌, ◌<◌, [], ◌∷◌, ◌++◌, length, IfOk, IfErr, OnOk, OnErr, slice_get, IsTrue, All};
ghost use Rattle.mk_model.specs.Vectors.{IsEntry};
ghost use Rattle.mk_model.specs.CoreStates.{move_at};
ghost use Rattle.mk_model.specs.Orders.{lead};
ghost use Rattle.mk_move.specs.Masks.{HasExactMask, IsAtMostOne};
ghost use Rattle.mk_move.specs.MoveLists.{BelongsTo, IsBasis, AreLeadMasks, AreExact, vectors_of};

use crate::grading::Grading;
use crate::moves::Move;
use crate::priority::Priority;
use crate::side::Side;
use mk_model::{Entry, NoMemory};
use std::alloc::Global;
use std::marker::Model;

/// There is no memory to keep this move.
#[derive(Debug, Drop)]
pub struct PushFault {
    pub given: Move,
}

impl From<PushFault> for NoMemory {
    fn from(_fault: PushFault) -> NoMemory {
        NoMemory
    }
}

/// Moves with the priority list that orients them and the grading that weighs them, all of as many columns: fewer than
/// 2^32 moves, each with product 0. (Sturmfels, chapters 4 and 5)
#[derive(Debug, Drop)]
pub struct Basis {
    moves: Vec<Move>,
    lead_masks: Vec<u64>,
    exact: Vec<bool>,
    priority: Priority,
    grading: Grading,
}

impl Model for Basis {
    ghost use Rattle.mk_move.specs.MoveLists.{BasisView, IsBasis, AreLeadMasks, AreExact};

    ghost Value = { BasisView };

    ghost view = { λ b. record { moves = b.moves.items; priority = b.priority; grading = b.grading } };

    ghost invariant = { λ b. IsBasis (record { moves = b.moves.items; priority = b.priority; grading = b.grading })
        × AreLeadMasks b.moves.items b.lead_masks.items × AreExact b.moves.items b.exact.items };
}

impl Basis {
    /// A basis without moves. The list and the grading have as many columns.
    pub fn new(alloc: Global, priority: Priority, grading: Grading) -> Basis
        requires { length priority ≡ length grading }
        ensures moves { result.moves ≡ [] }
        ensures priority { result.priority ≡ priority }
        ensures grading { result.grading ≡ grading }
    {
        Basis {
            moves: Vec::new(alloc),
            lead_masks: Vec::new(alloc),
            exact: Vec::new(alloc),
            priority,
            grading,
        }
    }

    /// Puts a move at the end: one with product 0, the weight of its lead, and oriented by the list. The fault hands it
    /// back, and the basis is as before.
    pub fn push(&mut self, m: Move) -> Result<(), PushFault>
        requires belongs { BelongsTo self.old.priority self.old.grading m }
        requires room { length self.old.moves + 1 < 2 ^ 32 }
        ensures ok { OnOk result (self.new ≡ record self.old { moves = self.old.moves ++ m ∷ [] }) }
        ensures err { OnErr result (self.new ≡ self.old) }
        ensures given { IfErr result (λ fault. fault.given ≡ m) }
    {
        if self.lead_masks.push(m.mask(Side::Plus)).is_err() {
            return Err(PushFault { given: m });
        }
        if self.exact.push(has_exact_mask(&m)).is_err() {
            let _ = self.lead_masks.pop();
            return Err(PushFault { given: m });
        }
        match self.moves.push(m) {
            Ok(()) => Ok(()),
            Err(failed) => {
                let _ = self.exact.pop();
                let _ = self.lead_masks.pop();
                Err(PushFault {
                    given: failed.value,
                })
            }
        }
    }

    /// A basis without moves, with the same list and grading.
    pub fn try_copy_bare(&self) -> Result<Basis, NoMemory>
        ensures { IfOk result (λ bare. bare ≡ record self.now { moves = [] }) }
    {
        let alloc = *self.moves.allocator();
        let priority = self.priority.try_copy()?;
        let grading = self.grading.try_copy()?;
        Ok(Basis::new(alloc, priority, grading))
    }

    /// How many moves it has: fewer than 2^32.
    pub fn len(&self) -> u32
        ensures value { result ≡ length self.now.moves }
        ensures kept { IsBasis self.now }
    {
        self.moves.len() as u32
    }

    /// The move of a place.
    pub fn move_at(&self, k: u32) -> &Move
        requires { k < length self.now.moves }
        ensures value { slice_get self.now.moves k ≡ Some result.now }
        ensures belongs { BelongsTo self.now.priority self.now.grading result.now }
    {
        &self.moves[k as usize]
    }

    /// The mask of the lead of each move, in their order: a bit for each block of columns, set where the lead has an entry.
    pub fn lead_masks(&self) -> &[u64]
        ensures masks { AreLeadMasks self.now.moves result.now }
        ensures kept { IsBasis self.now }
    {
        &self.lead_masks
    }

    /// Is the mask of the lead of a place exact: are there at most 64 columns, and no entry above 1? True only where it is.
    /// (Sturmfels, chapter 1: a squarefree monomial)
    pub fn is_mask_exact(&self, k: u32) -> bool
        requires { k < length self.now.moves }
        ensures { IsTrue result → HasExactMask (lead (move_at (vectors_of self.now.moves) k)) }
    {
        self.exact[k as usize]
    }

    /// The list that orients its moves.
    pub fn priority(&self) -> &Priority
        ensures { result.now ≡ self.now.priority }
    {
        &self.priority
    }

    /// The grading that weighs its moves.
    pub fn grading(&self) -> &Grading
        ensures { result.now ≡ self.now.grading }
    {
        &self.grading
    }

    /// A copy of it.
    pub fn try_copy(&self) -> Result<Basis, NoMemory>
        ensures { IfOk result (λ copy. copy ≡ self.now) }
    {
        let moves = copies(*self.moves.allocator(), self.moves.as_slice())?;
        Ok(Basis {
            moves,
            lead_masks: self.lead_masks.clone()?,
            exact: self.exact.clone()?,
            priority: self.priority.try_copy()?,
            grading: self.grading.try_copy()?,
        })
    }
}

/// Is the mask of the lead of a move exact?
fn has_exact_mask(m: &Move) -> bool
    ensures { IsTrue result → HasExactMask (lead m.now.entries) }
{
    m.columns() <= 64 && is_none_above_one(m.entries())
}

/// Is no entry of the row above 1?
fn is_none_above_one(row: &[Entry]) -> bool
    requires { All IsEntry row.now }
    ensures { IsTrue result → All IsAtMostOne row.now }
{
    for entry in row {
        if *entry > 1 {
            return false;
        }
    }
    true
}

/// Copies of moves.
fn copies(alloc: Global, moves: &[Move]) -> Result<Vec<Move>, NoMemory>
    ensures { IfOk result (λ copies. copies.items ≡ moves.now) }
{
    let mut copies = Vec::with_capacity(alloc, moves.len())?;
    for m in moves {
        copies.push(m.try_copy()?)?;
    }
    Ok(copies)
}
