ghost use Rattle.std.specs.Prelude.{◌≡◌, ◌≤◌, ◌<◌, ◌↔◌, IsTrue, MatchOption, length, slice_get, Some, None, replicate, IfOk, IfSome, ℕ};
ghost use Rattle.mk_model.specs.CoreStates.{pair_of, claim_of, new_state};
ghost use Rattle.mk_model.specs.Events.{AreSettled};
ghost use Rattle.mk_model.specs.Legal.{IsEnded};
ghost use Rattle.mk_move.specs.MoveLists.{vectors_of};
ghost use Rattle.mk_journal.specs.Entries.{settle_of, settles_of, HasItsThird, HaveTheirThirds};
ghost use Rattle.mk_ledger.specs.Ledgers.{IsLedger};
ghost use Rattle.mk_ledger.specs.FirstHalts.{IsFirstHalt, IsHaltOf};

mod claiming;
mod disjoint;
mod halting;
mod placing;
mod settling;

use crate::bits::SettledBits;
use crate::claims::{Held, none_held};
use crate::halt::{Halt, KeptHalt};
use crate::pairs::Frontier;
use mk_journal::{Journal, JournalEntry};
use mk_model::NoMemory;
use mk_move::{Basis, Move, SettledPairs};
use std::alloc::Global;
use std::marker::Model;

/// A completion as it stands: its basis, the journal of the settled pairs, the claim and the halt of each worker. It is seen
/// as the core state with the moves' weights, list and grading, and is always legal.
#[derive(Debug, Drop)]
pub struct Ledger {
    start_len: u32,
    basis: Basis,
    settled: SettledBits,
    journal: Journal,
    next: Frontier,
    claims: Vec<Option<Held>>,
    given_up: u64,
    halts: Vec<Option<KeptHalt>>,
    first: Option<u32>,
    budget: u64,
    limit: u32,
    workers: u32,
}

impl Model for Ledger {
    ghost use Rattle.std.specs.Prelude.{◌≡◌, length};
    ghost use Rattle.mk_move.specs.MoveLists.{vectors_of};
    ghost use Rattle.mk_ledger.specs.Ledgers.{LedgerView, IsLedger, AreFlagged, AreInOrder};

    ghost Value = { LedgerView };

    ghost use Rattle.mk_ledger.specs.LedgerFields.{ledger_of, AreFields};

    ghost view = { ledger_of };

    ghost invariant = { AreFields };
}

/// What is left of a completion: how many moves the basis began with, the basis, how its pairs were settled, and the halt of
/// the worker that halted first.
#[derive(Debug, Drop)]
pub struct LedgerParts {
    pub start_len: u32,
    pub basis: Basis,
    pub journal: Journal,
    pub first_halt: Option<Halt>,
}

/// Why a claim is not settled through a third move: want of memory, or the pair of one of its places and the third, the
/// lesser place first, that isn't settled.
#[derive(Clone, Copy, Debug, PartialEq, Eq)]
pub enum ChainFault {
    Memory,
    Unsettled { i: u32, j: u32 },
}

impl From<NoMemory> for ChainFault {
    ghost use Rattle.std.specs.Prelude.{◌≡◌};
    ghost use Rattle.mk_ledger.specs.declared.ledger.ChainFault.TheVariants.{Memory};

    ghost from_gives = { λ _ e. e ≡ Memory };

    fn from(_e: NoMemory) -> ChainFault {
        ChainFault::Memory
    }
}

/// Why a move is not placed.
#[derive(Debug, Drop)]
pub enum PlaceFault {
    /// There is no memory for this move.
    Memory { given: Move },
    /// The basis has more moves than this one was reduced by: so many.
    Behind { length: u32, given: Move },
    /// The basis has its limit of moves, and the worker halts for it.
    BasisFull,
}

impl Ledger {
    /// A completion of the moves of a basis that begins: no pair is settled, and no worker has a claim or a halt. At most so
    /// many claims may be made, the basis may have at most so many moves, and there are 1 to 64 workers.
    pub fn new(
        alloc: Global,
        start: Basis,
        budget: u64,
        basis_limit: u32,
        workers: u32,
    ) -> Result<Ledger, NoMemory>
        requires room { length start.moves ≤ basis_limit }
        requires limit { basis_limit ≤ 65536 }
        requires some { 1 ≤ workers }
        requires few { workers ≤ 64 }
        ensures state { IfOk result (λ ledger. ledger.state ≡ new_state
            (vectors_of start.moves) budget basis_limit workers) }
        ensures basis { IfOk result (λ ledger. ledger.basis ≡ start) }
        ensures kept { IfOk result IsLedger }
    {
        let start_len = start.len();
        let settled = SettledBits::of_moves(alloc, start_len)?;
        let claims = none_for_each(alloc, workers)?;
        let halts = none_for_each(alloc, workers)?;
        Ok(Ledger {
            start_len,
            basis: start,
            settled,
            journal: Journal::new(alloc),
            next: Frontier::new(),
            claims,
            given_up: 0,
            halts,
            first: None,
            budget,
            limit: basis_limit,
            workers,
        })
    }

    /// How many moves the basis began with.
    pub fn start_len(&self) -> u32
        ensures { result ≡ self.now.state.start_length }
    {
        self.start_len
    }

    /// The basis: the start's moves, and then those placed, in their order.
    pub fn basis(&self) -> &Basis
        ensures value { result.now ≡ self.now.basis }
        ensures kept { IsLedger self.now }
    {
        &self.basis
    }

    /// Whether every pair of the basis is settled and no worker has a claim.
    pub fn is_ended(&self) -> bool
        ensures { IsTrue result ↔ IsEnded self.now.state }
    {
        if self.given_up > 0 {
            return false;
        }
        if self.next.is_within(self.basis.len()) {
            return false;
        }
        none_held(&self.claims)
    }

    /// The places of a worker's claim, the lesser first.
    pub fn claim_of(&self, worker: u32) -> Option<(u32, u32)>
        requires { worker < self.now.state.workers }
        ensures { MatchOption result (claim_of self.now.state worker ≡ None)
            (λ places. claim_of self.now.state worker ≡ Some (pair_of places.0 places.1)) }
    {
        let held = self.claims[worker as usize]?;
        Some((held.i, held.j))
    }

    /// How many claims were made: at most the budget.
    pub fn claims_made(&self) -> u64
        ensures value { result ≡ self.now.state.claims_made }
        ensures range { result ≤ self.now.state.budget }
    {
        self.next.number()
    }

    /// How many pairs are settled.
    pub fn settled_count(&self) -> u64
        ensures { result ≡ length self.now.state.journal }
    {
        self.journal.len()
    }

    /// An entry of the journal by its number, the first being 0.
    pub fn entry_at(&self, n: u64) -> JournalEntry
        requires { n < length self.now.state.journal }
        ensures value { slice_get self.now.state.journal n ≡ Some (settle_of result) }
        ensures third { HasItsThird result }
    {
        self.journal.entry_at(n)
    }

    /// The halt of the worker that halted first.
    pub fn first_halt(&self) -> Option<&Halt>
        ensures { MatchOption result (self.now.state.first_halted ≡ None)
            (λ halt. IsFirstHalt self.now.state (Some halt.now)) }
    {
        let worker = self.first?;
        match &self.halts[worker as usize] {
            Some(kept) => Some(&kept.halt),
            None => None,
        }
    }

    /// How many claims may be made.
    pub fn budget(&self) -> u64
        ensures { result ≡ self.now.state.budget }
    {
        self.budget
    }

    /// How many moves the basis may have: at most 65,536.
    pub fn basis_limit(&self) -> u32
        ensures value { result ≡ self.now.state.limit }
        ensures range { result ≤ 65536 }
    {
        self.limit
    }

    /// How many workers there are: 1 to 64.
    pub fn workers(&self) -> u32
        ensures value { result ≡ self.now.state.workers }
        ensures some { 1 ≤ result }
        ensures few { result ≤ 64 }
    {
        self.workers
    }

    /// Whether the pair of two places is settled, in either order.
    pub fn is_settled(&self, i: u32, j: u32) -> bool
        ensures { IsTrue result ↔ AreSettled self.now.state.journal i j }
    {
        let low = i.min(j);
        let high = i.max(j);
        if low == high || high >= self.basis.len() {
            return false;
        }
        self.settled.is_settled(low, high)
    }

    /// From this place on no place has a settled pair with `j`.
    pub fn settled_end(&self, j: u32) -> u32
        ensures { (k : ℕ) → result ≤ k → ¬ (AreSettled self.now.state.journal j k) }
    {
        self.next.end_beside(j)
    }

    /// Takes a ledger apart.
    pub fn into_parts(self) -> LedgerParts
        ensures start_len { result.start_len ≡ self.state.start_length }
        ensures basis { result.basis ≡ self.basis }
        ensures journal { settles_of result.journal ≡ self.state.journal }
        ensures thirds { HaveTheirThirds result.journal }
        ensures first_halt { IsFirstHalt self.state result.first_halt }
        ensures kept { IsLedger self }
    {
        // Whoever counts its entries knows that each has its third.
        let _ = self.journal.len();
        let first_halt = take_halt(self.halts, self.first);
        LedgerParts {
            start_len: self.start_len,
            basis: self.basis,
            journal: self.journal,
            first_halt,
        }
    }
}

impl SettledPairs for Ledger {
    ghost journal = { λ l. l.state.journal };

    fn is_settled(&self, i: u32, j: u32) -> bool {
        Ledger::is_settled(self, i, j)
    }

    fn settled_end(&self, j: u32) -> u32 {
        Ledger::settled_end(self, j)
    }
}

/// None for each of so many workers.
fn none_for_each<T: Drop>(alloc: Global, workers: u32) -> Result<Vec<Option<T>>, NoMemory>
    ensures { IfOk result (λ nones. nones.items ≡ replicate workers None) }
{
    let mut nones = Vec::with_capacity(alloc, workers as usize)?;
    for _ in 0..workers {
        nones.push(None)?;
    }
    Ok(nones)
}

/// The halt of a worker among the halts of all, or none where no worker is named.
fn take_halt(mut halts: Vec<Option<KeptHalt>>, worker: Option<u32>) -> Option<Halt>
    requires { IfSome worker (λ w. w < length halts.items) }
    ensures { IsHaltOf halts.items worker result }
{
    let place = worker?;
    match halts.swap_remove(place as usize) {
        Some(kept) => Some(kept.halt),
        None => None,
    }
}
