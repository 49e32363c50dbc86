//! Claims that are settled by a move that is placed.

ghost use Rattle.std.specs.Prelude.{◌≡◌, ◌<◌, ◌++◌, [], ◌∷◌, OnOk, OnErr, IfErr, length};
ghost use Rattle.mk_move.specs.MoveLists.{BelongsTo};
ghost use Rattle.mk_journal.specs.Entries.{HasItsThird};
ghost use Rattle.mk_ledger.specs.Ledgers.{IsLedger};
ghost use Rattle.mk_ledger.specs.Settlings.{IsReductOfClaim, IsPlacing, AreFlagsOf, IsGrown};

use super::settling::entry_of;
use super::{Ledger, PlaceFault};
use crate::bits::SettledBits;
use mk_journal::{Journal, JournalEntry, Kind};
use mk_move::{Basis, Move};

impl Ledger {
    /// Settles the claim of a worker by a move that is placed behind the last one, and gives its place. The move is the
    /// claim's difference, reduced by the first `front` moves. `Behind` comes where the basis has more of them, and else
    /// `BasisFull` where it has its limit: then the worker halts. After the other faults all is as before.
    pub fn settle_place(
        &mut self,
        worker: u32,
        front: u32,
        remainder: Move,
    ) -> Result<u32, PlaceFault>
        requires reduct { IsReductOfClaim self.old.state worker front remainder.entries }
        requires belongs { BelongsTo self.old.basis.priority self.old.basis.grading remainder }
        ensures placing { IsPlacing self.old worker front remainder result self.new }
        ensures before { IsLedger self.old }
        ensures kept { IsLedger self.new }
    {
        let length = self.basis.len();
        if front < length {
            return Err(PlaceFault::Behind {
                length,
                given: remainder,
            });
        }
        if length == self.limit {
            self.halt_full(worker);
            return Err(PlaceFault::BasisFull);
        }
        self.place(worker, remainder)
    }

    /// Settles the claim of a worker by a move for which there is room, and gives its place.
    fn place(&mut self, worker: u32, m: Move) -> Result<u32, PlaceFault>
        requires reduct { IsReductOfClaim self.old.state worker
            (length self.old.basis.moves) m.entries }
        requires belongs { BelongsTo self.old.basis.priority self.old.basis.grading m }
        requires room { length self.old.basis.moves < self.old.state.limit }
        ensures placing { IsPlacing self.old worker
            (length self.old.basis.moves) m result self.new }
        ensures kept { IsLedger self.new }
    {
        let place = self.basis.len();
        let held = self.held_by(worker);
        let entry = entry_of(held, worker, place, Kind::Place);
        append(
            &mut self.journal,
            &mut self.basis,
            &mut self.settled,
            entry,
            m,
        )?;
        self.settled.mark(held.i, held.j);
        self.claims[worker as usize] = None;
        Ok(place)
    }
}

/// Puts the entry at the end of the journal and the move at the end of the basis, with flags for its pairs. After a
/// refusal all is as before, and the move is handed back.
fn append(
    journal: &mut Journal,
    basis: &mut Basis,
    settled: &mut SettledBits,
    entry: JournalEntry,
    m: Move,
) -> Result<(), PlaceFault>
    requires belongs { BelongsTo basis.old.priority basis.old.grading m }
    requires flags { AreFlagsOf basis.old.moves settled.old }
    requires third { HasItsThird entry }
    ensures ok { OnOk result ((journal.new ≡ journal.old ++ entry ∷ []) ×
        IsGrown basis.old settled.old m basis.new settled.new) }
    ensures err { OnErr result ((journal.new ≡ journal.old) × (basis.new ≡ basis.old) ×
        (settled.new ≡ settled.old)) }
    ensures given { IfErr result (λ fault. fault ≡ PlaceFault.Memory m) }
{
    if journal.push(entry).is_err() {
        return Err(PlaceFault::Memory { given: m });
    }
    let grown = grow(basis, settled, m);
    if grown.is_err() {
        journal.take_back();
    }
    grown
}

/// Puts the move at the end of the basis, and flags for its pairs, none of them settled. After a refusal all is as before,
/// and the move is handed back.
fn grow(basis: &mut Basis, settled: &mut SettledBits, m: Move) -> Result<(), PlaceFault>
    requires belongs { BelongsTo basis.old.priority basis.old.grading m }
    requires flags { AreFlagsOf basis.old.moves settled.old }
    ensures ok { OnOk result (IsGrown basis.old settled.old m basis.new settled.new) }
    ensures err { OnErr result ((basis.new ≡ basis.old) × (settled.new ≡ settled.old)) }
    ensures given { IfErr result (λ fault. fault ≡ PlaceFault.Memory m) }
{
    if settled.grow().is_err() {
        return Err(PlaceFault::Memory { given: m });
    }
    match basis.push(m) {
        Ok(()) => Ok(()),
        Err(fault) => {
            settled.shrink();
            Err(PlaceFault::Memory { given: fault.given })
        }
    }
}
