ghost use Rattle.std.specs.Prelude.{◌≡◌, ◌+◌, ◌<◌, ◌^◌, [], ◌∷◌, ◌++◌, None, Some, length, slice_get, MatchOption, OnOk, OnErr};
ghost use Rattle.std.specs.Option.{option_copied};
ghost use Rattle.mk_solve.specs.Books.{empty_book, settled_of};

use mk_core::Phase;
use mk_inter::ReducedBasis;
use mk_ledger::OverflowStop;
use mk_model::NoMemory;
use mk_project::InputFault;
use std::alloc::Global;
use std::marker::Model;

/// Where an entry left the range: at a pair of a phase, in a step on the tail of the move of an index, or at a degree.
#[derive(Clone, Copy, Debug, PartialEq, Eq)]
pub enum OverflowPlace {
    Pair { phase: u32 },
    Tail { index: u32 },
    Degree,
}

/// Why a run stopped. For a tail both places of the overflow's pair are its index.
#[derive(Debug, Drop)]
pub enum BookStop {
    /// An entry left the range.
    Overflow {
        place: OverflowPlace,
        stop: OverflowStop,
    },
    /// So many pairs are settled, as many as the budget has, and one is left.
    Budget {
        settled: u64,
    },
    /// The basis of a phase has 65,536 moves, and its pair of the places `i` and `j` needs another.
    BasisFull {
        phase: u32,
        i: u32,
        j: u32,
    },
}

/// What a run keeps for its caller: the fault of its input, its phases, the reduced basis once it is made, and why it stopped.
#[derive(Debug, Drop)]
pub struct RunBook {
    fault: Option<InputFault>,
    phases: Vec<Phase>,
    settled: u64,
    reduced: Option<ReducedBasis>,
    stop: Option<BookStop>,
}

impl Model for RunBook {
    ghost use Rattle.mk_solve.specs.Books.{Book, IsBookKept};

    ghost Value = { Book };

    ghost view = { λ b.
        record { input = b.fault; phases = b.phases.items; reduced = b.reduced; stop = b.stop } };

    ghost invariant = { λ b. IsBookKept b.settled b.phases.items };
}

impl RunBook {
    /// An empty book.
    pub fn new(alloc: Global) -> RunBook
        ensures { result ≡ empty_book }
    {
        RunBook {
            fault: None,
            phases: Vec::new(alloc),
            settled: 0,
            reduced: None,
            stop: None,
        }
    }

    /// The fault of the input.
    pub fn input(&self) -> Option<&InputFault>
        ensures { option_copied result ≡ self.now.input }
    {
        self.fault.as_ref()
    }

    /// Keeps a fault of the input.
    pub fn refuse(&mut self, fault: InputFault)
        ensures { self.new ≡ record self.old { input = Some fault } }
    {
        self.fault = Some(fault);
    }

    /// Puts a phase at the end. After a refusal the book is as before.
    pub(crate) fn push_phase(&mut self, phase: Phase) -> Result<(), NoMemory>
        requires few_phases { length self.old.phases + 1 < 2 ^ 32 }
        requires few_settled { settled_of self.old.phases + length phase.journal < 2 ^ 64 }
        ensures ok { OnOk result
            (self.new ≡ record self.old { phases = self.old.phases ++ phase ∷ [] }) }
        ensures err { OnErr result (self.new ≡ self.old) }
    {
        let settled = phase.journal.len();
        self.phases.push(phase)?;
        self.settled += settled;
        Ok(())
    }

    /// Keeps the reduced basis.
    pub(crate) fn keep_reduced(&mut self, reduced: ReducedBasis)
        ensures { self.new ≡ record self.old { reduced = Some reduced } }
    {
        self.reduced = Some(reduced);
    }

    /// Keeps why the run stopped.
    pub(crate) fn stop_with(&mut self, stop: BookStop)
        ensures { self.new ≡ record self.old { stop = Some stop } }
    {
        self.stop = Some(stop);
    }

    /// How many phases there are: the one that stopped is among them.
    pub fn phase_count(&self) -> u32
        ensures { result ≡ length self.now.phases }
    {
        self.phases.len() as u32
    }

    /// The phase of a number.
    pub fn phase_at(&self, n: u32) -> &Phase
        requires { n < length self.now.phases }
        ensures { slice_get self.now.phases n ≡ Some result.now }
    {
        &self.phases[n as usize]
    }

    /// The last phase.
    pub(crate) fn last_phase(&self) -> Option<&Phase> {
        self.phases.last()
    }

    /// How many pairs the phases settled together.
    pub fn settled(&self) -> u64
        ensures { result ≡ settled_of self.now.phases }
    {
        self.settled
    }

    /// The reduced basis, once it is made.
    pub fn reduced(&self) -> Option<&ReducedBasis>
        ensures { MatchOption result (self.now.reduced ≡ None) (λ basis.
            self.now.reduced ≡ Some basis.now) }
    {
        self.reduced.as_ref()
    }

    /// Why the run stopped.
    pub fn stop(&self) -> Option<&BookStop>
        ensures { MatchOption result (self.now.stop ≡ None) (λ stop.
            self.now.stop ≡ Some stop.now) }
    {
        self.stop.as_ref()
    }
}
