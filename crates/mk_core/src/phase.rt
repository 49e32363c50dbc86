use mk_ledger::{Journal, OverflowStop};
use mk_model::NoMemory;
use mk_move::Basis;
use std::marker::Model;

/// What a completion begins with: the moves of the start, how many pairs may be settled, and how many moves the basis may
/// have, at most 65,536 and no fewer than the start.
#[derive(Debug, Drop)]
pub struct Job {
    pub start: Basis,
    pub budget: u64,
    pub basis_limit: u32,
}

impl Model for Job {
    ghost use Rattle.mk_core.specs.Jobs.{JobView, job_with, KeepsLimit};

    ghost Value = { JobView };

    ghost view = { λ j. job_with j.start j.budget j.basis_limit };

    ghost invariant = { λ j. KeepsLimit (job_with j.start j.budget j.basis_limit) };
}

/// What a completion has done: how many moves it began with, its basis, and the journal of the settled pairs.
#[derive(Debug, Drop)]
pub struct Phase {
    pub start_len: u32,
    pub basis: Basis,
    pub journal: Journal,
}

/// Why a completion stopped: want of memory; an entry out of range at an unsettled pair; as many settled pairs as the budget
/// has while a pair is left; or a basis that has its limit of moves while its pair of the places `i` and `j` needs another.
#[derive(Debug, Drop)]
pub enum Stopped {
    Memory,
    Overflow { phase: Phase, stop: OverflowStop },
    OverBudget { phase: Phase },
    BasisFull { phase: Phase, i: u32, j: u32 },
}

impl From<NoMemory> for Stopped {
    ghost use Rattle.std.specs.Prelude.{◌≡◌};
    ghost use Rattle.mk_core.specs.declared.phase.Stopped.TheVariants.{Memory};

    ghost from_gives = { λ _ e. e ≡ Memory };

    fn from(_e: NoMemory) -> Stopped {
        Stopped::Memory
    }
}
