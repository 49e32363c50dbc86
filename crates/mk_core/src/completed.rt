ghost use Rattle.std.specs.Prelude.{◌≡◌, List, ℤ, length};
ghost use Rattle.mk_model.specs.CoreStates.{start_of};
ghost use Rattle.mk_model.specs.Pairs.{AreOrientedMoves, EveryPairJoined};
ghost use Rattle.mk_move.specs.MoveLists.{vectors_of};
ghost use Rattle.mk_core.specs.Phases.{IsCompleted, state_of};
ghost use Rattle.mk_model.specs.Lattices.{lattice_of};

use crate::phase::Phase;
use std::marker::Model;

/// A phase in which every pair of the basis is settled, and whose journal replays legally from its start.
#[derive(Debug, Drop)]
pub struct Completed {
    phase: Phase,
}

impl Model for Completed {
    ghost use Rattle.mk_core.specs.declared.phase.Phase.{Phase};

    ghost Value = { Phase };

    ghost use Rattle.mk_core.specs.Phases.{IsCompleted};

    ghost view = { λ c. c.phase };

    ghost invariant = { λ c. IsCompleted c.phase };
}

impl Completed {
    /// A phase that is completed.
    pub(crate) fn of_phase(phase: Phase) -> Completed
        requires { IsCompleted phase }
        ensures { result ≡ phase }
    {
        Completed { phase }
    }

    /// The phase. Every pair of its basis is joined below, where the moves of its start were moves of a lattice, oriented by
    /// the list.
    pub fn phase(&self) -> &Phase
        ensures value { result.now ≡ self.now }
        ensures kept { IsCompleted self.now }
        ensures joined { (rows : List (List ℤ)) →
            AreOrientedMoves (lattice_of (length self.now.basis.grading) rows self.now.basis.grading)
            self.now.basis.priority (start_of (state_of self.now 0 0)) →
            EveryPairJoined (length self.now.basis.grading) self.now.basis.priority
            (vectors_of self.now.basis.moves) }
    {
        &self.phase
    }

    /// The phase.
    pub fn into_phase(self) -> Phase
        ensures value { result ≡ self }
        ensures kept { IsCompleted self }
    {
        self.phase
    }
}
