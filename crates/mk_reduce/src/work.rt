use crate::step::Step;
use mk_move::Move;
use std::alloc::Global;
use std::marker::Model;

/// The work on a pair of a basis: what is left of the difference of its moves, none for zero, the steps that led there,
/// and how many of the first moves it has been reduced by. (Sturmfels, chapters 1 and 5: an S-pair and its remainder)
#[derive(Debug, Drop)]
pub struct Work {
    pub(crate) first: u32,
    pub(crate) second: u32,
    pub(crate) front: u32,
    pub(crate) remainder: Option<Move>,
    pub(crate) trace: Vec<Step>,
}

impl Model for Work {
    ghost use Rattle.mk_model.specs.CoreStates.{pair_of};
    ghost use Rattle.mk_reduce.specs.Works.{TheWork};

    ghost Value = { TheWork };

    ghost view = { λ w. record { pair = pair_of w.first w.second; front = w.front; remainder = w.remainder; trace = w.trace.items } };
}

impl Work {
    ghost use Rattle.std.specs.Prelude.{◌≡◌, [], MatchOption, None, Some};
    ghost use Rattle.mk_model.specs.CoreStates.{pair_of};
    ghost use Rattle.mk_reduce.specs.Works.{TheWork};

    /// The work that begins at the difference of a pair.
    pub(crate) fn new(alloc: Global, first: u32, second: u32, remainder: Option<Move>) -> Work
        ensures { result ≡ record { pair = pair_of first second; front = 0; remainder = remainder; trace = [] } }
    {
        Work {
            first,
            second,
            front: 0,
            remainder,
            trace: Vec::new(alloc),
        }
    }

    /// The places of the two moves, the lesser first.
    pub fn pair(&self) -> (u32, u32)
        ensures first { result.0 ≡ self.now.pair.first }
        ensures second { result.1 ≡ self.now.pair.second }
    {
        (self.first, self.second)
    }

    /// By how many of the first moves it has been reduced.
    pub fn front(&self) -> u32
        ensures { result ≡ self.now.front }
    {
        self.front
    }

    /// What is left of the difference, and none for zero.
    pub fn remainder(&self) -> Option<&Move>
        ensures { MatchOption result (self.now.remainder ≡ None) (λ m. self.now.remainder ≡ Some m.now) }
    {
        self.remainder.as_ref()
    }

    /// What is left of the difference, and none for zero.
    pub fn into_remainder(self) -> Option<Move>
        ensures { result ≡ self.remainder }
    {
        self.remainder
    }
}
