use mk_move::{Move, OverflowAt};
use std::marker::Model;

/// Where an entry of `left - times * right` leaves the range: in the difference of the pair of the places `i` and `j`, with no
/// move and no operand, or in a step by a move of the basis from the remainder `operand`.
#[derive(Debug, Drop)]
pub struct OverflowStop {
    pub i: u32,
    pub j: u32,
    pub by: Option<u32>,
    pub operand: Option<Move>,
    pub at: OverflowAt,
}

/// Why a worker halts: an entry that leaves the range, a basis that has its limit of moves while its pair needs another, or
/// want of memory.
#[derive(Debug, Drop)]
pub enum Halt {
    Overflow(OverflowStop),
    Full { i: u32, j: u32 },
    Memory,
}

/// A halt, seen as that of the core state.
#[derive(Debug, Drop)]
pub(crate) struct KeptHalt {
    pub(crate) halt: Halt,
}

impl Model for KeptHalt {
    ghost use Rattle.mk_model.specs.CoreStates.{Halt};

    ghost Value = { Halt };

    ghost use Rattle.mk_ledger.specs.Halts.{halt_as};

    ghost view = { λ k. halt_as k.halt };
}
