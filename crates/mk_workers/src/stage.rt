//! At what a worker is, and why it halts.

ghost use Rattle.std.specs.Prelude.{◌≡◌};
ghost use Rattle.mk_model.specs.CoreStates.{pair_of};
ghost use Rattle.mk_workers.specs.Stages.{halt_for};

use mk_ledger::{Halt, OverflowStop};
use mk_move::Move;
use mk_reduce::{Stop, Work};

/// At what a worker is. `Idle`: it has no claim. `Fresh`: it has one. `Tests`: its copy has both moves. `Disjoint`: their leads have
/// no column in common. `Thirds`: they have one, it looks for a third move from a place on, and has tried so many. `Ready`: its pair
/// is to be reduced by its copy. `Reduced`: it has what is left. `Stale`: the basis has more moves than reduced it. `Stopping`: it is
/// to halt. `Gone`: nothing is left for it.
#[derive(Debug, Drop)]
pub(crate) enum SeatStage {
    Idle,
    Fresh,
    Tests,
    Disjoint,
    Thirds { from: u32, tried: u32 },
    Ready,
    Reduced { work: Work },
    Stale { work: Work },
    Stopping { halt: Halt },
    Gone,
}

/// The halt for a stop of the work on a pair, where so much was left.
pub(crate) fn halt_for_stop(i: u32, j: u32, operand: Option<Move>, stop: Stop) -> Halt
    ensures { result ≡ halt_for (pair_of i j) operand stop }
{
    match stop {
        Stop::Memory => Halt::Memory,
        Stop::Overflow { by, at } => Halt::Overflow(OverflowStop {
            i,
            j,
            by,
            operand,
            at,
        }),
    }
}
