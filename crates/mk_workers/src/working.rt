//! A worker's work, until nothing is left for it.

ghost use Rattle.std.specs.Prelude.{◌≡◌, None};
ghost use Rattle.mk_workers.specs.Stages.{HasWorked};

use crate::gate::Gate;
use crate::stage::SeatStage;
use crate::worker::Worker;
use mk_shared::{Seat, SharedCompletion};
use std::alloc::Global;
use std::sync::Wait;

/// Works for a seat until nothing is left for it: claims a pair of the basis; copies what is new of the basis; settles the pair
/// by disjoint leads, or through one of at most eight third moves; reduces it by the copy; and settles it by what is left, or
/// reduces that again where the basis has grown. Where an entry leaves the range, or there is no memory, its worker halts. The
/// gate is passed before each reduction, while no turn is held.
///
/// The seat is of this completion and has no claim. It comes back with its number, of this completion, without a claim, and done.
/// It may wait for others. (Sturmfels, chapters 1 and 12: Buchberger's algorithm for a lattice)
pub fn worker_loop<G: Gate, R: Wait>(
    rt: &R,
    alloc: Global,
    shared: &SharedCompletion,
    seat: Seat,
    gate: &G,
) -> Seat
    requires table { seat.table ≡ shared.now }
    requires idle { seat.sight.claim ≡ None }
    ensures { HasWorked seat result }
{
    let mut worker = Worker::new(alloc, seat);
    let mut stage = SeatStage::Idle;
    for _ in rt.forever() {
        match worker.take_step(alloc, shared, gate, stage) {
            SeatStage::Gone => return worker.seat,
            next => stage = next,
        }
    }
    unreachable!()
}
