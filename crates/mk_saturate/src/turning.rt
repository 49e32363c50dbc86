ghost use Rattle.std.specs.Prelude.{◌≡◌, ◌+◌, ◌<◌, ◌≤◌, ◌^◌, length, IfOk, OnOk};
ghost use Rattle.std.specs.List.{AllZip};
ghost use Rattle.mk_move.specs.Moves.{IsGraded};
ghost use Rattle.mk_move.specs.MoveLists.{vectors_of};
ghost use Rattle.mk_model.specs.Orders.{IsRowTurned};
ghost use Rattle.mk_saturate.specs.Saturations.{IsJob, IsTurnedOnto};

use mk_core::Job;
use mk_model::{MOVES_MAX, NoMemory};
use mk_move::{Basis, Move, Priority};
use std::alloc::Global;

/// The job over the moves of a basis, along a list of as many columns.
pub(crate) fn job_along(
    alloc: Global,
    basis: &Basis,
    priority: Priority,
    budget: u64,
) -> Result<Job, NoMemory>
    requires list { length priority ≡ length basis.now.grading }
    requires few_moves { length basis.now.moves ≤ 65536 }
    ensures { IfOk result (IsJob basis.now priority budget) }
{
    let start = turned(alloc, basis, priority)?;
    Ok(Job {
        start,
        budget,
        basis_limit: MOVES_MAX,
    })
}

/// The moves of a basis in their order, each turned by the list, which has as many columns.
fn turned(alloc: Global, basis: &Basis, priority: Priority) -> Result<Basis, NoMemory>
    requires { length priority ≡ length basis.now.grading }
    ensures priority { IfOk result (λ turned. turned.priority ≡ priority) }
    ensures grading { IfOk result (λ turned. turned.grading ≡ basis.now.grading) }
    ensures moves { IfOk result (λ turned.
        AllZip (IsRowTurned priority) (vectors_of basis.now.moves) (vectors_of turned.moves)) }
{
    let mut turned = Basis::new(alloc, priority, basis.grading().try_copy()?);
    for k in 0..basis.len() {
        push_turned(&mut turned, basis.move_at(k))?;
    }
    Ok(turned)
}

/// Puts a copy of a move at the end, turned by the list of the basis. The move has as many columns, and product 0.
fn push_turned(turned: &mut Basis, row: &Move) -> Result<(), NoMemory>
    requires columns { length row.now.entries ≡ length turned.old.priority }
    requires graded { IsGraded turned.old.grading row.now }
    requires few_turned { length turned.old.moves + 1 < 2 ^ 32 }
    ensures { OnOk result (IsTurnedOnto turned.old row.now turned.new) }
{
    let mut next = row.try_copy()?;
    next.orient(turned.priority());
    turned.push(next)?;
    Ok(())
}
