//! The work on a pair of a basis, from its difference to what is left of it.

ghost use Rattle.std.specs.Prelude.{◌≡◌, MatchResult};
ghost use Rattle.mk_model.specs.CoreStates.{pair_of, IsPairOf};
ghost use Rattle.mk_move.specs.MoveLists.{vectors_of};
ghost use Rattle.mk_reduce.specs.Leads.{leads_of};
ghost use Rattle.mk_reduce.specs.Remainders.{IsRemainder};
ghost use Rattle.mk_core.specs.Remainders.{IsWorkFault, fault_for};

use crate::completion::LeadFinder;
use mk_ledger::OverflowStop;
use mk_move::{Basis, Move};
use mk_reduce::{RemainderFault, Scratch, remainder_in};

/// Why the work on a pair stops: want of memory, or an entry that leaves its range.
#[derive(Debug, Drop)]
pub enum WorkFault {
    Memory,
    Overflow(OverflowStop),
}

/// What is left of the difference of a pair of the basis, reduced by the basis: none for zero. The finder has its leads.
/// The difference is made and reduced in the scratch. (Sturmfels, chapters 1 and 5: the remainder of an S-pair)
pub fn work_on(
    scratch: &mut Scratch,
    basis: &Basis,
    finder: &LeadFinder,
    i: u32,
    j: u32,
) -> Result<Option<Move>, WorkFault>
    requires leads { finder.now ≡ leads_of basis.now.moves }
    requires pair { IsPairOf (vectors_of basis.now.moves) (pair_of i j) }
    ensures { MatchResult result (IsRemainder basis.now (pair_of i j))
        (IsWorkFault (vectors_of basis.now.moves) (pair_of i j)) }
{
    match remainder_in(scratch, basis, finder, i, j) {
        Ok(left) => Ok(left),
        Err(fault) => Err(work_fault(i, j, fault)),
    }
}

/// The fault where there is no remainder of a pair.
fn work_fault(i: u32, j: u32, fault: RemainderFault) -> WorkFault
    ensures { result ≡ fault_for (pair_of i j) fault }
{
    match fault {
        RemainderFault::Memory => WorkFault::Memory,
        RemainderFault::Overflow { by, operand, at } => WorkFault::Overflow(OverflowStop {
            i,
            j,
            by,
            operand,
            at,
        }),
    }
}
