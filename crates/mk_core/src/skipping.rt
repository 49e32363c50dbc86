//! Pairs that are settled without reduction.

ghost use Rattle.std.specs.Prelude.{◌≡◌, IfOk, OnOk};
ghost use Rattle.mk_model.specs.CoreStates.{pair_of};
ghost use Rattle.mk_core.specs.GoingOn.{GoesOnUnclaimed, NoneClaims, FirstClaims, SkipsPair, IsChainOfClaim};

use crate::third_moves::ThirdMoves;
use mk_criteria::have_coprime_leads;
use mk_ledger::{ChainFault, Ledger};
use mk_model::NoMemory;

/// Claims and settles the next pairs of one second place, as long as the masks of their leads have no bit in common.
pub(crate) fn skip_disjoint(ledger: &mut Ledger) -> Result<(), NoMemory>
    requires unclaimed { NoneClaims ledger.old.state }
    ensures goes_on { GoesOnUnclaimed ledger.old ledger.new }
    ensures basis { ledger.new.basis ≡ ledger.old.basis }
{
    // Whoever has its basis knows that it is legal, and has a worker.
    let _ = ledger.basis();
    ledger.settle_disjoint(0)
}

/// Settles the pair that the worker has claimed without reduction, where its leads have no column in common or else a third
/// move is found that settles it, and tells whether it did.
pub(crate) fn skip_pair(
    ledger: &mut Ledger,
    third_moves: &mut ThirdMoves,
    i: u32,
    j: u32,
) -> Result<bool, NoMemory>
    requires { FirstClaims ledger.old.state (pair_of i j) }
    ensures { IfOk result (λ skipped. SkipsPair ledger.old (pair_of i j) skipped ledger.new) }
{
    if have_coprime_leads(ledger.basis(), i, j) {
        ledger.settle_coprime(0)?;
        return Ok(true);
    }
    match third_moves.find(ledger, i, j)? {
        Some(k) => {
            settle_by_chain(ledger, k)?;
            Ok(true)
        }
        None => Ok(false),
    }
}

/// Settles the claimed pair through a third move.
fn settle_by_chain(ledger: &mut Ledger, k: u32) -> Result<(), NoMemory>
    requires { IsChainOfClaim ledger.old.state k }
    ensures goes_on { OnOk result (GoesOnUnclaimed ledger.old ledger.new) }
    ensures basis { OnOk result (ledger.new.basis ≡ ledger.old.basis) }
{
    match ledger.settle_chain(0, k) {
        Ok(()) => Ok(()),
        Err(ChainFault::Memory) => Err(NoMemory),
        Err(ChainFault::Unsettled { .. }) => unreachable!(),
    }
}
