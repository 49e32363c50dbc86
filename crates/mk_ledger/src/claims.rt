ghost use Rattle.std.specs.Prelude.{◌≡◌, ℕ, ◌+◌, ◌<◌, ◌≤◌, ◌↔◌, IsTrue, length, None, Some};
ghost use Rattle.mk_model.specs.CoreStates.{claim_of, IsLesser};
ghost use Rattle.mk_ledger.specs.PairFlags.{pairs_of};
ghost use Rattle.mk_ledger.specs.Claims.{AnswersClaim};
ghost use Rattle.mk_ledger.specs.HeldClaims.{MayClaim, NoneHeld, IsLeastOf};

use std::marker::Model;

/// What a worker is answered that asks for a pair.
#[derive(Clone, Copy, Debug, PartialEq, Eq)]
pub enum Claim {
    /// The least pair that is neither settled nor claimed.
    Claimed { i: u32, j: u32 },
    /// Each unsettled pair is claimed: the least of them, and its worker.
    NotYet { worker: u32, i: u32, j: u32 },
    /// Every pair is settled.
    Ended,
    /// A pair is free, and as many claims were made as the budget has.
    OverBudget { made: u64 },
    /// A worker halted: the first that did.
    Stopped { worker: u32 },
}

/// The pair that a worker has claimed: two places, the lesser first.
#[derive(Clone, Copy, Debug, Drop)]
pub(crate) struct Held {
    pub(crate) i: u32,
    pub(crate) j: u32,
}

impl Model for Held {
    ghost use Rattle.mk_model.specs.CoreStates.{Pair, pair_of};

    ghost Value = { Pair };

    ghost view = { λ h. pair_of h.i h.j };

    ghost inverse = { λ p. record { i = p.first; j = p.second } };
}

/// Whether the first pair comes before the other: by its second place, then by its first.
fn is_lesser(held: Held, other: Held) -> bool
    ensures { IsTrue result ↔ IsLesser held other }
{
    held.j < other.j || (held.j == other.j && held.i < other.i)
}

/// The least claim of the workers up to this one, by the least of those before it.
fn with_next(
    claims: &[Option<Held>],
    least: Option<(u32, Held)>,
    worker: u32,
) -> Option<(u32, Held)>
    requires within { worker < length claims.now }
    requires before { IsLeastOf claims.now worker least }
    ensures { IsLeastOf claims.now (worker + 1) result }
{
    let held = match claims[worker as usize] {
        Some(held) => held,
        None => return least,
    };
    match least {
        None => Some((worker, held)),
        Some(known) => {
            if is_lesser(held, known.1) {
                Some((worker, held))
            } else {
                Some(known)
            }
        }
    }
}

/// Whether no worker has a claim.
pub(crate) fn none_held(claims: &[Option<Held>]) -> bool
    requires { length claims.now ≤ 64 }
    ensures { IsTrue result ↔ NoneHeld claims.now (length claims.now) }
{
    least_claim(claims).is_none()
}

/// The least of the claims with its worker, or none where no worker has a claim.
pub(crate) fn least_claim(claims: &[Option<Held>]) -> Option<(u32, Held)>
    requires { length claims.now ≤ 64 }
    ensures { IsLeastOf claims.now (length claims.now) result }
{
    let mut least = None;
    for worker in 0..claims.len() as u32 {
        least = with_next(claims, least, worker);
    }
    least
}
