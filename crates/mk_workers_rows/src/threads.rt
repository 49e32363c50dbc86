ghost use Rattle.std.specs.Prelude.{◌≡◌, None};

use crate::starts::{OVERLAPPING, begun};
use mk_ledger::Claim;
use mk_shared::{Busy, Seat, SharedCompletion};
use std::test::Fail;
use std::thread;
use std::thread::join;

// Tries up to a thousand times to claim a pair.
fn claim_often(shared: &SharedCompletion, seat: Seat) -> (Option<Claim>, Seat)
    requires { (seat.table ≡ shared.now) × (seat.sight.claim ≡ None) }
    ensures { result.1.table ≡ shared.now }
{
    let mut seat = seat;
    for _ in 0..1000u64 {
        match shared.try_claim(&mut seat) {
            Ok(answer) => return (Some(answer), seat),
            Err(Busy { .. }) => thread::yield_now(),
        }
    }
    (None, seat)
}

// Two threads that claim at the same time are given different pairs.
#[test]
fn two_threads_claim_two_pairs(rt: HostRuntime) -> Result<(), Fail> {
    let (shared, mut first) = begun(&rt, OVERLAPPING, 65_536, 2)?;
    let second = shared.split(&mut first)?;
    let completion = &shared;
    let ((a, _first), (b, _second)) = join(
        &rt,
        || claim_often(completion, first),
        || claim_often(completion, second),
    );
    let pairs = [
        Some(Claim::Claimed { i: 0, j: 1 }),
        Some(Claim::Claimed { i: 0, j: 2 }),
    ];
    assert!(rt; pairs.contains(&a) && pairs.contains(&b) && a != b);
    Ok(())
}
