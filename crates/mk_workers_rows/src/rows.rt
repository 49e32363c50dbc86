use crate::calls::{
    assert_claims, assert_copies, assert_places, claim, settle, settle_apart, settle_by,
    settle_through, stop, work_of,
};
use crate::starts::{DISJOINT, OVERLAPPING, begun};
use mk_core::Kind;
use mk_ledger::Claim;
use mk_shared::{SettleFault, SplitFault, TryChainFault};
use std::test::Fail;

// A completion by two workers has two seats and no third.
#[test]
fn there_are_as_many_seats_as_workers(rt: HostRuntime) -> Result<(), Fail> {
    let (shared, mut first) = begun(&rt, OVERLAPPING, 65_536, 2)?;
    let second = shared.split(&mut first)?;
    assert!(rt; first.number() == 0 && second.number() == 1);
    let third = shared.split(&mut first);
    assert!(rt; matches!(third, Err(SplitFault::Seats { made: 2 })));
    Ok(())
}

// Both seats reduce by the three moves; the second places its move, and the first, which is behind, refreshes and places its own.
#[test]
fn a_seat_that_is_behind_refreshes(rt: HostRuntime) -> Result<(), Fail> {
    let (shared, mut first) = begun(&rt, OVERLAPPING, 65_536, 2)?;
    let mut second = shared.split(&mut first)?;
    assert_claims(&rt, &shared, &mut first, 0, 1);
    assert_claims(&rt, &shared, &mut second, 0, 2);
    let behind = work_of(&rt, &first)?;
    assert_places(&rt, &shared, &mut second, 3)?;
    let stale = settle_by(&shared, &mut first, &behind);
    assert_eq!(rt; stale, Err(SettleFault::Behind { length: 4 }));
    assert_copies(&rt, &shared, &mut first, 3, [2, 0, -2, 0])?;
    assert_places(&rt, &shared, &mut first, 4)?;
    assert_copies(&rt, &shared, &mut second, 4, [0, 2, -2, 0])?;
    Ok(())
}

// The pair of the first two of three moves isn't settled through the third, since neither pair with that is. The seat keeps its claim.
#[test]
fn a_seat_keeps_a_claim_that_is_not_settled(rt: HostRuntime) -> Result<(), Fail> {
    let (shared, mut first) = begun(&rt, OVERLAPPING, 65_536, 2)?;
    assert_eq!(rt;
        claim(&rt, &shared, &mut first),
        Claim::Claimed { i: 0, j: 1 }
    );
    let unsettled = settle_through(&rt, &shared, &mut first, 2);
    assert_eq!(rt; unsettled, Err(TryChainFault::Unsettled { i: 0, j: 2 }));
    assert_eq!(rt; first.claim(), Some((0, 1)));
    assert!(rt; !first.is_done());
    Ok(())
}

// A seat that halts has no claim any more, and the other is told so.
#[test]
fn a_seat_that_halts_stops_the_other(rt: HostRuntime) -> Result<(), Fail> {
    let (shared, mut first) = begun(&rt, OVERLAPPING, 65_536, 2)?;
    let mut second = shared.split(&mut first)?;
    assert_eq!(rt;
        claim(&rt, &shared, &mut first),
        Claim::Claimed { i: 0, j: 1 }
    );
    stop(&rt, &shared, &mut first);
    assert!(rt; first.claim().is_none() && first.is_done());
    assert_eq!(rt;
        claim(&rt, &shared, &mut second),
        Claim::Stopped { worker: 0 }
    );
    assert!(rt; second.is_done());
    assert!(rt; first.misses() == 0 && second.misses() == 0);
    Ok(())
}

// Where the basis has its limit of three moves, the seat whose claim needs another halts.
#[test]
fn a_seat_halts_where_the_basis_is_full(rt: HostRuntime) -> Result<(), Fail> {
    let (shared, mut first) = begun(&rt, OVERLAPPING, 3, 1)?;
    assert_eq!(rt;
        claim(&rt, &shared, &mut first),
        Claim::Claimed { i: 0, j: 1 }
    );
    assert_eq!(rt;
        settle(&rt, &shared, &mut first)?,
        Err(SettleFault::BasisFull)
    );
    assert!(rt; first.claim().is_none() && first.is_done());
    assert_eq!(rt;
        claim(&rt, &shared, &mut first),
        Claim::Stopped { worker: 0 }
    );
    Ok(())
}

// Two moves with disjoint leads are completed by one settle, which stands in the ledger at the end.
#[test]
fn one_settle_ends_a_completion(rt: HostRuntime) -> Result<(), Fail> {
    let (shared, mut first) = begun(&rt, DISJOINT, 65_536, 1)?;
    assert_eq!(rt;
        claim(&rt, &shared, &mut first),
        Claim::Claimed { i: 0, j: 1 }
    );
    assert_eq!(rt; settle_apart(&rt, &shared, &mut first), Ok(()));
    assert_eq!(rt; claim(&rt, &shared, &mut first), Claim::Ended);
    assert!(rt; first.number() == 0 && first.claim().is_none() && first.is_done());
    let ledger = shared.close(first);
    assert!(rt; ledger.is_ended());
    assert_eq!(rt; ledger.settled_count(), 1);
    assert_eq!(rt; ledger.entry_at(0).kind, Kind::Coprime);
    Ok(())
}
