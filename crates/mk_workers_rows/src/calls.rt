ghost use Rattle.std.specs.Prelude.{◌≡◌, IfOk};
ghost use Rattle.mk_shared.specs.SharedSeats.{HasWorkDone};

use mk_core::finder_of;
use mk_ledger::{Claim, Halt};
use mk_model::Entry;
use mk_move::{chain_divides, coprime_leads};
use mk_reduce::{Work, critical, reduce};
use mk_row_tools::expect_row;
use mk_shared::{RefreshFault, Seat, SettleFault, SettledBy, SharedCompletion, TryChainFault};
use std::alloc::AllocGlobal;
use std::process::Abort;
use std::test::Fail;

// What a seat that has no claim is answered.
pub(crate) fn claim(rt: &impl Abort, shared: &SharedCompletion, seat: &mut Seat) -> Claim
    requires table { seat.old.table ≡ shared.now }
    ensures table { seat.new.table ≡ shared.now }
    ensures made { seat.new.sight.made ≡ seat.old.sight.made }
{
    assert!(rt; seat.claim().is_none());
    match shared.try_claim(seat) {
        Ok(answer) => answer,
        Err(busy) => panic!(rt; "{busy:?}"),
    }
}

// The work on the claim of a seat, reduced by its copy.
pub(crate) fn work_of(rt: &(impl Abort + AllocGlobal), seat: &Seat) -> Result<Work, Fail>
    ensures { IfOk result (HasWorkDone seat.now) }
{
    let Some((i, j)) = seat.claim() else {
        panic!(rt; "no claim");
    };
    let basis = seat.basis();
    assert!(rt; i < j && j < basis.len());
    let finder = finder_of(rt.alloc(), basis)?;
    let mut work = critical(rt.alloc(), basis, i, j)?;
    reduce(&mut work, basis, &finder)?;
    Ok(work)
}

// The seat settles its claim by this work on it.
pub(crate) fn settle_by(
    shared: &SharedCompletion,
    seat: &mut Seat,
    work: &Work,
) -> Result<SettledBy, SettleFault>
    requires table { seat.old.table ≡ shared.now }
    requires work { HasWorkDone seat.old work.now }
    ensures { seat.new.table ≡ shared.now }
{
    shared.try_settle(seat, work)
}

// The seat settles its claim by work on it by its copy.
pub(crate) fn settle(
    rt: &(impl Abort + AllocGlobal),
    shared: &SharedCompletion,
    seat: &mut Seat,
) -> Result<Result<SettledBy, SettleFault>, Fail>
    requires table { seat.old.table ≡ shared.now }
    ensures { IfOk result (λ _. seat.new.table ≡ shared.now) }
{
    let work = work_of(rt, seat)?;
    Ok(settle_by(shared, seat, &work))
}

// The length of the basis, which the seat copies.
pub(crate) fn refresh(rt: &impl Abort, shared: &SharedCompletion, seat: &mut Seat) -> u32
    requires table { seat.old.table ≡ shared.now }
    ensures { seat.new.table ≡ shared.now }
{
    match shared.try_refresh(seat) {
        Ok(length) => length,
        Err(fault) => panic!(rt; "{fault:?}"),
    }
}

// The seat claims the pair of these places.
pub(crate) fn assert_claims(
    rt: &impl Abort,
    shared: &SharedCompletion,
    seat: &mut Seat,
    i: u32,
    j: u32,
)
    requires table { seat.old.table ≡ shared.now }
    ensures { seat.new.table ≡ shared.now }
{
    let answer = claim(rt, shared, seat);
    assert_eq!(rt; answer, Claim::Claimed { i, j });
}

// The seat settles its claim by a move of this place.
pub(crate) fn assert_places(
    rt: &(impl Abort + AllocGlobal),
    shared: &SharedCompletion,
    seat: &mut Seat,
    place: u32,
) -> Result<(), Fail>
    requires table { seat.old.table ≡ shared.now }
    ensures { IfOk result (λ _. seat.new.table ≡ shared.now) }
{
    let settled = settle(rt, shared, seat)?;
    assert_eq!(rt; settled, Ok(SettledBy::Placed { place }));
    Ok(())
}

// The seat reads so great a length, copies the basis, and has these entries in the move of the place.
pub(crate) fn assert_copies(
    rt: &impl Abort,
    shared: &SharedCompletion,
    seat: &mut Seat,
    place: u32,
    wanted: [Entry; 4],
) -> Result<(), Fail>
    requires table { seat.old.table ≡ shared.now }
    ensures { IfOk result (λ _. seat.new.table ≡ shared.now) }
{
    let news = shared.news(seat);
    let length = refresh(rt, shared, seat);
    let basis = seat.basis();
    assert!(rt; news == length && place < basis.len());
    assert!(rt; place < length && length - place == 1);
    expect_row(basis.move_at(place), &wanted)
}

// The seat settles its claim through the third move of a place.
pub(crate) fn settle_through(
    rt: &impl Abort,
    shared: &SharedCompletion,
    seat: &mut Seat,
    k: u32,
) -> Result<(), TryChainFault>
    requires table { seat.old.table ≡ shared.now }
    ensures table { seat.new.table ≡ shared.now }
{
    let Some((i, j)) = seat.claim() else {
        panic!(rt; "no claim");
    };
    let basis = seat.basis();
    assert!(rt; i < j && j < basis.len() && k < basis.len() && k != i && k != j);
    assert!(rt; chain_divides(basis, i, j, k));
    shared.try_settle_chain(seat, k)
}

// The seat, which has a claim, halts for want of memory.
pub(crate) fn stop(rt: &impl Abort, shared: &SharedCompletion, seat: &mut Seat)
    requires table { seat.old.table ≡ shared.now }
    ensures table { seat.new.table ≡ shared.now }
{
    let Some((_i, _j)) = seat.claim() else {
        panic!(rt; "no claim");
    };
    if let Err((busy, _halt)) = shared.try_stop(seat, Halt::Memory) {
        panic!(rt; "{busy:?}");
    }
}

// The seat settles its claim, whose leads are disjoint.
pub(crate) fn settle_apart(
    rt: &impl Abort,
    shared: &SharedCompletion,
    seat: &mut Seat,
) -> Result<(), RefreshFault>
    requires table { seat.old.table ≡ shared.now }
    ensures table { seat.new.table ≡ shared.now }
    ensures made { seat.new.sight.made ≡ seat.old.sight.made }
{
    let Some((i, j)) = seat.claim() else {
        panic!(rt; "no claim");
    };
    let basis = seat.basis();
    assert!(rt; i < j && j < basis.len());
    assert!(rt; coprime_leads(basis.move_at(i), basis.move_at(j)));
    shared.try_settle_coprime(seat)
}
