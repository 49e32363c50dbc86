use crate::lists::assert_list;
use crate::saturated::saturated_of;
use crate::steep::{STEEP_WEIGHT, beside_tables};
use mk_inter::{ReducedBasis, reduce_tails, reduce_tails_shared};
use mk_minimise::{MinimalList, MinimiseFault, minimise, minimise_shared};
use mk_move::OverflowAt;
use mk_row_tools::expect_moves;
use std::alloc::AllocGlobal;
use std::process::Abort;
use std::test::Fail;
use std::thread::Threads;

// The reduced basis of the lattice in a text, graded by the weights, its tails reduced by one thread or by several.
fn reduced_of<R: Abort + AllocGlobal + Threads + Sync>(
    rt: &R,
    is_shared: bool,
    text: &str,
    weights: &[i64],
) -> Result<ReducedBasis, Fail> {
    let saturated = saturated_of(rt, text, weights)?;
    if is_shared {
        Ok(reduce_tails_shared(rt, rt.alloc(), &saturated)?)
    } else {
        Ok(reduce_tails(rt.alloc(), &saturated)?)
    }
}

// The essential moves up to a bound, chosen by one thread or by several.
fn chosen_from<R: AllocGlobal + Threads + Sync>(
    rt: &R,
    is_shared: bool,
    kept: &ReducedBasis,
    bound: Option<u64>,
) -> Result<MinimalList, MinimiseFault> {
    let grading = kept.basis().grading();
    if is_shared {
        minimise_shared(rt, rt.alloc(), kept, grading, bound)
    } else {
        minimise(rt.alloc(), kept, grading, bound)
    }
}

// The tails of a curve's moves are reduced, and its essential moves up to a bound are chosen: by one thread, and by several.
#[test]
fn tails_are_reduced_and_moves_are_chosen(rt: HostRuntime) -> Result<(), Fail> {
    let rows = [
        (None, "2 3\n2 -1 0\n1 1 -1\n"),
        (Some(2), "1 3\n2 -1 0\n"),
        (Some(1), "0 3\n"),
    ];
    for is_shared in [false, true] {
        let reduced = reduced_of(&rt, is_shared, "2 3\n2 -1 0\n1 1 -1\n", &[1, 2, 3])?;
        expect_moves(
            rt.alloc(),
            reduced.basis(),
            "3 3\n2 -1 0\n1 1 -1\n-1 2 -1\n",
        )?;
        for (bound, moves) in rows {
            let chosen = chosen_from(&rt, is_shared, &reduced, bound)?;
            assert_list(&rt, &chosen, moves)?;
        }
    }
    Ok(())
}

// Where an entry leaves its range at a pair of a weight: in the difference, and the numbers. No other pair of that weight does.
#[test]
fn a_steep_weight_stops_the_choice(rt: HostRuntime) -> Result<(), Fail> {
    let wanted = OverflowAt {
        column: 1,
        left: -906694364710971881029620,
        times: 1,
        right: 453347182355485940514810,
    };
    let text = beside_tables(rt.alloc(), &STEEP_WEIGHT, 0, "0")?;
    for is_shared in [false, true] {
        let reduced = reduced_of(&rt, is_shared, &text, &[1, 1, 9, 8])?;
        match chosen_from(&rt, is_shared, &reduced, None) {
            Err(MinimiseFault::Overflow { by, at, .. }) => assert_eq!(rt; (by, at), (None, wanted)),
            other => panic!(rt; "{other:?}"),
        }
    }
    Ok(())
}
