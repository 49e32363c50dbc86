use crate::solved::solved_by;
use crate::steep::{STEEP_TAIL, STEEP_WEIGHT, beside_tables};
use mk_move::OverflowAt;
use mk_row_tools::table_of;
use mk_solve::{BookStop, OverflowPlace, RunStop};
use std::alloc::AllocGlobal;
use std::process::Abort;
use std::sync::Wait;
use std::test::Fail;
use std::thread::Threads;

const STEEP_PAIR: &str =
    "2 3\n0 -604462909807314587353087 604462909807314587353087\n604462909807314587353087 -1208925819614629174706174 -604462909807314587353087\n";

// One worker and two stop at the lattice in a text, graded by these weights and ones, where an entry leaves its range: the place, by
// which move, and the numbers.
fn assert_stopped<R: Abort + AllocGlobal + Threads + Wait + Sync>(
    rt: &R,
    text: &str,
    weights: &[i64],
    place: OverflowPlace,
    by: Option<u32>,
    at: OverflowAt,
) -> Result<(), Fail> {
    for workers in 1..3 {
        let table = table_of(rt.alloc(), text)?;
        let mut grade = Vec::from_slice(rt.alloc(), weights)?;
        grade.resize(table.columns() as usize, 1)?;
        let solved = solved_by(rt, workers, table, &grade, 1_000_000, None)?;
        assert!(rt; matches!(solved.outcome, Err(RunStop::Stopped)));
        match solved.book.stop() {
            Some(BookStop::Overflow { place: kept, stop }) => {
                assert_eq!(rt; (*kept, stop.by, stop.at), (place, by, at));
            }
            other => panic!(rt; "{other:?}"),
        }
    }
    Ok(())
}

// One pair alone can be settled, and its difference leaves the range, whichever of two workers claims it.
#[test]
fn a_steep_pair_stops(rt: HostRuntime) -> Result<(), Fail> {
    let at = OverflowAt {
        column: 2,
        left: 1208925819614629174706174,
        times: 1,
        right: -604462909807314587353087,
    };
    let place = OverflowPlace::Pair { phase: 0 };
    assert_stopped(&rt, STEEP_PAIR, &[3], place, Some(0), at)
}

// A tail leaves the range, alone and among those of tables: of 136 moves and more, which several threads reduce.
#[test]
fn a_steep_tail_stops(rt: HostRuntime) -> Result<(), Fail> {
    let at = OverflowAt {
        column: 3,
        left: -1208925819614629174706172,
        times: -1,
        right: -302231454903657293676543,
    };
    let place = OverflowPlace::Tail { index: 0 };
    for columns in [0, 17] {
        let text = beside_tables(rt.alloc(), &STEEP_TAIL, columns, "1")?;
        assert_stopped(&rt, &text, &[8, 8, 6, 2], place, Some(1), at)?;
    }
    Ok(())
}

// A pair of a weight leaves the range, alone and among the 572 pairs of that weight that tables have, which several threads reduce.
#[test]
fn a_steep_weight_stops(rt: HostRuntime) -> Result<(), Fail> {
    let at = OverflowAt {
        column: 1,
        left: -906694364710971881029620,
        times: 1,
        right: 453347182355485940514810,
    };
    let third = "453347182355485940514810";
    let text = beside_tables(rt.alloc(), &STEEP_WEIGHT, 13, third)?;
    assert_stopped(&rt, &text, &[1, 1, 9, 8], OverflowPlace::Degree, None, at)
}

// The first phase is shared, since each two of the leads have a column in common.
#[test]
fn a_budget_of_no_pairs_is_used_up(rt: HostRuntime) -> Result<(), Fail> {
    for workers in 1..3 {
        let table = table_of(rt.alloc(), "3 4\n1 1 -1 -1\n1 -1 1 -1\n1 -1 -1 1\n")?;
        let solved = solved_by(&rt, workers, table, &[1; 4], 0, None)?;
        assert!(rt; matches!(solved.outcome, Err(RunStop::Stopped)));
        let stop = solved.book.stop();
        assert!(rt; matches!(stop, Some(BookStop::Budget { settled: 0 })));
    }
    Ok(())
}
