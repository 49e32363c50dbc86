use mk_core::{drop_redundant, finder_of};
use mk_move::{Basis, OverflowAt};
use mk_reduce::{Stop, Work, critical, reduce};
use mk_row_tools::{expect_moves, expect_row, start_of, table_of};
use std::alloc::AllocGlobal;
use std::process::Abort;
use std::test::Fail;

const CUBIC: &str = "2 4\n1 -2 1 0\n0 -1 2 -1\n";

const TURNED: &str = "2 4\n-1 2 -1 0\n0 -1 2 -1\n";

const LARGE: &str =
    "2 4\n1 604462909807314587353089 0 -604462909807314587353090\n1 -604462909807314587353089 604462909807314587353089 -1\n";

// The negative part of the difference of the last two is normal, so that a reduction begins with the positive one.
const STEEP: &str =
    "3 4\n1 0 0 -1\n0 604462909807314587353088 604462909807314587353087 -1208925819614629174706175\n4 1 -4 -1\n";

// The difference of the two leaves the range.
const NO_DIFFERENCE: Stop = Stop::Overflow {
    by: None,
    at: OverflowAt {
        column: 1,
        left: -604462909807314587353089,
        times: 1,
        right: 604462909807314587353089,
    },
};

// The step by the first move leaves the range.
const NO_STEP: Stop = Stop::Overflow {
    by: Some(0),
    at: OverflowAt {
        column: 3,
        left: 1208925819614629174706174,
        times: 4,
        right: -1,
    },
};

// What is left is the row in the text, or nothing where there is no text.
fn assert_left(rt: &(impl Abort + AllocGlobal), work: &Work, text: &str) -> Result<(), Fail> {
    match work.remainder() {
        Some(rest) => {
            let wanted = table_of(rt.alloc(), text)?;
            assert_eq!(rt; wanted.rows(), 1);
            expect_row(rest, wanted.row(0))?;
        }
        None => assert_eq!(rt; text, ""),
    }
    Ok(())
}

// The difference of the moves of a place and the next, and what reduction leaves of it, or why one of the two calls stops: then the steps
// done stay.
fn assert_reduced(
    rt: &(impl Abort + AllocGlobal),
    basis: &Basis,
    i: u32,
    difference: &str,
    left: &str,
    stop: Option<Stop>,
) -> Result<(), Fail> {
    assert!(rt; i < 2);
    assert!(rt; i + 1 < basis.len());
    let finder = finder_of(rt.alloc(), basis)?;
    let mut work = match critical(rt.alloc(), basis, i, i + 1) {
        Ok(work) => work,
        Err(refused) => {
            assert_eq!(rt; Some(refused), stop);
            return Ok(());
        }
    };
    assert_left(rt, &work, difference)?;
    assert_eq!(rt; work.front(), 0);
    let refused = reduce(&mut work, basis, &finder).err();
    assert_eq!(rt; refused, stop);
    assert_left(rt, &work, left)?;
    let front = if refused.is_some() { 0 } else { basis.len() };
    assert_eq!(rt; work.front(), front);
    Ok(())
}

// Rows with the column that their list begins with, a pair, its difference, what reduction leaves of it, and a stop.
#[test]
fn pairs_are_reduced(rt: HostRuntime) -> Result<(), Fail> {
    let steep =
        "1 4\n4 -604462909807314587353087 -604462909807314587353091 1208925819614629174706174\n";
    let placed = "1 4\n-1 1 1 -1\n";
    let rows = [
        (CUBIC, Some(1), 0, placed, placed, None),
        (TURNED, None, 0, "1 4\n1 -3 3 -1\n", "", None),
        (LARGE, None, 0, "", "", Some(NO_DIFFERENCE)),
        (STEEP, None, 1, steep, steep, Some(NO_STEP)),
    ];
    for (text, first, i, difference, left, stop) in rows {
        let basis = start_of(rt.alloc(), text, &[1; 4], first)?;
        expect_moves(rt.alloc(), &basis, text)?;
        assert_reduced(&rt, &basis, i, difference, left, stop)?;
    }
    Ok(())
}

#[test]
fn redundant_moves_are_dropped(rt: HostRuntime) -> Result<(), Fail> {
    let text = "3 2\n2 -2\n1 -1\n1 -1\n";
    let basis = start_of(rt.alloc(), text, &[1, 1], None)?;
    expect_moves(rt.alloc(), &basis, text)?;
    let kept = drop_redundant(&basis)?;
    expect_moves(rt.alloc(), &kept, "1 2\n1 -1\n")
}
