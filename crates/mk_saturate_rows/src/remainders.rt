use crate::finders::filled;
use crate::shown::assert_move;
use mk_reduce::{PlainFinder, Scratch, critical, reduce, remainder_in};
use mk_row_tools::start_of;
use std::test::Fail;

const ROWS: &str = "2 3\n1 -1 0\n2 -1 -1\n";

#[test]
fn a_pair_is_reduced(rt: HostRuntime) -> Result<(), Fail> {
    let basis = start_of(rt.alloc(), ROWS, &[1, 1, 1], None)?;
    assert_eq!(rt; basis.len(), 2);
    let finder = filled(&basis, PlainFinder::new(rt.alloc()))?;
    let mut work = critical(rt.alloc(), &basis, 0, 1)?;
    reduce(&mut work, &basis, &finder)?;
    assert_eq!(rt; work.front(), 2);
    let rest = work.into_remainder();
    assert!(rt; rest.is_some());
    assert_move(&rt, &rest.unwrap(), &[0, 1, -1], 1)?;
    Ok(())
}

#[test]
fn pairs_are_reduced_in_one_place(rt: HostRuntime) -> Result<(), Fail> {
    let basis = start_of(rt.alloc(), ROWS, &[1, 1, 1], None)?;
    assert_eq!(rt; basis.len(), 2);
    let finder = filled(&basis, PlainFinder::new(rt.alloc()))?;
    let mut scratch = Scratch::new();
    let rest = remainder_in(&mut scratch, &basis, &finder, 0, 1)?;
    assert!(rt; rest.is_some());
    assert_move(&rt, &rest.unwrap(), &[0, 1, -1], 1)?;
    Ok(())
}
