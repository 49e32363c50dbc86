use crate::shown::assert_move;
use mk_model::{ENTRY_MAX, Entry};
use mk_move::{
    Basis, Grading, GradingFault, Move, MoveFault, OverflowAt, Priority, Side, StepFault,
    compare_leads, coprime_leads, lead_divides, move_order, subtract_times, times_dividing,
};
use mk_row_tools::start_of;
use std::alloc::AllocGlobal;
use std::cmp::Ordering;
use std::process::Abort;
use std::test::Fail;

#[test]
fn gradings_keep_their_weights(rt: HostRuntime) -> Result<(), Fail> {
    let grading = Grading::new(rt.alloc(), &[3, 4, 5])?;
    assert_eq!(rt; grading.columns(), 3);
    assert_eq!(rt; grading.product(&[1, -2, 1]), 0);
    assert_eq!(rt; grading.product(&[3, -1, 0]), 5);
    let refused = Grading::new(rt.alloc(), &[1, 0]);
    assert!(rt;
        matches!(
            refused,
            Err(GradingFault::NotInRange {
                column: 1,
                value: 0
            })
        )
    );
    Ok(())
}

#[test]
fn gradings_are_copied(rt: HostRuntime) -> Result<(), Fail> {
    let grading = Grading::new(rt.alloc(), &[3, 4, 5])?;
    let copy = grading.try_copy()?;
    assert_eq!(rt; copy.columns(), 3);
    assert_eq!(rt; copy.product(&[1, 10, 100]), 543);
    assert_eq!(rt; copy.lead_weight(&[1, -10, 100]), 503);
    assert_eq!(rt; copy.weight_at(2), 5);
    Ok(())
}

#[test]
fn lists_begin_with_a_column(rt: HostRuntime) -> Result<(), Fail> {
    let list = Priority::first(rt.alloc(), 4, 1)?;
    let copy = list.try_copy()?;
    assert_eq!(rt; copy.as_slice(), [1, 3, 2, 0].as_slice());
    assert_eq!(rt; copy.columns(), 4);
    assert_eq!(rt; copy.column_at(1), 3);
    Ok(())
}

#[test]
fn moves_are_oriented_rows(rt: HostRuntime) -> Result<(), Fail> {
    let grading = Grading::new(rt.alloc(), &[1, 1])?;
    let list = Priority::standard(rt.alloc(), 2)?;
    assert_eq!(rt; list.as_slice(), [1, 0].as_slice());
    assert_eq!(rt; grading.columns(), 2);
    let found = Move::from_row(rt.alloc(), &[-1, 1], &grading, &list)?;
    assert!(rt; found.is_some());
    assert_move(&rt, &found.unwrap(), &[1, -1], 1)?;
    let refused = Move::from_row(rt.alloc(), &[1, 1], &grading, &list);
    assert!(rt; matches!(refused, Err(MoveFault::NotGraded { value: 2 })));
    assert!(rt; Move::from_row(rt.alloc(), &[0, 0], &grading, &list)?.is_none());
    Ok(())
}

#[test]
fn moves_are_copied_and_turned(rt: HostRuntime) -> Result<(), Fail> {
    let start = start_of(rt.alloc(), "1 2\n1 -1\n", &[1, 1], None)?;
    assert_eq!(rt; start.len(), 1);
    let mut copy = start.move_at(0).try_copy()?;
    assert_move(&rt, &copy, &[1, -1], 1)?;
    let list = Priority::first(rt.alloc(), 2, 0)?;
    assert_eq!(rt; list.columns(), copy.columns());
    copy.orient(&list);
    assert_move(&rt, &copy, &[-1, 1], 1)?;
    Ok(())
}

#[test]
fn bases_keep_their_moves(rt: HostRuntime) -> Result<(), Fail> {
    let start = start_of(rt.alloc(), "1 2\n1 -1\n", &[1, 1], None)?;
    assert_eq!(rt; start.len(), 1);
    let list = start.priority().try_copy()?;
    let grading = start.grading().try_copy()?;
    let mut basis = Basis::new(rt.alloc(), list, grading);
    basis.push(start.move_at(0).try_copy()?)?;
    let copy = basis.try_copy()?;
    assert_eq!(rt; copy.len(), 1);
    assert_eq!(rt; copy.priority().columns(), 2);
    assert_eq!(rt; copy.grading().columns(), 2);
    assert_move(&rt, copy.move_at(0), &[1, -1], 1)?;
    Ok(())
}

// Of the two moves in a text: the first less so many times the second.
fn less(
    rt: &(impl Abort + AllocGlobal),
    text: &str,
    times: Entry,
) -> Result<Result<Option<Move>, StepFault>, Fail> {
    let basis = start_of(rt.alloc(), text, &[1, 1], None)?;
    assert_eq!(rt; basis.len(), 2);
    assert!(rt; -ENTRY_MAX <= times && times <= ENTRY_MAX);
    let left = basis.move_at(0);
    let right = basis.move_at(1);
    Ok(subtract_times(rt.alloc(), left, times, right, basis.grading()))
}

const LARGEST: &str = "2 2\n1208925819614629174706175 -1208925819614629174706175\n1 -1\n";

const NEXT_TO_LARGEST: &str = "2 2\n1208925819614629174706174 -1208925819614629174706174\n1 -1\n";

// Two moves, the number of times that the second is taken off the first, and what is left.
#[test]
fn multiples_are_taken_off(rt: HostRuntime) -> Result<(), Fail> {
    let rows = [
        ("2 2\n5 -5\n1 -1\n", 2, Some(3)),
        ("2 2\n1 -1\n1 -1\n", 1, None),
        (NEXT_TO_LARGEST, -1, Some(1208925819614629174706175)),
    ];
    for (text, times, wanted) in rows {
        match (less(&rt, text, times)??, wanted) {
            (Some(left), Some(entry)) => {
                assert!(rt; 0 < entry);
                assert_move(&rt, &left, &[entry, -entry], entry)?;
            }
            (left, wanted) => assert!(rt; left.is_none() && wanted.is_none(), "{text}"),
        }
    }
    Ok(())
}

// Two moves, and a number of times: where an entry leaves the range, also by a product that is far out of it and not formed.
#[test]
fn differences_stay_in_range(rt: HostRuntime) -> Result<(), Fail> {
    let rows = [
        (LARGEST, -1, 1208925819614629174706175, 1),
        (
            "2 2\n1 -1\n1208925819614629174706175 -1208925819614629174706175\n",
            ENTRY_MAX,
            1,
            1208925819614629174706175,
        ),
    ];
    for (text, times, left, right) in rows {
        let wanted = OverflowAt {
            column: 0,
            left,
            times,
            right,
        };
        let refused = less(&rt, text, times)?;
        assert_eq!(rt; refused.err(), Some(StepFault::Overflow(wanted)));
    }
    Ok(())
}

#[test]
fn leads_are_divided(rt: HostRuntime) -> Result<(), Fail> {
    let basis = start_of(rt.alloc(), "2 2\n2 -2\n5 -5\n", &[1, 1], None)?;
    assert_eq!(rt; basis.len(), 2);
    let two = basis.move_at(0);
    let five = basis.move_at(1);
    assert!(rt; !lead_divides(two, five, Side::Minus));
    assert!(rt; lead_divides(two, five, Side::Plus));
    assert_eq!(rt; times_dividing(two, five, Side::Plus), 2);
    assert!(rt; !coprime_leads(two, five));
    Ok(())
}

#[test]
fn moves_are_ordered(rt: HostRuntime) -> Result<(), Fail> {
    let basis = start_of(rt.alloc(), "2 2\n2 -2\n5 -5\n", &[1, 1], None)?;
    assert_eq!(rt; basis.len(), 2);
    let two = basis.move_at(0);
    let five = basis.move_at(1);
    assert_eq!(rt; compare_leads(five, two, basis.priority()), Ordering::Less);
    assert_eq!(rt; move_order(two, five), Ordering::Less);
    assert_eq!(rt; move_order(two, two), Ordering::Equal);
    Ok(())
}
