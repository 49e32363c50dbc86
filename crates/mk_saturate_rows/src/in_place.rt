use crate::shown::assert_move;
use mk_model::ENTRY_MAX;
use mk_move::OverflowAt;
use mk_row_tools::start_of;
use std::test::Fail;

const ROWS: &str = "2 3\n5 -1 -1\n2 -1 0\n";

const STEEP: &str = "2 3\n1208925819614629174706175 -1208925819614629174706175 0\n1 0 -1\n";

#[test]
fn a_multiple_is_taken_off_in_place(rt: HostRuntime) -> Result<(), Fail> {
    let basis = start_of(rt.alloc(), ROWS, &[1, 2, 3], None)?;
    assert_eq!(rt; basis.len(), 2);
    let mut rest = basis.move_at(0).try_copy()?;
    assert_eq!(rt; rest.take_off(2, basis.move_at(1)), Ok(true));
    assert_move(&rt, &rest, &[1, 1, -1], 5)?;
    rest.weigh(basis.grading());
    assert_move(&rt, &rest, &[1, 1, -1], 3)?;
    Ok(())
}

#[test]
fn a_difference_of_zero_is_not_made(rt: HostRuntime) -> Result<(), Fail> {
    let basis = start_of(rt.alloc(), ROWS, &[1, 2, 3], None)?;
    assert_eq!(rt; basis.len(), 2);
    let mut rest = basis.move_at(0).try_copy()?;
    rest.copy_from(basis.move_at(1));
    assert_move(&rt, &rest, &[2, -1, 0], 2)?;
    assert_eq!(rt; rest.take_off(1, basis.move_at(1)), Ok(false));
    assert_move(&rt, &rest, &[2, -1, 0], 2)?;
    Ok(())
}

#[test]
fn a_row_stays_where_an_entry_leaves_the_range(rt: HostRuntime) -> Result<(), Fail> {
    let basis = start_of(rt.alloc(), STEEP, &[1, 1, 1], None)?;
    assert_eq!(rt; basis.len(), 2);
    let mut rest = basis.move_at(0).try_copy()?;
    let refused = OverflowAt {
        column: 0,
        left: 1208925819614629174706175,
        times: -1,
        right: 1,
    };
    assert_eq!(rt; rest.take_off(-1, basis.move_at(1)), Err(refused));
    assert_move(&rt, &rest, &[ENTRY_MAX, -ENTRY_MAX, 0], ENTRY_MAX)?;
    Ok(())
}
