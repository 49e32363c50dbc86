use mk_minimise::MinimalList;
use mk_move::MoveList;
use mk_row_tools::{expect_row, table_of};
use std::alloc::AllocGlobal;
use std::process::Abort;
use std::test::Fail;

// The list has the moves in a text and no other.
pub(crate) fn assert_list(
    rt: &(impl Abort + AllocGlobal),
    list: &MinimalList,
    text: &str,
) -> Result<(), Fail> {
    let wanted = table_of(rt.alloc(), text)?;
    assert_eq!(rt; list.columns(), wanted.columns(), "{text}");
    assert_eq!(rt; list.len(), wanted.rows(), "{text}");
    for place in 0..wanted.rows() {
        expect_row(list.move_at(place), wanted.row(place))?;
    }
    Ok(())
}
