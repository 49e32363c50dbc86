use mk_model::Entry;
use mk_move::Move;
use mk_row_tools::expect_row;
use std::process::Abort;
use std::test::Fail;

// The move has these entries and this weight.
pub(crate) fn assert_move(
    rt: &impl Abort,
    m: &Move,
    entries: &[Entry],
    weight: i128,
) -> Result<(), Fail> {
    expect_row(m, entries)?;
    assert_eq!(rt; m.weight(), weight);
    Ok(())
}
