ghost use Rattle.mk_gen.specs.Models.{AreModelSizes};

use mk_gen::{model_table, summary};
use mk_model::Entry;
use std::alloc::AllocGlobal;
use std::process::Abort;
use std::test::Fail;

// The table of these sizes has so many rows and columns, and this row at this place.
fn assert_row(
    rt: &(impl Abort + AllocGlobal),
    sizes: &[u32],
    rows: u32,
    columns: u32,
    place: u32,
    row: &[Entry],
) -> Result<(), Fail>
    requires { AreModelSizes sizes.now }
{
    let table = model_table(rt.alloc(), sizes)?;
    assert_eq!(rt; table.rows(), rows);
    assert_eq!(rt; table.columns(), columns);
    assert!(rt; place < table.rows());
    assert_eq!(rt; table.row(place), row, "row {place}");
    Ok(())
}

// Tables of two sizes with a row at a place.
#[test]
#[tactic(auto, using(mk_gen::proofs::Sizes::two_sizes))]
fn tables_of_two_sizes_are_as_written_out(rt: HostRuntime) -> Result<(), Fail> {
    for (sizes, rows, columns, place, row) in [
        ([2, 2], 1, 4, 0, [1, -1, -1, 1].as_slice()),
        ([2, 3], 2, 6, 0, [1, -1, 0, -1, 1, 0].as_slice()),
        ([2, 3], 2, 6, 1, [0, 1, -1, 0, -1, 1].as_slice()),
        ([3, 2], 2, 6, 1, [0, 0, 1, -1, -1, 1].as_slice()),
        ([3, 3], 4, 9, 0, [1, -1, 0, -1, 1, 0, 0, 0, 0].as_slice()),
        ([3, 3], 4, 9, 1, [0, 1, -1, 0, -1, 1, 0, 0, 0].as_slice()),
        ([3, 3], 4, 9, 2, [0, 0, 0, 1, -1, 0, -1, 1, 0].as_slice()),
        ([3, 3], 4, 9, 3, [0, 0, 0, 0, 1, -1, 0, -1, 1].as_slice()),
    ] {
        let [first, second] = sizes;
        assert!(rt; 2 <= first && first <= 16 && 2 <= second && second <= 16);
        assert_row(&rt, &[first, second], rows, columns, place, row)?;
    }
    Ok(())
}

#[test]
#[tactic(auto, using(mk_gen::proofs::Sizes::three_sizes))]
fn the_last_rows_of_tables_of_three_sizes_end_in_the_cube(rt: HostRuntime) -> Result<(), Fail> {
    assert_row(&rt, &[2, 2, 2], 1, 8, 0, &[1, -1, -1, 1, -1, 1, 1, -1])?;
    let mut row = [0; 64];
    row[56..].copy_from_slice(&[1, -1, -1, 1, -1, 1, 1, -1]);
    assert_row(&rt, &[16, 2, 2], 15, 64, 14, &row)
}

// Weights with the summary of these numbers.
#[test]
fn summaries_are_as_written_out(rt: HostRuntime) -> Result<(), Fail> {
    let mut cube = [6; 81];
    cube[..27].copy_from_slice(&[4; 27]);
    for (sizes, rows, columns, weights, text) in [
        (
            [2, 2].as_slice(),
            1,
            4,
            [].as_slice(),
            "model 2x2\nrows 1 columns 4\nmoves 0\n",
        ),
        (
            [2, 2].as_slice(),
            1,
            4,
            [2].as_slice(),
            "model 2x2\nrows 1 columns 4\nmoves 1\nweight 2 moves 1\n",
        ),
        (
            [5, 5].as_slice(),
            16,
            25,
            [2; 100].as_slice(),
            "model 5x5\nrows 16 columns 25\nmoves 100\nweight 2 moves 100\n",
        ),
        (
            [3, 3, 3].as_slice(),
            8,
            27,
            cube.as_slice(),
            "model 3x3x3\nrows 8 columns 27\nmoves 81\nweight 4 moves 27\nweight 6 moves 54\n",
        ),
    ] {
        let made = summary(rt.alloc(), sizes, rows, columns, weights)?;
        assert_eq!(rt; made.as_str(), text);
    }
    Ok(())
}
