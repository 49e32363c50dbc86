ghost use Rattle.std.specs.Prelude.{◌≡◌, length, IfOk};

use mk_row_tools::{graded_of, table_of};
use mk_saturate::Saturation;
use std::alloc::AllocGlobal;
use std::test::Fail;

// The saturation that the rows in a text begin, for the grading of these weights.
fn saturation_of(rt: &impl AllocGlobal, text: &str, weights: &[i64]) -> Result<Saturation, Fail>
    ensures { IfOk result (λ saturation. length saturation.left ≡ length weights.now) }
{
    let lattice = graded_of(rt.alloc(), table_of(rt.alloc(), text)?, weights)?;
    Ok(Saturation::start(rt.alloc(), &lattice.table, &lattice.grading)?)
}

// A row of zeros begins no move.
#[test]
fn begins_with_every_column_left(rt: HostRuntime) -> Result<(), Fail> {
    let saturation = saturation_of(&rt, "2 2\n0 0\n-1 1\n", &[1, 1])?;
    assert!(rt; saturation.is_left(0));
    assert!(rt; saturation.is_left(1));
    let job = saturation.next_job(rt.alloc(), 7)?;
    assert!(rt; job.is_some());
    let job = job.unwrap();
    assert_eq!(rt; job.start.len(), 1);
    assert_eq!(rt; job.budget, 7);
    Ok(())
}

// How many columns the rows free at a first call, and at a second.
#[test]
fn two_columns_are_free(rt: HostRuntime) -> Result<(), Fail> {
    let rows = [
        ("2 4\n1 -2 1 0\n0 1 -2 1\n", [1, 1, 1, 1].as_slice()),
        ("2 3\n1 -1 0\n0 1 -1\n", [1, 1, 1].as_slice()),
        (
            "3 4\n1 1 -1 -1\n1 -1 1 -1\n-1 1 1 -1\n",
            [1, 1, 1, 1].as_slice(),
        ),
    ];
    for (text, weights) in rows {
        let mut saturation = saturation_of(&rt, text, weights)?;
        let first = saturation.free_columns();
        assert_eq!(rt; (first, saturation.free_columns()), (2, 0), "{text}");
    }
    Ok(())
}
