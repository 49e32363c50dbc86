ghost use Rattle.mk_saturate.specs.Saturations.{NoneLeft};

use mk_core::{SaturatedBasis, complete_alone};
use mk_row_tools::{expect_moves, graded_of, table_of};
use mk_saturate::Saturation;
use std::alloc::AllocGlobal;
use std::process::Abort;
use std::test::Fail;

// The saturation of the lattice in a text, graded by the weights.
fn saturation_of(
    rt: &(impl Abort + AllocGlobal),
    text: &str,
    weights: &[i64],
) -> Result<Saturation, Fail> {
    let table = table_of(rt.alloc(), text)?;
    let lattice = graded_of(rt.alloc(), table, weights)?;
    Ok(Saturation::start(rt.alloc(), &lattice.table, &lattice.grading)?)
}

// The saturated basis that the last job gives, once no column is left.
fn finished(
    rt: &(impl Abort + AllocGlobal),
    saturation: &Saturation,
) -> Result<SaturatedBasis, Fail>
    requires { NoneLeft saturation.now.left }
{
    let job = saturation.final_job(rt.alloc(), 1000)?;
    let completed = complete_alone(rt.alloc(), job)?;
    Ok(saturation.finish(&completed)?)
}

// The saturated basis of the lattice in a text, of four columns at most, graded by the weights.
pub(crate) fn saturated_of(
    rt: &(impl Abort + AllocGlobal),
    text: &str,
    weights: &[i64],
) -> Result<SaturatedBasis, Fail> {
    let mut saturation = saturation_of(rt, text, weights)?;
    saturation.free_columns();
    for _ in 0..5 {
        let Some(job) = saturation.next_job(rt.alloc(), 1000)? else {
            return finished(rt, &saturation);
        };
        let completed = complete_alone(rt.alloc(), job)?;
        saturation.accept(&completed)?;
    }
    panic!(rt; "a column is left")
}

// The job of each column, with its list and its moves, and what is left after it.
#[test]
fn columns_are_saturated_in_their_order(rt: HostRuntime) -> Result<(), Fail> {
    let mut saturation = saturation_of(&rt, "2 4\n1 -2 1 0\n0 1 -2 1\n", &[1; 4])?;
    let rows = [
        (9, [0, 3, 2, 1], "2 4\n-1 2 -1 0\n0 -1 2 -1\n"),
        (8, [1, 3, 2, 0], "2 4\n1 -2 1 0\n0 -1 2 -1\n"),
    ];
    for (budget, list, moves) in rows {
        let Some(job) = saturation.next_job(rt.alloc(), budget)? else {
            panic!(rt; "no column is left");
        };
        assert_eq!(rt; job.budget, budget);
        assert_eq!(rt; job.start.priority().as_slice(), list.as_slice());
        expect_moves(rt.alloc(), &job.start, moves)?;
        let completed = complete_alone(rt.alloc(), job)?;
        saturation.accept(&completed)?;
    }
    Ok(())
}
