use crate::lists::assert_list;
use mk_files::Table;
use mk_gen::model_table;
use mk_inter::ReducedBasis;
use mk_move::MoveList;
use mk_row_tools::{expect_moves, graded_of, table_of};
use mk_solve::{MinimalList, OpenGate, RunBook, RunStop, solve_alone, solve_shared};
use std::alloc::AllocGlobal;
use std::process::Abort;
use std::sync::Wait;
use std::test::Fail;
use std::thread::Threads;

// What workers answer, and the book that they leave.
#[derive(Drop)]
pub(crate) struct Solved {
    pub(crate) outcome: Result<MinimalList, RunStop>,
    pub(crate) book: RunBook,
}

// One worker or several solve the lattice of a table, graded by the weights, within a budget and up to a bound.
pub(crate) fn solved_by<R: Abort + AllocGlobal + Threads + Wait + Sync>(
    rt: &R,
    workers: u32,
    table: Table,
    weights: &[i64],
    budget: u64,
    bound: Option<u64>,
) -> Result<Solved, Fail> {
    assert!(rt; workers >= 1 && workers <= 64);
    let lattice = graded_of(rt.alloc(), table, weights)?;
    let mut book = RunBook::new(rt.alloc());
    let outcome = if workers == 1 {
        solve_alone(
            rt.alloc(),
            &lattice.table,
            &lattice.grading,
            budget,
            bound,
            &mut book,
        )
    } else {
        solve_shared(
            rt,
            rt.alloc(),
            &lattice.table,
            &lattice.grading,
            budget,
            bound,
            workers,
            &OpenGate,
            &mut book,
        )
    };
    Ok(Solved { outcome, book })
}

// The reduced basis has the moves in a text, of these weights.
fn assert_reduced(
    rt: &(impl Abort + AllocGlobal),
    kept: Option<&ReducedBasis>,
    moves: &str,
    weights: &[i128],
) -> Result<(), Fail> {
    let Some(kept) = kept else {
        panic!(rt; "no reduced basis");
    };
    let basis = kept.basis();
    expect_moves(rt.alloc(), basis, moves)?;
    assert_eq!(rt; basis.len() as usize, weights.len());
    for (place, weight) in weights.iter().enumerate() {
        assert_eq!(rt; basis.move_at(place as u32).weight(), *weight);
    }
    Ok(())
}

// A lattice with its grading, a budget and a bound: the essential moves, the reduced basis with the weights of its moves, and how many
// phases there are, as one worker and as two find them.
#[test]
fn lattices_are_solved(rt: HostRuntime) -> Result<(), Fail> {
    let steeper = "2 3\n1 -2 1\n3 -1 -1\n";
    let three_moves = "3 3\n-1 2 -1\n3 -1 -1\n2 1 -2\n";
    let rows = [
        (
            "0 4\n",
            [1, 1, 1, 1].as_slice(),
            0,
            None,
            "0 4\n",
            "0 4\n",
            [].as_slice(),
            5,
        ),
        (
            "1 2\n1 -1\n",
            [1, 1].as_slice(),
            0,
            None,
            "1 2\n1 -1\n",
            "1 2\n1 -1\n",
            [1].as_slice(),
            2,
        ),
        (
            "2 3\n1 -1 0\n0 1 -1\n",
            [1, 1, 1].as_slice(),
            100,
            None,
            "2 3\n0 1 -1\n1 0 -1\n",
            "2 3\n0 1 -1\n1 0 -1\n",
            [1, 1].as_slice(),
            2,
        ),
        (
            steeper,
            [3, 4, 5].as_slice(),
            100,
            None,
            three_moves,
            three_moves,
            [8, 9, 10].as_slice(),
            2,
        ),
        (
            steeper,
            [3, 4, 5].as_slice(),
            20_000_000,
            Some(9),
            "2 3\n-1 2 -1\n3 -1 -1\n",
            three_moves,
            [8, 9, 10].as_slice(),
            2,
        ),
        (
            "2 3\n2 -1 0\n1 1 -1\n",
            [1, 2, 3].as_slice(),
            1000,
            None,
            "2 3\n2 -1 0\n1 1 -1\n",
            "3 3\n2 -1 0\n1 1 -1\n-1 2 -1\n",
            [2, 3, 4].as_slice(),
            2,
        ),
    ];
    for (text, grade, budget, bound, moves, reduced, weights, phases) in rows {
        for workers in 1..3 {
            let table = table_of(rt.alloc(), text)?;
            let solved = solved_by(&rt, workers, table, grade, budget, bound)?;
            assert_reduced(&rt, solved.book.reduced(), reduced, weights)?;
            assert_eq!(rt; solved.book.phase_count(), phases);
            assert!(rt; solved.book.settled() <= budget);
            assert_list(&rt, &solved.outcome?, moves)?;
        }
    }
    Ok(())
}

// Tables of 6 by 6, with enough tails and pairs to be shared: the essential moves are those of their 2 by 2 tables, of weight 2.
#[test]
#[tactic(auto, using(mk_gen::proofs::Sizes::two_sizes))]
fn many_tails_and_pairs_are_shared(rt: HostRuntime) -> Result<(), Fail> {
    let table = model_table(rt.alloc(), &[6, 6])?;
    let solved = solved_by(&rt, 2, table, &[1; 36], 1_000_000, None)?;
    let chosen = solved.outcome?;
    assert_eq!(rt; chosen.len(), 225);
    for place in 0..chosen.len() {
        assert_eq!(rt; chosen.move_at(place).weight(), 2);
    }
    Ok(())
}
