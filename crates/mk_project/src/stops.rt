//! The one line on the error channel for why a search among moves stopped.

ghost use Rattle.std.specs.Prelude.{◌≡◌, IfOk, string_bytes};
ghost use Rattle.mk_project.specs.Stops.{overflow_line, budget_line};

use mk_move::OverflowAt;
use std::alloc::{AllocError, Global};

/// The line of a program for a column, counted from 1, where an entry of `left - times * right` left the range.
pub fn overflow_line(alloc: Global, program: &str, at: OverflowAt) -> Result<String, AllocError>
    ensures { IfOk result (λ line. string_bytes line ≡ overflow_line program.now at) }
{
    let OverflowAt {
        column,
        left,
        times,
        right,
    } = at;
    let column = u64::from(column) + 1;
    format!(in alloc; "{program}: overflow in column {column}: {left} - ({times}) * ({right})\n")
}

/// The line of a program for so many settled pairs, as many as may be settled, while a pair is left.
pub fn budget_line(alloc: Global, program: &str, settled: u64) -> Result<String, AllocError>
    ensures { IfOk result (λ line. string_bytes line ≡ budget_line program.now settled) }
{
    format!(in alloc; "{program}: budget of {settled} pairs used and a pair is left\n")
}
