//! Completes the first phase of the lattice in `P.lat`, for the list of column 0, and says how many moves the basis has and
//! how many pairs were settled. `bench/completion.sh` times it.
#![tactic(auto)]

ghost use Rattle.std.specs.Prelude.{◌≤◌, IfSome, length};

use mk_core::{Completed, Job, Stopped, complete_alone};
use mk_files::{Bounds, Table, read_table};
use mk_model::{ENTRY_MAX, MOVES_MAX};
use mk_move::{Grading, Priority};
use mk_saturate::start_basis;
use std::alloc::Global;
use std::process::ExitCode;
use std::{fs, io};

const LIMITS: Bounds = Bounds {
    rows: 4096,
    columns: 512,
    least: -ENTRY_MAX,
    most: ENTRY_MAX,
};

/// How many pairs may be settled.
const BUDGET: u64 = 100_000_000;

/// The exit status is 0 once the line is said, 1 where `P.lat` can't be read or is no table of rows of sum 0, and 2 where the
/// completion stopped.
fn main(rt: HostRuntime) -> io::Result<ExitCode> {
    let bytes = fs::read(&rt, "P.lat")?;
    let Some(job) = first_job(rt.alloc(), &bytes) else {
        return Ok(ExitCode::from(1));
    };
    match complete_alone(rt.alloc(), job) {
        Ok(completed) => say(&rt, &completed),
        Err(_) => Ok(ExitCode::from(2)),
    }
}

/// The job of column 0, for a lattice with the grading of all ones.
fn first_job(alloc: Global, bytes: &[u8]) -> Option<Job>
    ensures start { IfSome result (λ job. length job.start.moves ≤ job.basis_limit) }
    ensures limit { IfSome result (λ job. job.basis_limit ≤ 65536) }
{
    let lat = read_table(alloc, bytes, &LIMITS).ok()?;
    if lat.columns() == 0 {
        return None;
    }
    let weights = vec![in alloc; 1i64; lat.columns() as usize].ok()?;
    let grading = Grading::new(alloc, &weights).ok()?;
    let Ok(priority) = Priority::first(alloc, lat.columns(), 0) else {
        return None;
    };
    let start = start_basis(alloc, &lat, grading, priority).ok()?;
    Some(Job {
        start,
        budget: BUDGET,
        basis_limit: MOVES_MAX,
    })
}

/// Says how many moves and pairs there are.
fn say(rt: &HostRuntime, completed: &Completed) -> io::Result<ExitCode> {
    let phase = completed.phase();
    println!(rt; "moves {} pairs {}", phase.basis.len(), phase.journal.len())?;
    Ok(ExitCode::SUCCESS)
}
