//! Solves the lattice in `P.lat`, for the grading of all ones, in the parts of `solve_alone`, and says a line as each part ends:
//! what was settled in it, by the kinds of pairs, and how many moves it gives. `bench/models.sh` times the parts by these lines.
#![tactic(auto)]

ghost use Rattle.std.specs.Prelude.{◌≡◌, All, IfSome, length, pos};
ghost use Rattle.mk_model.specs.Tables.{rows_of};
ghost use Rattle.mk_model.specs.Vectors.{weight};

use mk_core::{Journal, Kind, SaturatedBasis, complete_alone};
use mk_files::{Bounds, Table, read_table};
use mk_inter::reduce_tails;
use mk_minimise::minimise;
use mk_model::ENTRY_MAX;
use mk_move::{Grading, MoveList, Priority};
use mk_saturate::{Saturation, start_basis};
use std::alloc::Global;
use std::process::ExitCode;
use std::{fmt, fs, io};

const LIMITS: Bounds = Bounds {
    rows: 4096,
    columns: 512,
    least: -ENTRY_MAX,
    most: ENTRY_MAX,
};

/// How many pairs a phase may settle.
const BUDGET: u64 = 100_000_000;

/// The exit status is 0 once every part is ended, 1 where `P.lat` can't be read or is no table of rows of sum 0, and 2 where the
/// lattice isn't solved.
fn main(rt: HostRuntime) -> io::Result<ExitCode> {
    let bytes = fs::read(&rt, "P.lat")?;
    let Ok(lat) = read_table(rt.alloc(), &bytes, &LIMITS) else {
        return Ok(ExitCode::from(1));
    };
    let Some(grading) = all_ones(rt.alloc(), &lat) else {
        return Ok(ExitCode::from(1));
    };
    let Ok(saturation) = Saturation::start(rt.alloc(), &lat, &grading) else {
        return Ok(ExitCode::from(2));
    };
    let Some(saturated) = saturate(&rt, saturation, lat.columns())? else {
        return Ok(ExitCode::from(2));
    };
    choose(&rt, &saturated)
}

/// The grading of all ones, where each row has sum 0.
fn all_ones(alloc: Global, lat: &Table) -> Option<Grading>
    ensures columns { IfSome result (λ grading. length grading ≡ lat.now.columns) }
    ensures graded { IfSome result (λ grading. All (λ row. weight grading row ≡ pos 0) (rows_of lat.now)) }
{
    let weights = vec![in alloc; 1i64; lat.columns() as usize].ok()?;
    let Ok(grading) = Grading::new(alloc, &weights) else {
        return None;
    };
    let Ok(copy) = grading.try_copy() else {
        return None;
    };
    let Ok(priority) = Priority::standard(alloc, lat.columns()) else {
        return None;
    };
    match start_basis(alloc, lat, copy, priority) {
        Ok(_) => Some(grading),
        Err(_) => None,
    }
}

/// How many pairs were settled in each way.
#[derive(Clone, Copy)]
struct Kinds {
    coprime: u64,
    chain: u64,
    zero: u64,
    place: u64,
}

impl Kinds {
    /// No pair.
    fn none() -> Kinds {
        Kinds {
            coprime: 0,
            chain: 0,
            zero: 0,
            place: 0,
        }
    }

    /// Counts the entries of a journal too.
    fn count(&mut self, journal: &Journal) {
        for n in 0..journal.len() {
            let count = match journal.entry_at(n).kind {
                Kind::Coprime => &mut self.coprime,
                Kind::Chain => &mut self.chain,
                Kind::Zero => &mut self.zero,
                Kind::Place => &mut self.place,
            };
            *count = count.saturating_add(1);
        }
    }
}

impl fmt::Display for Kinds {
    fn fmt<W: fmt::Write>(&self, f: &mut fmt::Formatter<W>) -> fmt::Result {
        write!(
            f,
            "coprime {} chain {} zero {} place {}",
            self.coprime, self.chain, self.zero, self.place
        )
    }
}

/// The saturated basis, once the phase of each column that isn't free and the last completion are ended, and none where one stops.
fn saturate(
    rt: &HostRuntime,
    mut saturation: Saturation,
    columns: u32,
) -> io::Result<Option<SaturatedBasis>> {
    let freed = saturation.free_columns();
    let phases = columns.saturating_sub(freed);
    let mut kinds = Kinds::none();
    for _ in 0..phases {
        if !saturate_next(rt.alloc(), &mut saturation, &mut kinds) {
            return Ok(None);
        }
    }
    println!(rt; "saturation {phases} phases {kinds}")?;

    let mut kinds = Kinds::none();
    let Some(saturated) = complete_last(rt.alloc(), &saturation, &mut kinds) else {
        return Ok(None);
    };
    let moves = saturated.basis().len();
    println!(rt; "completion {moves} moves {kinds}")?;
    Ok(Some(saturated))
}

/// Saturates the least column that is left, and counts the pairs of its phase. False where it stops.
fn saturate_next(alloc: Global, saturation: &mut Saturation, kinds: &mut Kinds) -> bool {
    let Ok(Some(job)) = saturation.next_job(alloc, BUDGET) else {
        return false;
    };
    let Ok(completed) = complete_alone(alloc, job) else {
        return false;
    };
    kinds.count(&completed.phase().journal);
    saturation.accept(&completed).is_ok()
}

/// The saturated basis that the last completion gives, where no column is left; it counts the pairs.
fn complete_last(
    alloc: Global,
    saturation: &Saturation,
    kinds: &mut Kinds,
) -> Option<SaturatedBasis> {
    let Ok(None) = saturation.next_job(alloc, BUDGET) else {
        return None;
    };
    let Ok(job) = saturation.final_job(alloc, BUDGET) else {
        return None;
    };
    let Ok(completed) = complete_alone(alloc, job) else {
        return None;
    };
    kinds.count(&completed.phase().journal);
    saturation.finish(&completed).ok()
}

/// The reduced basis and its essential moves, each with a line.
fn choose(rt: &HostRuntime, saturated: &SaturatedBasis) -> io::Result<ExitCode> {
    let Ok(reduced) = reduce_tails(rt.alloc(), saturated) else {
        return Ok(ExitCode::from(2));
    };
    let basis = reduced.basis();
    println!(rt; "tails {} moves", basis.len())?;

    let Ok(list) = minimise(rt.alloc(), &reduced, basis.grading(), None) else {
        return Ok(ExitCode::from(2));
    };
    println!(rt; "minimising {} moves", list.len())?;
    Ok(ExitCode::SUCCESS)
}
