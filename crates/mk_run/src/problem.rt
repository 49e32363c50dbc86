//! What a run is asked for: the lattice with its grading.

ghost use Rattle.std.specs.Prelude.{◌≡◌, ◌≤◌, ℕ, IfOk};
ghost use Rattle.mk_model.specs.ChosenGradings.{IsGradingOf};
ghost use Rattle.mk_model.specs.Lattices.{ones};
ghost use Rattle.mk_desk.specs.Folders.{HasCause, WhereTold};
ghost use Rattle.mk_gen.specs.Models.{AreModelSizes};
ghost use Rattle.mk_run.specs.Asked.{IsModel, IsModelIfAsked};
ghost use Rattle.mk_run.specs.Stages.{FindsProblem, IsFoundFor};

use mk_desk::Folder;
use mk_gen::model_table;
use mk_input::{Problem, ReadFault, read_project};
use mk_model::NoMemory;
use mk_move::{Grading, GradingFault};
use mk_words::Task;
use std::alloc::Global;

/// The lattice that is asked for, with its grading: that of the project's files, or a made table with all ones.
pub(crate) fn problem_of<F: Folder>(
    alloc: Global,
    folder: &mut F,
    task: &Task,
) -> Result<Problem, ReadFault>
    ensures positive { IfOk result (λ problem. IsGradingOf problem.lat problem.grading) }
    ensures made { IfOk result (λ problem. IsModelIfAsked task.now problem.lat problem.grading) }
    ensures found { IsFoundFor task.now (F.state folder.old) (F.state folder.new) result }
    ensures cause { HasCause ReadFault.Failed (F.state folder.old) (F.state folder.new) result }
    ensures told { WhereTold (F.told folder.old) (F.told folder.new)
        (FindsProblem task.now result) }
{
    match task {
        Task::Project(name) => read_project(alloc, folder, name.text()),
        Task::Model(sizes) => match model_problem(alloc, sizes.numbers()) {
            Ok(problem) => Ok(problem),
            Err(NoMemory) => Err(ReadFault::Memory),
        },
    }
}

/// The made table of these sizes, with all ones as its grading.
fn model_problem(alloc: Global, sizes: &[u32]) -> Result<Problem, NoMemory>
    requires { AreModelSizes sizes.now }
    ensures positive { IfOk result (λ problem. IsGradingOf problem.lat problem.grading) }
    ensures made { IfOk result (λ problem. IsModel sizes.now problem.lat problem.grading) }
{
    let lat = model_table(alloc, sizes)?;
    let grading = all_ones(alloc, lat.columns())?;
    Ok(Problem { lat, grading })
}

/// The grading of all ones of so many columns.
fn all_ones(alloc: Global, columns: u32) -> Result<Grading, NoMemory>
    requires { columns ≤ 512 }
    ensures { IfOk result (λ grading. grading ≡ ones columns) }
{
    let weights = vec![in alloc; 1i64; columns as usize]?;
    match Grading::new(alloc, &weights) {
        Ok(grading) => Ok(grading),
        Err(GradingFault::Memory) => Err(NoMemory),
        Err(GradingFault::NotInRange { .. }) => unreachable!(),
    }
}
