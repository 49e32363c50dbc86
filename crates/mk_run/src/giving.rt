//! The answer of a run: the file that is written for a project, or the summary that is said of a made table.

ghost use Rattle.std.specs.Prelude.{◌≡◌, false, map, IfOk, OnOk};
ghost use Rattle.mk_desk.specs.Folders.{HasCause, OnlyFaultsRose, WhereTold};
ghost use Rattle.mk_desk.specs.Transfers.{SaysAll};
ghost use Rattle.mk_run.specs.Stages.{GivesAnswer, GivesState, WritesAnswer, summary_of};

use mk_desk::{Channel, DeskFault, Folder, say_all};
use mk_files::Table;
use mk_gen::summary;
use mk_minimise::MinimalList;
use mk_move::MoveList;
use mk_project::file_name;
use mk_words::Task;
use mk_writer::write_moves;
use std::alloc::{AllocError, Global};

/// Writes the list for a project, or says the summary of a made table with this list.
pub(crate) fn give<F: Folder>(
    alloc: Global,
    folder: &mut F,
    task: &Task,
    lat: &Table,
    list: &MinimalList,
) -> Result<(), DeskFault>
    requires { (F.state folder.old).making ≡ false }
    ensures state { GivesState task.now (F.state folder.old) (F.state folder.new) result }
    ensures cause { HasCause DeskFault.Failed (F.state folder.old) (F.state folder.new) result }
    ensures told { WhereTold (F.told folder.old) (F.told folder.new)
        (GivesAnswer task.now lat.now list.now result) }
{
    match task {
        Task::Project(name) => write_answer(alloc, folder, name.text(), list),
        Task::Model(sizes) => say_summary(alloc, folder, sizes.numbers(), lat, list),
    }
}

/// Makes `PROJECT.mar` with the text of the list.
fn write_answer<F: Folder>(
    alloc: Global,
    folder: &mut F,
    project: &str,
    list: &MinimalList,
) -> Result<(), DeskFault>
    requires { (F.state folder.old).making ≡ false }
    ensures state { F.state folder.new
        ≡ record (F.state folder.old) {
          making = (F.state folder.new).making;
          faults = (F.state folder.new).faults;
        } }
    ensures making { OnOk result ((F.state folder.new).making ≡ false) }
    ensures cause { HasCause DeskFault.Failed (F.state folder.old) (F.state folder.new) result }
    ensures told { WhereTold (F.told folder.old) (F.told folder.new)
        (WritesAnswer project.now list.now result) }
{
    let name = file_name(alloc, project, ".mar")?;
    folder.start_write(name.as_str())?;
    write_moves(alloc, folder, list)?;
    Ok(folder.end_write()?)
}

/// Says the summary of a table of these sizes with the list on the out channel. No file is touched.
fn say_summary<F: Folder>(
    alloc: Global,
    folder: &mut F,
    sizes: &[u32],
    lat: &Table,
    list: &MinimalList,
) -> Result<(), DeskFault>
    ensures state { OnlyFaultsRose (F.state folder.old) (F.state folder.new) }
    ensures cause { HasCause DeskFault.Failed (F.state folder.old) (F.state folder.new) result }
    ensures told { WhereTold (F.told folder.old) (F.told folder.new)
        (SaysAll Channel.Out (summary_of sizes.now lat.now list.now) result) }
{
    let weights = weights_of(alloc, list)?;
    let Ok(text) = summary(alloc, sizes, lat.rows(), lat.columns(), weights.as_slice()) else {
        return Err(DeskFault::Memory);
    };
    say_all(folder, Channel::Out, text.as_bytes())
}

/// The weights of the moves, in their order.
fn weights_of(alloc: Global, list: &MinimalList) -> Result<Vec<i128>, AllocError>
    ensures { IfOk result (λ weights. weights.items ≡ map (λ m. m.weight) list.now.moves) }
{
    let mut weights = Vec::new(alloc);
    for k in 0..list.len() {
        weights.push(list.move_at(k).weight())?;
    }
    Ok(weights)
}
