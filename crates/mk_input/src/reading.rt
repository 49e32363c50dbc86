ghost use Rattle.std.specs.Prelude.{◌≡◌, ◌≤◌, ◌⊎◌, All, IfOk, IfErr, IfSome, OnOk};
ghost use Rattle.mk_model.specs.ChosenGradings.{IsGradingOf};
ghost use Rattle.mk_model.specs.Tables.{rows_of, ReadsTable};
ghost use Rattle.mk_files.specs.Bounds.{IsWithin};
ghost use Rattle.mk_files.specs.Reading.{IsFaultOf};
ghost use Rattle.mk_files.specs.declared.fault.TableFault.{TableFault};
ghost use Rattle.mk_desk.specs.Folders.{HasCause, OnlyReadingMoved, WhereTold};
ghost use Rattle.mk_project.specs.Files.{bounds_of, limits_for};
ghost use Rattle.mk_input.specs.Readings.{table_refused, IsShown, ReadsFile, ReadsProject};

use crate::fault::ReadFault;
use crate::problem::Problem;
use mk_desk::{Folder, Found, load};
use mk_files::{Table, read_table};
use mk_grading::choose;
use mk_project::{FILE_LIMIT, InputFault, InputFile};
use std::alloc::Global;

/// Reads a project: `PROJECT.lat`, which has to be there, then `PROJECT.mat` and `PROJECT.grade` where they are there, each
/// read as a table before the next is looked for; then the grading is chosen. The first fault met is answered.
pub fn read_project<F: Folder>(
    alloc: Global,
    folder: &mut F,
    project: &str,
) -> Result<Problem, ReadFault>
    ensures positive { IfOk result (λ problem. IsGradingOf problem.lat problem.grading) }
    ensures state { OnlyReadingMoved (F.state folder.old) (F.state folder.new) }
    ensures cause { HasCause ReadFault.Failed (F.state folder.old) (F.state folder.new) result }
    ensures shown { IsShown (F.state folder.new) result }
    ensures told { WhereTold (F.told folder.old) (F.told folder.new) (ReadsProject project.now result) }
{
    let Some(lat) = read_file(alloc, folder, project, InputFile::Lat)? else {
        return Err(ReadFault::Input(InputFault::NoLattice));
    };
    let mat = read_file(alloc, folder, project, InputFile::Mat)?;
    let grade = read_file(alloc, folder, project, InputFile::Grade)?;
    let grading = choose(alloc, &lat, mat.as_ref(), grade.as_ref())?;
    Ok(Problem { lat, grading })
}

/// Reads a file of a project as a table, or answers None where it is not there.
#[tactic(auto, using(crate::proofs::FilesRead::table_fault))]
fn read_file<F: Folder>(
    alloc: Global,
    folder: &mut F,
    project: &str,
    file: InputFile,
) -> Result<Option<Table>, ReadFault>
    ensures entries { IfOk result (λ table. IfSome table (λ grid. All (IsWithin (bounds_of file)) grid.entries)) }
    ensures absent { result ≡ Ok None → (F.state folder.new).found ≡ Some Found.Absent }
    ensures given { OnOk result ((F.state folder.new).given ≤ FILE_LIMIT) }
    ensures state { OnlyReadingMoved (F.state folder.old) (F.state folder.new) }
    ensures cause { HasCause ReadFault.Failed (F.state folder.old) (F.state folder.new) result }
    ensures shown { IsShown (F.state folder.new) result }
    ensures told { WhereTold (F.told folder.old) (F.told folder.new) (ReadsFile file project.now result) }
{
    let name = file.name(alloc, project)?;
    match load(alloc, folder, name.as_str(), FILE_LIMIT) {
        Err(fault) => Err(ReadFault::of_load(file, fault)),
        Ok(None) => Ok(None),
        Ok(Some(bytes)) => Ok(Some(table_of(alloc, &bytes, file)?)),
    }
}

/// The table that the bytes of a file write.
fn table_of(alloc: Global, bytes: &[u8], file: InputFile) -> Result<Table, ReadFault>
    ensures read { IfOk result (ReadsTable bytes.now (limits_for file)) }
    ensures entries { IfOk result (λ grid. All (IsWithin (bounds_of file)) grid.entries) }
    ensures refused { IfErr result (λ e. (e ≡ ReadFault.Memory)
        ⊎ ((fault : TableFault) × (e ≡ table_refused file fault) × IsFaultOf bytes.now (limits_for file) fault)) }
{
    let bounds = file.bounds();
    match read_table(alloc, bytes, &bounds) {
        Ok(table) => Ok(table),
        Err(fault) => Err(ReadFault::of_table(file, fault)),
    }
}
