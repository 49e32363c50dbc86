//! Whole files and whole pieces over a folder, which may move only some bytes at each call.

ghost use Rattle.std.specs.Prelude.{◌≡◌, ◌+◌, ◌-◌, ◌<◌, ◌≤◌, ◌^◌, ◌↔◌, ℕ, true, [], vec_len, IfOk, IfSome, IsOk, IsErrOf};
ghost use Rattle.mk_desk.specs.Folders.{HasCause, OnlyFaultsRose, OnlyReadingMoved, WhereTold, last_count};
ghost use Rattle.mk_desk.specs.Transfers.{Loads, ReadsRest, PutsAll, SaysAll, passed_on};
ghost use Rattle.mk_desk.specs.declared.folder.Found.TheVariants.{Here, Absent};
ghost use Rattle.mk_desk.specs.declared.transfer.LoadFault.TheVariants.{Memory, FileSize};

use crate::folder::{Channel, DeskFault, Folder, Found};
use std::alloc::{AllocError, Global};
use thiserror::Error;

/// Why a file was not loaded. A file that is longer than it may be says how many of its bytes were read.
#[derive(Clone, Copy, Debug, PartialEq, Eq, Error)]
pub enum LoadFault {
    #[error("out of memory")]
    Memory,
    #[error("a file failed")]
    Failed,
    #[error("the file is too long, after {read} bytes")]
    FileSize { read: u64 },
}

impl From<DeskFault> for LoadFault {
    ghost from_gives = { λ fault given. given ≡ passed_on fault };

    fn from(fault: DeskFault) -> LoadFault {
        match fault {
            DeskFault::Memory => LoadFault::Memory,
            DeskFault::Failed => LoadFault::Failed,
        }
    }
}

impl From<AllocError> for LoadFault {
    ghost from_gives = { λ _ given. given ≡ Memory };

    fn from(_fault: AllocError) -> LoadFault {
        LoadFault::Memory
    }
}

/// How many bytes a folder is asked for at a time.
const BUFFER: usize = 65536;

/// Reads a whole file, or answers None where no file has the name.
///
/// `FileSize` where the file is longer than the limit, once one byte more than that was read; `Failed` where the folder
/// failed; `Memory` where memory ran out.
pub fn load<F: Folder>(
    alloc: Global,
    folder: &mut F,
    name: &str,
    limit: u64,
) -> Result<Option<Vec<u8>>, LoadFault>
    requires { limit < last_count }
    ensures none { (result ≡ Ok None) ↔ ((F.state folder.new).found ≡ Some Absent) }
    ensures whole { IfOk result (λ file. IfSome file (λ bytes. ((F.state folder.new).given ≡ vec_len bytes) × (vec_len bytes ≤ limit))) }
    ensures size { (result ≡ Err (FileSize (limit + 1))) ↔ ((F.state folder.new).given ≡ limit + 1) }
    ensures one_size { (read : ℕ) → IsErrOf result (FileSize read) → read ≡ limit + 1 }
    ensures here { IfOk result (λ file. IfSome file (λ _. (F.state folder.new).found ≡ Some Here)) }
    ensures size_here { (read : ℕ) → IsErrOf result (FileSize read) → (F.state folder.new).found ≡ Some Here }
    ensures absent { result ≡ Ok None → (F.state folder.new).given ≡ 0 }
    ensures state { OnlyReadingMoved (F.state folder.old) (F.state folder.new) }
    ensures cause { HasCause LoadFault.Failed (F.state folder.old) (F.state folder.new) result }
    ensures told { WhereTold (F.told folder.old) (F.told folder.new) (Loads name.now limit result) }
{
    match folder.start_read(name)? {
        Found::Absent => Ok(None),
        Found::Here => Ok(Some(read_rest(alloc, folder, limit)?)),
    }
}

// Reads what is left of the file, if it is no longer than the limit.
fn read_rest<F: Folder>(alloc: Global, folder: &mut F, limit: u64) -> Result<Vec<u8>, LoadFault>
    requires limit { limit < last_count }
    requires here { (F.state folder.old).found ≡ Some Here }
    requires given { (F.state folder.old).given ≡ 0 }
    ensures state { F.state folder.new
        ≡ record (F.state folder.old) { given = (F.state folder.new).given; faults = (F.state folder.new).faults } }
    ensures whole { IfOk result (λ bytes. ((F.state folder.new).given ≡ vec_len bytes) × (vec_len bytes ≤ limit)) }
    ensures size { (result ≡ Err (FileSize (limit + 1))) ↔ ((F.state folder.new).given ≡ limit + 1) }
    ensures one_size { (read : ℕ) → IsErrOf result (FileSize read) → read ≡ limit + 1 }
    ensures cause { HasCause LoadFault.Failed (F.state folder.old) (F.state folder.new) result }
    ensures told { WhereTold (F.told folder.old) (F.told folder.new) (ReadsRest limit result) }
{
    let mut bytes = Vec::new(alloc);
    let mut buffer = vec![in alloc; 0u8; BUFFER]?;
    loop {
        let left = limit + 1 - bytes.len() as u64;
        let part = &mut buffer[..left.min(BUFFER as u64) as usize];
        let count = folder.read(part)?;
        if count == 0 {
            return Ok(bytes);
        }
        if count as u64 == left {
            return Err(LoadFault::FileSize { read: limit + 1 });
        }
        bytes.extend_from_slice(&part[..count])?;
    }
}

/// Appends a whole piece to the file being made. An empty piece takes no call.
///
/// An error is the folder's: then a prefix of the piece was appended.
pub fn put_all<F: Folder>(folder: &mut F, piece: &[u8]) -> Result<(), DeskFault>
    requires { (F.state folder.old).making ≡ true }
    ensures state { OnlyFaultsRose (F.state folder.old) (F.state folder.new) }
    ensures cause { HasCause DeskFault.Failed (F.state folder.old) (F.state folder.new) result }
    ensures empty { piece.now ≡ [] → IsOk result × (folder.new ≡ folder.old) }
    ensures told { WhereTold (F.told folder.old) (F.told folder.new) (PutsAll piece.now result) }
{
    let mut done = 0;
    while done < piece.len() {
        done += folder.write(&piece[done..])?;
    }
    Ok(())
}

/// Says a whole piece on a channel. An empty piece takes no call.
///
/// An error is the folder's: then a prefix of the piece was said.
pub fn say_all<F: Folder>(folder: &mut F, channel: Channel, piece: &[u8]) -> Result<(), DeskFault>
    ensures state { OnlyFaultsRose (F.state folder.old) (F.state folder.new) }
    ensures cause { HasCause DeskFault.Failed (F.state folder.old) (F.state folder.new) result }
    ensures empty { piece.now ≡ [] → IsOk result × (folder.new ≡ folder.old) }
    ensures told { WhereTold (F.told folder.old) (F.told folder.new) (SaysAll channel piece.now result) }
{
    let mut done = 0;
    while done < piece.len() {
        done += folder.say(channel, &piece[done..])?;
    }
    Ok(())
}
