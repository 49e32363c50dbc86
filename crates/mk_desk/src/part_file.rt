//! A file that is being made, which stands beside its place until it is whole.

ghost use Rattle.std.specs.Prelude.{◌≡◌, ◌++◌, ◌<◌, ◌≤◌, ◌↔◌, IsTrue, IfOk, IfSome, length, string_bytes, codes, decimal};

use std::alloc::{AllocError, Global};
use std::fs::{self, File, OpenFile, Permissions};
use std::io::{self, ErrorKind, Write};
use std::os::unix::fs::{OpenOptionsExt, PermissionsExt};
use std::path::Path;
use std::rt::Files;

/// How many names a file that is being made may have, beside its place.
const PART_NAMES: u64 = 100;

/// The bits of a file's mode that say who may read, write and run it.
const PERMISSION_BITS: u32 = 0o777;

/// Its owner alone may read and write a file.
const OWNER_ALONE: u32 = 0o600;

/// A file that is being made.
///
/// From its first write on it stands beside its place, under a name that no file had, and it takes its own name at the end.
/// It has the permissions of the file that it takes the place of. Where it fails nothing is left beside its place.
#[derive(Drop)]
pub(crate) struct PartFile<R: Files> {
    name: String,
    part: Part<R>,
}

// What stands beside the place.
#[derive(Drop)]
enum Part<R: Files> {
    NotYet,
    Open { file: R::File, beside: String },
    NoMore,
}

impl<R: Files> PartFile<R> {
    /// A file that is to have this name. Nothing is made yet.
    pub(crate) fn new(name: String) -> PartFile<R> {
        PartFile {
            name,
            part: Part::NotYet,
        }
    }

    /// Appends a front of the piece, and tells its length, or None where the system refuses. No memory is asked for once
    /// there is a file.
    pub(crate) fn write(
        &mut self,
        alloc: Global,
        rt: &R,
        piece: &[u8],
    ) -> Result<Option<usize>, AllocError>
        ensures { IfOk result (λ count. IfSome count (λ n. (0 < n) × (n ≤ length piece.now))) }
    {
        self.make(alloc, rt)?;
        let Part::Open { file, beside } = &mut self.part else {
            return Ok(None);
        };
        match file.write(piece) {
            Ok(count) if count > 0 => Ok(Some(count)),
            _ => {
                let _ = fs::remove_file(rt, beside.as_str());
                self.part = Part::NoMore;
                Ok(None)
            }
        }
    }

    /// Gives the file its name, once its bytes are on the device. Tells whether the system did so.
    pub(crate) fn finish(mut self, alloc: Global, rt: &R) -> Result<bool, AllocError> {
        self.make(alloc, rt)?;
        let PartFile { name, part } = self;
        let Part::Open { file, beside } = part else {
            return Ok(false);
        };
        let is_synced = file.sync_all().is_ok();
        drop(file);
        if is_synced && fs::rename(rt, beside.as_str(), name.as_str()).is_ok() {
            sync_entry(rt, name.as_str());
            return Ok(true);
        }
        let _ = fs::remove_file(rt, beside.as_str());
        Ok(false)
    }

    // Makes the file, where it was not made yet.
    fn make(&mut self, alloc: Global, rt: &R) -> Result<(), AllocError> {
        if let Part::NotYet = self.part {
            self.part = make_part(alloc, rt, self.name.as_str(), PART_NAMES)?;
        }
        Ok(())
    }
}

// Makes a new file beside a place, under the first of so many names that no file has. A file that is there is left as it is.
fn make_part<R: Files>(
    alloc: Global,
    rt: &R,
    name: &str,
    names: u64,
) -> Result<Part<R>, AllocError> {
    let mode = older_mode(rt, name);
    for number in 1..=names {
        let beside = part_name(alloc, name, number)?;
        match create_part(rt, beside.as_str(), mode) {
            Ok(file) => return Ok(Part::Open { file, beside }),
            Err(error) if is_taken(error.kind()) => {}
            Err(_) => return Ok(Part::NoMore),
        }
    }
    Ok(Part::NoMore)
}

// The permissions of the file of this name, and none where no file has it. Where they can't be read its owner alone has any.
fn older_mode<R: Files>(rt: &R, name: &str) -> Option<u32> {
    match fs::metadata(rt, name) {
        Ok(older) => Some(older.permissions().mode() & PERMISSION_BITS),
        Err(error) if is_absent(error.kind()) => None,
        Err(_) => Some(OWNER_ALONE),
    }
}

// Makes a new file with these permissions, or with those that the system gives to any. At no time has it more of them.
fn create_part<R: Files>(rt: &R, beside: &str, mode: Option<u32>) -> io::Result<R::File> {
    let Some(mode) = mode else {
        return File::create_new(rt, beside);
    };
    let mut options = File::options();
    options.read(true).write(true).create_new(true).mode(mode);
    let file = options.open(rt, beside)?;
    // The system takes away what its mask has of them. Where it doesn't let them be given back, the file has fewer.
    let _ = file.set_permissions(Permissions::from_mode(mode));
    Ok(file)
}

// The name beside a place of this number, counted from 1: `NAME.part`, `NAME.part2`, `NAME.part3` and so on.
fn part_name(alloc: Global, name: &str, number: u64) -> Result<String, AllocError>
    ensures first { number ≡ 1 → IfOk result (λ part. string_bytes part ≡ name.now ++ codes ".part") }
    ensures later { 1 < number → IfOk result (λ part. string_bytes part ≡ name.now ++ codes ".part" ++ decimal number) }
{
    if number > 1 {
        format!(in alloc; "{name}.part{number}")
    } else {
        format!(in alloc; "{name}.part")
    }
}

/// Whether an error of this kind says that no file has the name.
pub(crate) fn is_absent(kind: ErrorKind) -> bool
    ensures { IsTrue result ↔ (kind ≡ ErrorKind.NotFound) }
{
    kind == ErrorKind::NotFound
}

// Whether an error of this kind says that a file has the name already.
fn is_taken(kind: ErrorKind) -> bool
    ensures { IsTrue result ↔ (kind ≡ ErrorKind.AlreadyExists) }
{
    kind == ErrorKind::AlreadyExists
}

// Syncs the folder of a file, where the system can.
fn sync_entry<R: Files>(rt: &R, name: &str) {
    let folder = match Path::new(name).parent() {
        Some(folder) if folder != Path::new("") => folder,
        _ => Path::new("."),
    };
    if let Ok(folder) = fs::open(rt, folder) {
        let _ = folder.sync_all();
    }
}
