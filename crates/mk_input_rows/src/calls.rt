use mk_desk::{DeskFault, Folder, LoadFault, MemoryFolder, load, put_all};
use std::alloc::{AllocError, AllocGlobal, Global};
use std::collections::BTreeMap;
use std::process::Abort;

pub(crate) const MANY: usize = 1_000_000;

// A folder with these files. It moves so many bytes a call, and the call of this number fails, counted from 1.
pub(crate) fn folder_of(
    alloc: Global,
    files: &[(&str, &str)],
    chunk: usize,
    failing: u64,
) -> Result<MemoryFolder, AllocError> {
    let mut kept = BTreeMap::new(alloc);
    for (name, text) in files {
        let name = String::from_str(alloc, name)?;
        kept.insert(name, Vec::from_slice(alloc, text.as_bytes())?)?;
    }
    let fails = vec![in alloc; failing]?;
    Ok(MemoryFolder::new(alloc, kept, fails, chunk.max(1)))
}

// A load with this limit answers so.
pub(crate) fn assert_load<F: Folder>(
    rt: &(impl Abort + AllocGlobal),
    folder: &mut F,
    name: &str,
    limit: u32,
    wanted: Result<Option<&str>, LoadFault>,
) {
    let answer = load(rt.alloc(), folder, name, u64::from(limit));
    let wanted = match wanted {
        Ok(Some(text)) => Ok(Some(text.as_bytes())),
        Ok(None) => Ok(None),
        Err(fault) => Err(fault),
    };
    let found = match &answer {
        Ok(Some(bytes)) => Ok(Some(bytes.as_slice())),
        Ok(None) => Ok(None),
        Err(fault) => Err(*fault),
    };
    assert_eq!(rt; found, wanted, "{name} with limit {limit}");
}

// A file of this name is being made from now on, and none before.
pub(crate) fn assert_started<F: Folder>(rt: &impl Abort, folder: &mut F, name: &str) {
    assert!(rt; !folder.is_making());
    assert_eq!(rt; folder.start_write(name), Ok(()), "{name}");
    assert!(rt; folder.is_making());
}

// A write answers so, and the file is being made still.
pub(crate) fn assert_write<F: Folder>(
    rt: &impl Abort,
    folder: &mut F,
    piece: &str,
    wanted: Result<usize, DeskFault>,
) {
    assert!(rt; folder.is_making());
    assert!(rt; !piece.is_empty());
    assert_eq!(rt; folder.write(piece.as_bytes()), wanted, "{piece}");
    assert!(rt; folder.is_making());
}

// The whole piece is put into the file being made, or a call fails.
pub(crate) fn assert_put<F: Folder>(
    rt: &impl Abort,
    folder: &mut F,
    piece: &str,
    wanted: Result<(), DeskFault>,
) {
    assert!(rt; folder.is_making());
    assert_eq!(rt; put_all(folder, piece.as_bytes()), wanted, "{piece}");
}

// The end of the file being made answers so, and no file is being made any more.
pub(crate) fn assert_end<F: Folder>(
    rt: &impl Abort,
    folder: &mut F,
    wanted: Result<(), DeskFault>,
) {
    assert!(rt; folder.is_making());
    assert_eq!(rt; folder.end_write(), wanted);
    assert!(rt; !folder.is_making());
}

// A folder has a file with this text, or none of this name.
pub(crate) fn assert_file(rt: &impl Abort, folder: &MemoryFolder, name: &str, text: Option<&str>) {
    let wanted = match text {
        Some(text) => Some(text.as_bytes()),
        None => None,
    };
    assert_eq!(rt; folder.file(name), wanted, "{name}");
}
