use mk_run::{Folder, MemoryFolder, OpenGate, RunBook, Status, markov_top, run_alone};
use std::alloc::{AllocError, AllocGlobal, Global};
use std::collections::BTreeMap;
use std::process::Abort;
use std::sync::Wait;
use std::thread::Threads;

pub(crate) const MANY: usize = 1_000_000;

// An answer that stands already.
pub(crate) const OLDER: &str = "7 7\nan older answer\n";

// A file that no run for `P` looks for.
pub(crate) const OTHER: (&str, &str) = ("Q.mat", "another project's");

pub(crate) const CUBIC: &str = "2 4\n1 -2 1 0\n0 1 -2 1\n";

pub(crate) const CUBIC_MOVES: &str = "3 4\n0 -1 2 -1\n-1 1 1 -1\n-1 2 -1 0\n";

// A folder with a lattice of the project `P`, one file more and an older answer. It moves so many bytes a call, and the call of
// this number fails, counted from 1.
pub(crate) fn folder_of<'a>(
    alloc: Global,
    lattice: &'a [u8],
    beside: (&'a str, &'a str),
    chunk: usize,
    failing: u64,
) -> Result<MemoryFolder, AllocError> {
    let mut files = BTreeMap::new(alloc);
    let (name, text) = beside;
    for (name, bytes) in [
        ("P.lat", lattice),
        (name, text.as_bytes()),
        ("P.mar", OLDER.as_bytes()),
    ] {
        let name = String::from_str(alloc, name)?;
        files.insert(name, Vec::from_slice(alloc, bytes)?)?;
    }
    let fails = vec![in alloc; failing]?;
    Ok(MemoryFolder::new(alloc, files, fails, chunk.max(1)))
}

// The status of a run on the words with a new book, over a folder that makes no file. All runs of this crate are made here: by
// one worker where the words begin with `--workers 1`, and else by several.
pub(crate) fn run<R: Abort + AllocGlobal + Threads + Wait + Sync>(
    rt: &R,
    words: &[&str],
    folder: &mut MemoryFolder,
) -> Result<Status, AllocError> {
    assert!(rt; !folder.is_making());
    let mut texts = Vec::new(rt.alloc());
    for word in words {
        texts.push(String::from_str(rt.alloc(), word)?)?;
    }
    let mut book = RunBook::new(rt.alloc());
    let alloc = rt.alloc();
    if words.len() > 1 && words[1] == "1" {
        Ok(run_alone(alloc, &texts, folder, &mut book))
    } else {
        Ok(markov_top(rt, alloc, &texts, folder, &OpenGate, &mut book))
    }
}

// The folder has these three files and no other.
pub(crate) fn assert_files(
    rt: &impl Abort,
    folder: &MemoryFolder,
    lattice: &[u8],
    beside: (&str, &str),
    answer: &str,
) {
    let (name, text) = beside;
    assert_eq!(rt; folder.file("P.lat"), Some(lattice));
    assert_eq!(rt; folder.file(name), Some(text.as_bytes()));
    assert_eq!(rt; folder.file("P.mar"), Some(answer.as_bytes()));
    assert_eq!(rt; folder.len(), 3);
}
