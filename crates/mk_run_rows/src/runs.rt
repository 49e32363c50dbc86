use mk_run::{Channel, MemoryFolder, RunBook, Status, run_alone};
use std::alloc::{AllocError, AllocGlobal, Global};
use std::collections::BTreeMap;
use std::process::Abort;
use std::test::Fail;

pub(crate) const MANY: usize = 1_000_000;

pub(crate) const OTHER: (&str, &str) = ("Q.mar", "other");

pub(crate) const OLDER: (&str, &str) = ("P.mar", "7 7\nan older answer\n");

// A lattice basis of the tables of three rows and three columns with the same margins, the row `r` and column `c` of a table
// at `3 * r + c`.
pub(crate) const INDEPENDENCE: &str =
    "4 9\n1 -1 0 -1 1 0 0 0 0\n0 1 -1 0 -1 1 0 0 0\n0 0 0 1 -1 0 -1 1 0\n0 0 0 0 1 -1 0 -1 1\n";

// The margins.
pub(crate) const MARGINS: &str =
    "6 9\n1 1 1 0 0 0 0 0 0\n0 0 0 1 1 1 0 0 0\n0 0 0 0 0 0 1 1 1\n1 0 0 1 0 0 1 0 0\n0 1 0 0 1 0 0 1 0\n0 0 1 0 0 1 0 0 1\n";

// The essential moves.
pub(crate) const NINE_MOVES: &str =
    "9 9\n0 0 0 0 -1 1 0 1 -1\n0 -1 1 0 0 0 0 1 -1\n0 0 0 -1 0 1 1 0 -1\n0 0 0 -1 1 0 1 -1 0\n-1 0 1 0 0 0 1 0 -1\n-1 1 0 0 0 0 1 -1 0\n0 -1 1 0 1 -1 0 0 0\n-1 0 1 1 0 -1 0 0 0\n-1 1 0 1 -1 0 0 0 0\n";

// What a run left.
#[derive(Drop)]
pub(crate) struct Ended {
    pub(crate) folder: MemoryFolder,
    pub(crate) book: RunBook,
}

// A run as below, that says nothing on the out channel.
pub(crate) fn assert_run(
    rt: &(impl Abort + AllocGlobal),
    words: &[&str],
    files: &[(&str, &str)],
    chunk: usize,
    failing: &[u64],
    wanted: (Status, &str),
    after: &[(&str, &str)],
) -> Result<Ended, Fail> {
    let (status, said) = wanted;
    assert_saying(rt, words, files, chunk, failing, (status, said, ""), after)
}

// Runs on the words over files with these names and texts, in a folder that moves so many bytes a call and where the calls with
// these numbers fail. The run ends with this status, says this on the error channel and this on the out channel, and leaves these
// files and no other.
pub(crate) fn assert_saying(
    rt: &(impl Abort + AllocGlobal),
    words: &[&str],
    files: &[(&str, &str)],
    chunk: usize,
    failing: &[u64],
    wanted: (Status, &str, &str),
    after: &[(&str, &str)],
) -> Result<Ended, Fail> {
    let alloc = rt.alloc();
    let mut texts = Vec::new(alloc);
    for word in words {
        texts.push(String::from_str(alloc, word)?)?;
    }
    let fails = Vec::from_slice(alloc, failing)?;
    let mut folder = MemoryFolder::new(alloc, map_of(alloc, files)?, fails, chunk.max(1));
    let mut book = RunBook::new(alloc);
    let status = run_alone(alloc, &texts, &mut folder, &mut book);
    let (status_wanted, said, out) = wanted;
    assert_eq!(rt;
        status,
        status_wanted,
        "{words:?} over {files:?}, {failing:?} failing"
    );
    assert_eq!(rt;
        folder.said(Channel::Err),
        said.as_bytes(),
        "{words:?} over {files:?}"
    );
    assert_eq!(rt;
        folder.said(Channel::Out),
        out.as_bytes(),
        "{words:?} over {files:?}"
    );
    for (name, text) in after {
        assert_eq!(rt;
            folder.file(name),
            Some(text.as_bytes()),
            "{name} over {files:?}"
        );
    }
    assert_eq!(rt; folder.len(), after.len());
    Ok(Ended { folder, book })
}

// The files by their names.
fn map_of(alloc: Global, files: &[(&str, &str)]) -> Result<BTreeMap<String, Vec<u8>>, AllocError> {
    let mut map = BTreeMap::new(alloc);
    for (name, text) in files {
        let name = String::from_str(alloc, name)?;
        map.insert(name, Vec::from_slice(alloc, text.as_bytes())?)?;
    }
    Ok(map)
}
