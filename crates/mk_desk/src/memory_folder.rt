//! A folder in memory, some of whose calls fail.

ghost use Rattle.std.specs.Prelude.{◌≡◌, ◌+◌, ◌<◌, ◌≤◌, ◌↔◌, min, IfOk, IfErr, IsErrOf};
ghost use Rattle.std.specs.List.{Contains};
ghost use Rattle.mk_desk.specs.Folders.{Rose, last_count};
ghost use Rattle.mk_desk.specs.declared.folder.DeskFault.TheVariants.{Failed};

use crate::faults::Faults;
use crate::folder::{Channel, DeskFault, Folder, Found};
use crate::sure_folder::SureFolder;
use std::alloc::Global;
use std::collections::BTreeMap;

/// Files and two channels in memory, some of whose calls fail. It tells everything.
///
/// A call moves no more bytes than its chunk, and the n-th call fails, counted from 1 over all six methods that may fail, where
/// its list of failing calls names n.
#[derive(Drop)]
pub struct MemoryFolder {
    kept: SureFolder,
    chunk: usize,
    calls: Calls,
    ghost moves: { 0 < chunk },
}

// How many calls there were, which of them fail, and how many did.
#[derive(Drop)]
struct Calls {
    count: u64,
    failing: Vec<u64>,
    faults: Faults,
}

impl Calls {
    // Begins a call, which fails where its number is named.
    fn begin(&mut self) -> Result<(), DeskFault>
        ensures count { self.new.count ≡ min (self.old.count + 1) last_count }
        ensures failing { self.new.failing ≡ self.old.failing }
        ensures failed { IsErrOf result Failed ↔ Contains self.old.failing.items self.new.count }
        ensures fault { IfErr result (λ fault. fault ≡ Failed) }
        ensures quiet { IfOk result (λ _. self.new.faults.count ≡ self.old.faults.count) }
        ensures later { self.old.faults.count ≤ self.new.faults.count }
        ensures rose { IsErrOf result Failed → Rose self.old.faults.count self.new.faults.count }
    {
        self.count = self.count.saturating_add(1);
        if self.failing.contains(&self.count) {
            return Err(self.faults.rise());
        }
        Ok(())
    }
}

impl MemoryFolder {
    ghost use Rattle.std.specs.Prelude.{[], ◌≡◌, ◌≤◌, None, false, OnOk, OnErr, option_copied};
    ghost use Rattle.std.specs.FinMap.{get, len};
    ghost use Rattle.mk_desk.specs.Folders.{said_on};
    ghost use Rattle.mk_desk.specs.MemoryFolders.{memory_desk, memory_state, call_count, failing_calls, chunk_of};
    ghost use Rattle.mk_desk.specs.SureFolders.{files_of};

    /// No file is being made, and nothing was said.
    pub fn new(
        alloc: Global,
        files: BTreeMap<String, Vec<u8>>,
        failing: Vec<u64>,
        chunk: usize,
    ) -> MemoryFolder
        requires { 1 ≤ chunk }
        ensures desk { memory_desk result ≡ record { files = files_of files; rest = []; made_name = []; made = []; out = []; errors = [] } }
        ensures state { memory_state result ≡ record { making = false; found = None; given = 0; faults = 0 } }
        ensures calls { (call_count result ≡ 0) × (failing_calls result ≡ failing.items) × (chunk_of result ≡ chunk) }
    {
        MemoryFolder {
            kept: SureFolder::new(alloc, files),
            chunk,
            calls: Calls {
                count: 0,
                failing,
                faults: Faults::new(),
            },
        }
    }

    /// The bytes of a file.
    pub fn file(&self, name: &str) -> Option<&[u8]>
        ensures { option_copied result ≡ get (memory_desk self.now).files name.now }
    {
        self.kept.file(name)
    }

    /// How many files there are.
    pub fn len(&self) -> usize
        ensures { result ≡ len (memory_desk self.now).files }
    {
        self.kept.len()
    }

    /// The name of the file being made, or last made.
    pub fn made_name(&self) -> &str
        ensures { result.now ≡ (memory_desk self.now).made_name }
    {
        self.kept.made_name()
    }

    /// The bytes of the file being made, or last made.
    pub fn made(&self) -> &[u8]
        ensures { result.now ≡ (memory_desk self.now).made }
    {
        self.kept.made()
    }

    /// What was said on a channel.
    pub fn said(&self, channel: Channel) -> &[u8]
        ensures { result.now ≡ said_on channel (memory_desk self.now) }
    {
        self.kept.said(channel)
    }

    /// How many calls there were.
    pub fn calls(&self) -> u64
        ensures { result ≡ call_count self.now }
    {
        self.calls.count
    }

    /// How many of them failed.
    pub fn faults(&self) -> u64
        ensures { result ≡ (memory_state self.now).faults }
    {
        self.calls.faults.count
    }
}

// Beside what every folder does, each call is counted, fails exactly where it is named, and moves no more than the chunk.
impl Folder for MemoryFolder {
    ghost use Rattle.std.specs.Prelude.{Some, true, false, length, is_ok};
    ghost use Rattle.std.specs.Result.{result_ok};
    ghost use Rattle.mk_desk.specs.declared.folder.Found.TheVariants.{Here};
    ghost use Rattle.mk_desk.specs.Folders.{HasCause, OnlyFaultsRose, StartsReading, Reads, StartsWriting, Writes, EndsWriting, Says, given_after};
    ghost use Rattle.mk_desk.specs.MemoryFolders.{memory_desk, memory_state, chunk_of, IsNextCall};

    ghost told = { λ folder. Some (memory_desk folder) };

    ghost state = { memory_state };

    fn is_making(&self) -> bool
        ensures { result ≡ (memory_state self.now).making }
    {
        self.kept.is_making()
    }

    fn start_read(&mut self, name: &str) -> Result<Found, DeskFault>
        ensures state { memory_state self.new
            ≡ record (memory_state self.old) { found = result_ok result; given = 0; faults = (memory_state self.new).faults } }
        ensures desk { StartsReading name.now result (memory_desk self.old) (memory_desk self.new) }
        ensures cause { HasCause DeskFault.Failed (memory_state self.old) (memory_state self.new) result }
        ensures call { IsNextCall self.old self.new result }
    {
        self.kept.end_reading();
        self.calls.begin()?;
        self.kept.start_read(name)
    }

    fn read(&mut self, into: &mut [u8]) -> Result<usize, DeskFault>
        requires here { (memory_state self.old).found ≡ Some Here }
        requires room { 0 < length into.old }
        ensures within { IfOk result (λ n. n ≤ min (length into.old) (chunk_of self.old)) }
        ensures state { memory_state self.new
            ≡ record (memory_state self.old) { given = given_after (memory_state self.old).given result; faults = (memory_state self.new).faults } }
        ensures desk { Reads into.new result (memory_desk self.old) (memory_desk self.new) }
        ensures cause { HasCause DeskFault.Failed (memory_state self.old) (memory_state self.new) result }
        ensures call { IsNextCall self.old self.new result }
    {
        self.calls.begin()?;
        let most = into.len().min(self.chunk);
        self.kept.read(&mut into[..most])
    }

    fn start_write(&mut self, name: &str) -> Result<(), DeskFault>
        requires { (memory_state self.old).making ≡ false }
        ensures state { memory_state self.new
            ≡ record (memory_state self.old) { making = is_ok result; faults = (memory_state self.new).faults } }
        ensures desk { StartsWriting name.now result (memory_desk self.old) (memory_desk self.new) }
        ensures cause { HasCause DeskFault.Failed (memory_state self.old) (memory_state self.new) result }
        ensures call { IsNextCall self.old self.new result }
    {
        self.calls.begin()?;
        self.kept.start_write(name)
    }

    fn write(&mut self, piece: &[u8]) -> Result<usize, DeskFault>
        requires making { (memory_state self.old).making ≡ true }
        requires some { 0 < length piece.now }
        ensures within { IfOk result (λ n. (0 < n) × (n ≤ min (length piece.now) (chunk_of self.old))) }
        ensures state { OnlyFaultsRose (memory_state self.old) (memory_state self.new) }
        ensures desk { Writes piece.now result (memory_desk self.old) (memory_desk self.new) }
        ensures cause { HasCause DeskFault.Failed (memory_state self.old) (memory_state self.new) result }
        ensures call { IsNextCall self.old self.new result }
    {
        self.calls.begin()?;
        let most = piece.len().min(self.chunk);
        self.kept.write(&piece[..most])
    }

    fn end_write(&mut self) -> Result<(), DeskFault>
        requires { (memory_state self.old).making ≡ true }
        ensures state { memory_state self.new
            ≡ record (memory_state self.old) { making = false; faults = (memory_state self.new).faults } }
        ensures desk { EndsWriting result (memory_desk self.old) (memory_desk self.new) }
        ensures cause { HasCause DeskFault.Failed (memory_state self.old) (memory_state self.new) result }
        ensures call { IsNextCall self.old self.new result }
    {
        if let Err(fault) = self.calls.begin() {
            self.kept.end_making();
            return Err(fault);
        }
        self.kept.end_write()
    }

    fn say(&mut self, channel: Channel, piece: &[u8]) -> Result<usize, DeskFault>
        requires { 0 < length piece.now }
        ensures within { IfOk result (λ n. (0 < n) × (n ≤ min (length piece.now) (chunk_of self.old))) }
        ensures state { OnlyFaultsRose (memory_state self.old) (memory_state self.new) }
        ensures desk { Says channel piece.now result (memory_desk self.old) (memory_desk self.new) }
        ensures cause { HasCause DeskFault.Failed (memory_state self.old) (memory_state self.new) result }
        ensures call { IsNextCall self.old self.new result }
    {
        self.calls.begin()?;
        let most = piece.len().min(self.chunk);
        self.kept.say(channel, &piece[..most])
    }
}
