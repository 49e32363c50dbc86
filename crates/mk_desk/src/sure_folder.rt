//! A folder in memory whose calls never fail.

ghost use Rattle.std.specs.Prelude.{◌≡◌, ◌≤◌, vec_len};
ghost use Rattle.mk_desk.specs.Folders.{CountsNoFault, Rose};

use crate::folder::{Channel, DeskFault, Folder, Found};
use std::alloc::{AllocError, Global};
use std::collections::BTreeMap;

/// Files and two channels in memory. It tells everything, and its calls never fail by a device: they want for memory alone.
#[derive(Drop)]
pub struct SureFolder {
    alloc: Global,
    files: BTreeMap<String, Vec<u8>>,
    reading: Vec<u8>,
    position: usize,
    found: Option<Found>,
    given: u64,
    making: bool,
    made_name: String,
    made: Vec<u8>,
    out: Vec<u8>,
    errors: Vec<u8>,
    ghost within: { position ≤ vec_len reading },
}

impl SureFolder {
    ghost use Rattle.std.specs.Prelude.{[], Some, None, false, OnOk, OnErr, option_copied};
    ghost use Rattle.std.specs.FinMap.{get, insert, len};
    ghost use Rattle.mk_desk.specs.Folders.{said_on};
    ghost use Rattle.mk_desk.specs.SureFolders.{files_of, sure_desk, sure_state};

    /// No file is being made, and nothing was said.
    pub fn new(alloc: Global, files: BTreeMap<String, Vec<u8>>) -> SureFolder
        ensures desk { sure_desk result ≡ record { files = files_of files; rest = []; made_name = []; made = []; out = []; errors = [] } }
        ensures state { sure_state result ≡ record { making = false; found = None; given = 0; faults = 0 } }
    {
        SureFolder {
            alloc,
            files,
            reading: Vec::new(alloc),
            position: 0,
            found: None,
            given: 0,
            making: false,
            made_name: String::new(alloc),
            made: Vec::new(alloc),
            out: Vec::new(alloc),
            errors: Vec::new(alloc),
        }
    }

    // Puts a copy of the bytes under the name.
    fn put_file(
        alloc: Global,
        files: &mut BTreeMap<String, Vec<u8>>,
        name: &str,
        bytes: &[u8],
    ) -> Result<(), AllocError>
        ensures ok { OnOk result (files_of files.new ≡ insert (files_of files.old) name.now bytes.now) }
        ensures err { OnErr result (files_of files.new ≡ files_of files.old) }
    {
        let name = String::from_str(alloc, name)?;
        let bytes = Vec::from_slice(alloc, bytes)?;
        files.insert(name, bytes)?;
        Ok(())
    }

    // Ends a reading, as one that failed to start.
    pub(crate) fn end_reading(&mut self)
        ensures desk { sure_desk self.new ≡ sure_desk self.old }
        ensures state { sure_state self.new ≡ record (sure_state self.old) { found = None; given = 0 } }
    {
        self.found = None;
        self.given = 0;
    }

    // Ends the making of a file, which gets no place among the files.
    pub(crate) fn end_making(&mut self)
        ensures desk { sure_desk self.new ≡ sure_desk self.old }
        ensures state { sure_state self.new ≡ record (sure_state self.old) { making = false } }
    {
        self.making = false;
    }

    /// The bytes of a file.
    pub fn file(&self, name: &str) -> Option<&[u8]>
        ensures { option_copied result ≡ get (sure_desk self.now).files name.now }
    {
        match self.files.get(name) {
            Some(bytes) => Some(bytes.as_slice()),
            None => None,
        }
    }

    /// How many files there are.
    pub fn len(&self) -> usize
        ensures { result ≡ len (sure_desk self.now).files }
    {
        self.files.len()
    }

    /// The name of the file being made, or last made.
    pub fn made_name(&self) -> &str
        ensures { result.now ≡ (sure_desk self.now).made_name }
    {
        self.made_name.as_str()
    }

    /// The bytes of the file being made, or last made.
    pub fn made(&self) -> &[u8]
        ensures { result.now ≡ (sure_desk self.now).made }
    {
        self.made.as_slice()
    }

    /// What was said on a channel.
    pub fn said(&self, channel: Channel) -> &[u8]
        ensures { result.now ≡ said_on channel (sure_desk self.now) }
    {
        match channel {
            Channel::Out => self.out.as_slice(),
            Channel::Err => self.errors.as_slice(),
        }
    }
}

impl Folder for SureFolder {
    ghost use Rattle.std.specs.Prelude.{Some};
    ghost use Rattle.mk_desk.specs.SureFolders.{sure_desk, sure_state};

    ghost told = { λ folder. Some (sure_desk folder) };

    ghost state = { sure_state };

    fn is_making(&self) -> bool {
        self.making
    }

    fn start_read(&mut self, name: &str) -> Result<Found, DeskFault> {
        self.found = None;
        self.given = 0;
        let Some(bytes) = self.files.get(name) else {
            self.found = Some(Found::Absent);
            return Ok(Found::Absent);
        };
        let copy = Vec::from_slice(self.alloc, bytes)?;
        self.position = 0;
        self.reading = copy;
        self.found = Some(Found::Here);
        Ok(Found::Here)
    }

    fn read(&mut self, into: &mut [u8]) -> Result<usize, DeskFault> {
        let rest = &self.reading[self.position..];
        let count = rest.len().min(into.len());
        into[..count].copy_from_slice(&rest[..count]);
        self.position += count;
        self.given = self.given.saturating_add(count as u64);
        Ok(count)
    }

    fn start_write(&mut self, name: &str) -> Result<(), DeskFault> {
        self.made_name = String::from_str(self.alloc, name)?;
        self.made.clear();
        self.making = true;
        Ok(())
    }

    fn write(&mut self, piece: &[u8]) -> Result<usize, DeskFault> {
        self.made.extend_from_slice(piece)?;
        Ok(piece.len())
    }

    fn end_write(&mut self) -> Result<(), DeskFault> {
        self.making = false;
        SureFolder::put_file(self.alloc, &mut self.files, &self.made_name, &self.made)?;
        Ok(())
    }

    fn say(&mut self, channel: Channel, piece: &[u8]) -> Result<usize, DeskFault> {
        match channel {
            Channel::Out => self.out.extend_from_slice(piece)?,
            Channel::Err => self.errors.extend_from_slice(piece)?,
        }
        Ok(piece.len())
    }
}

/// A folder in memory of this kind counts no fault, ever. So no count of its faults rises, and over it nothing fails.
pub fn sure_folder_has_no_fault()
    ensures none { CountsNoFault ⟦<SureFolder as Folder>⟧.state }
    ensures never { (before after : SureFolder)
        → Rose (⟦<SureFolder as Folder>⟧.state before).faults (⟦<SureFolder as Folder>⟧.state after).faults → ⊥ }
{}
