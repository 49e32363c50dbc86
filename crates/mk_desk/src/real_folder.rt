//! A folder over real files and the two standard streams.

ghost use Rattle.std.specs.Prelude.{◌≡◌, None, false, IfSome, length};

use crate::faults::Faults;
use crate::folder::{Channel, DeskFault, Folder, Found};
use crate::part_file::{PartFile, is_absent};
use std::alloc::Global;
use std::fs;
use std::io::{Eprint, Print, Read};
use std::rt::Files;

/// Real files, by their paths, and the two standard streams. It doesn't tell what they hold.
///
/// A file that is being made stands beside its place from its first write on, under its name with `.part` behind it or with
/// `.part2`, `.part3` and so on up to `.part100`, where a file has such a name already; that one is left as it is. At the end
/// its bytes are synced, and it takes its name. It has the permissions of the file that it takes the place of.
#[derive(Drop)]
pub struct RealFolder<'a, R: Files> {
    alloc: Global,
    rt: &'a R,
    reading: Option<R::File>,
    found: Option<Found>,
    given: u64,
    making: Option<PartFile<R>>,
    faults: Faults,
}

impl<'a, R: Files + Print + Eprint> RealFolder<'a, R> {
    /// A folder over the files and streams that the runtime reaches. No file is being made, and nothing has failed.
    pub fn new(alloc: Global, rt: &'a R) -> RealFolder<'a, R>
        ensures { ⟦<RealFolder<'a, R> as Folder>⟧.state result
            ≡ record { making = false; found = None; given = 0; faults = 0 } }
    {
        RealFolder {
            alloc,
            rt,
            reading: None,
            found: None,
            given: 0,
            making: None,
            faults: Faults::new(),
        }
    }
}

impl<R: Files + Print + Eprint> Folder for RealFolder<'_, R> {
    ghost use Rattle.std.specs.Prelude.{None, is_some};

    ghost told = { λ _. None };

    ghost state = { λ folder. record {
      making = is_some folder.making;
      found = folder.found;
      given = folder.given;
      faults = folder.faults.count;
    } };

    fn is_making(&self) -> bool {
        self.making.is_some()
    }

    fn start_read(&mut self, name: &str) -> Result<Found, DeskFault> {
        self.reading = None;
        self.found = None;
        self.given = 0;
        match fs::open(self.rt, name) {
            Ok(file) => {
                self.reading = Some(file);
                self.found = Some(Found::Here);
                Ok(Found::Here)
            }
            Err(error) if is_absent(error.kind()) => {
                self.found = Some(Found::Absent);
                Ok(Found::Absent)
            }
            Err(_) => Err(self.faults.rise()),
        }
    }

    fn read(&mut self, into: &mut [u8]) -> Result<usize, DeskFault> {
        let Some(file) = self.reading.as_mut() else {
            return Err(self.faults.rise());
        };
        match file.read(into) {
            Ok(count) => {
                self.given = self.given.saturating_add(count as u64);
                Ok(count)
            }
            Err(_) => Err(self.faults.rise()),
        }
    }

    fn start_write(&mut self, name: &str) -> Result<(), DeskFault> {
        let name = String::from_str(self.alloc, name)?;
        self.making = Some(PartFile::new(name));
        Ok(())
    }

    fn write(&mut self, piece: &[u8]) -> Result<usize, DeskFault> {
        let Some(file) = self.making.as_mut() else {
            return Err(self.faults.rise());
        };
        match file.write(self.alloc, self.rt, piece)? {
            Some(count) => Ok(count),
            None => Err(self.faults.rise()),
        }
    }

    fn end_write(&mut self) -> Result<(), DeskFault> {
        let Some(file) = self.making.take() else {
            return Err(self.faults.rise());
        };
        if file.finish(self.alloc, self.rt)? {
            Ok(())
        } else {
            Err(self.faults.rise())
        }
    }

    fn say(&mut self, channel: Channel, piece: &[u8]) -> Result<usize, DeskFault> {
        let said = match channel {
            Channel::Out => self.rt.write_some(piece).ok(),
            Channel::Err => say_error(self.rt, piece),
        };
        match said {
            Some(count) if count > 0 => Ok(count),
            _ => Err(self.faults.rise()),
        }
    }
}

// Says the whole piece on standard error, which takes text alone. None where it was refused.
fn say_error<R: Eprint>(rt: &R, piece: &[u8]) -> Option<usize>
    ensures { IfSome result (λ count. count ≡ length piece.now) }
{
    let text = str::from_utf8(piece).ok()?;
    rt.eprint(text).ok()?;
    Some(piece.len())
}
