//! A folder of files with two channels: all that a run reaches outside itself.

ghost use Rattle.std.specs.Prelude.{◌≡◌, ◌<◌, ◌≤◌, ℕ, true, false, length, IfOk, IsErrOf, Result, is_ok};
ghost use Rattle.std.specs.Result.{result_ok};
ghost use Rattle.mk_desk.specs.Folders.{State, HasCause, CountsNoFault, Rose};
ghost use Rattle.mk_desk.specs.declared.folder.Found.TheVariants.{Here};

use thiserror::Error;

/// Why a folder refused a call.
#[derive(Clone, Copy, Debug, PartialEq, Eq, Error)]
pub enum DeskFault {
    #[error("out of memory")]
    Memory,
    #[error("a file or stream failed")]
    Failed,
}

/// Whether a file is there.
#[derive(Clone, Copy, Debug, PartialEq, Eq)]
pub enum Found {
    Here,
    Absent,
}

/// Where a run says what it has to say: standard output or standard error.
#[derive(Clone, Copy, Debug, PartialEq, Eq)]
pub enum Channel {
    Out,
    Err,
}

/// Files that are read and made one at a time, and two channels.
///
/// A folder may tell what it holds, as one in memory does; what is said of its files, of the file being read or made and
/// of the channels holds where it tells. Whether it tells never changes. After either fault what is said of a refusal holds.
pub trait Folder {
    ghost use Rattle.std.specs.Prelude.{Option, List};
    ghost use Rattle.mk_desk.specs.Folders.{Desk, State, HasCause, OnlyFaultsRose, WhereTold, StartsReading, Reads, StartsWriting, Writes, EndsWriting, Says, given_after};

    /// What it holds, where it tells.
    ghost told: { Self → Option Desk };

    /// Whether a file is being made, what the last `start_read` answered, how many bytes were given since, and the faults.
    ghost state: { Self → State };

    /// Whether a file is being made.
    fn is_making(&self) -> bool
        ensures { result ≡ (state self.now).making };

    /// Begins to read a file, and ends a reading that went on.
    fn start_read(&mut self, name: &str) -> Result<Found, DeskFault>
        ensures state { state self.new ≡ record (state self.old) { found = result_ok result; given = 0; faults = (state self.new).faults } }
        ensures cause { HasCause DeskFault.Failed (state self.old) (state self.new) result }
        ensures told { WhereTold (told self.old) (told self.new) (StartsReading name.now result) };

    /// Reads the next bytes into the front of `into`, and tells how many: 0 at the file's end.
    fn read(&mut self, into: &mut [u8]) -> Result<usize, DeskFault>
        requires here { (state self.old).found ≡ Some Here }
        requires room { 0 < length into.old }
        ensures within { IfOk result (λ n. n ≤ length into.old) }
        ensures state { state self.new
            ≡ record (state self.old) { given = given_after (state self.old).given result; faults = (state self.new).faults } }
        ensures cause { HasCause DeskFault.Failed (state self.old) (state self.new) result }
        ensures told { WhereTold (told self.old) (told self.new) (Reads into.new result) };

    /// Begins to make a file. It is empty, and not yet among the files.
    fn start_write(&mut self, name: &str) -> Result<(), DeskFault>
        requires { (state self.old).making ≡ false }
        ensures state { state self.new ≡ record (state self.old) { making = is_ok result; faults = (state self.new).faults } }
        ensures cause { HasCause DeskFault.Failed (state self.old) (state self.new) result }
        ensures told { WhereTold (told self.old) (told self.new) (StartsWriting name.now result) };

    /// Appends a front of the piece to the file being made, and tells its length.
    fn write(&mut self, piece: &[u8]) -> Result<usize, DeskFault>
        requires making { (state self.old).making ≡ true }
        requires some { 0 < length piece.now }
        ensures within { IfOk result (λ n. (0 < n) × (n ≤ length piece.now)) }
        ensures state { OnlyFaultsRose (state self.old) (state self.new) }
        ensures cause { HasCause DeskFault.Failed (state self.old) (state self.new) result }
        ensures told { WhereTold (told self.old) (told self.new) (Writes piece.now result) };

    /// Puts the file that was made among the files, in the place of an older one of its name. It is no longer being made.
    fn end_write(&mut self) -> Result<(), DeskFault>
        requires { (state self.old).making ≡ true }
        ensures state { state self.new ≡ record (state self.old) { making = false; faults = (state self.new).faults } }
        ensures cause { HasCause DeskFault.Failed (state self.old) (state self.new) result }
        ensures told { WhereTold (told self.old) (told self.new) (EndsWriting result) };

    /// Says a front of the piece on a channel, and tells its length.
    fn say(&mut self, channel: Channel, piece: &[u8]) -> Result<usize, DeskFault>
        requires { 0 < length piece.now }
        ensures within { IfOk result (λ n. (0 < n) × (n ≤ length piece.now)) }
        ensures state { OnlyFaultsRose (state self.old) (state self.new) }
        ensures cause { HasCause DeskFault.Failed (state self.old) (state self.new) result }
        ensures told { WhereTold (told self.old) (told self.new) (Says channel piece.now result) };
}

/// Over a folder whose count of faults is 0 always, no call fails: each failure is answered only where the count rose, and no
/// count rises to 0. The answer's value is a number here, and may be any.
pub fn no_fault_rose_to_none<F: Folder>()
    ensures rose { (before after : State) → after.faults ≡ 0 → Rose before.faults after.faults → ⊥ }
    ensures never { CountsNoFault F.state → (before after : F) → (result : Result ℕ DeskFault)
        → HasCause DeskFault.Failed (F.state before) (F.state after) result → IsErrOf result DeskFault.Failed → ⊥ }
{}
