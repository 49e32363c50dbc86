//! How many faults a folder had.

ghost use Rattle.std.specs.Prelude.{◌≡◌, ◌≤◌};
ghost use Rattle.mk_desk.specs.Folders.{Rose};
ghost use Rattle.mk_desk.specs.declared.folder.DeskFault.TheVariants.{Memory, Failed};

use crate::folder::DeskFault;
use std::alloc::AllocError;

/// A count of faults, which stands still at its last value.
#[derive(Drop)]
pub(crate) struct Faults {
    pub(crate) count: u64,
}

impl Faults {
    pub(crate) fn new() -> Faults
        ensures { result.count ≡ 0 }
    {
        Faults { count: 0 }
    }

    /// Counts one fault more, and gives it.
    pub(crate) fn rise(&mut self) -> DeskFault
        ensures fault { result ≡ Failed }
        ensures later { self.old.count ≤ self.new.count }
        ensures rose { Rose self.old.count self.new.count }
    {
        self.count = self.count.saturating_add(1);
        DeskFault::Failed
    }
}

impl From<AllocError> for DeskFault {
    ghost from_gives = { λ _ fault. fault ≡ Memory };

    fn from(_error: AllocError) -> DeskFault {
        DeskFault::Memory
    }
}
