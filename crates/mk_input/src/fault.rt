ghost use Rattle.std.specs.Prelude.{◌≡◌};
ghost use Rattle.mk_input.specs.Readings.{load_refused, table_refused};

use mk_desk::LoadFault;
use mk_files::TableFault;
use mk_grading::GradeFault;
use mk_project::{InputFault, InputFile};
use std::alloc::AllocError;

/// Why a project isn't read.
#[derive(Clone, Copy, Debug, PartialEq, Eq)]
pub enum ReadFault {
    /// There is no memory left.
    Memory,
    /// The folder failed.
    Failed,
    /// What is wrong with the files.
    Input(InputFault),
}

impl From<AllocError> for ReadFault {
    ghost use Rattle.std.specs.Prelude.{◌≡◌};
    ghost use Rattle.mk_input.specs.declared.fault.ReadFault.TheVariants.{Memory};

    ghost from_gives = { λ _ e. e ≡ Memory };

    fn from(_e: AllocError) -> ReadFault {
        ReadFault::Memory
    }
}

impl From<GradeFault> for ReadFault {
    ghost use Rattle.std.specs.Prelude.{◌≡◌};
    ghost use Rattle.mk_input.specs.Readings.{choice_refused};

    ghost from_gives = { λ fault e. e ≡ choice_refused fault };

    fn from(fault: GradeFault) -> ReadFault {
        match fault {
            GradeFault::Memory => ReadFault::Memory,
            _ => ReadFault::Input(InputFault::Grade(fault)),
        }
    }
}

impl ReadFault {
    /// Why a file that is to be loaded gives no table.
    pub(crate) fn of_load(file: InputFile, fault: LoadFault) -> ReadFault
        ensures { result ≡ load_refused file fault }
    {
        match fault {
            LoadFault::Memory => ReadFault::Memory,
            LoadFault::Failed => ReadFault::Failed,
            LoadFault::FileSize { read } => ReadFault::Input(InputFault::FileSize { file, read }),
        }
    }

    /// Why the bytes of a file give no table.
    pub(crate) fn of_table(file: InputFile, fault: TableFault) -> ReadFault
        ensures { result ≡ table_refused file fault }
    {
        match fault {
            TableFault::Memory => ReadFault::Memory,
            _ => ReadFault::Input(InputFault::Table { file, fault }),
        }
    }
}
