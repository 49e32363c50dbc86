use mk_desk::DeskFault;
use mk_input::ReadFault;
use mk_project::InputFault;
use mk_solve::RunStop;

/// Why a run has no answer: `Stopped` where the book has a stop.
#[derive(Clone, Copy, Debug, PartialEq, Eq)]
pub(crate) enum RunFault {
    Memory,
    Failed,
    Input(InputFault),
    Stopped,
}

impl From<ReadFault> for RunFault {
    ghost use Rattle.std.specs.Prelude.{◌≡◌};
    ghost use Rattle.mk_run.specs.Stages.{read_refused};

    ghost from_gives = { λ fault e. e ≡ read_refused fault };

    fn from(fault: ReadFault) -> RunFault {
        match fault {
            ReadFault::Memory => RunFault::Memory,
            ReadFault::Failed => RunFault::Failed,
            ReadFault::Input(fault) => RunFault::Input(fault),
        }
    }
}

impl From<RunStop> for RunFault {
    ghost use Rattle.std.specs.Prelude.{◌≡◌};
    ghost use Rattle.mk_run.specs.Stages.{stop_refused};

    ghost from_gives = { λ stop e. e ≡ stop_refused stop };

    fn from(stop: RunStop) -> RunFault {
        match stop {
            RunStop::Memory => RunFault::Memory,
            RunStop::Stopped => RunFault::Stopped,
        }
    }
}

impl From<DeskFault> for RunFault {
    ghost use Rattle.std.specs.Prelude.{◌≡◌};
    ghost use Rattle.mk_run.specs.Stages.{write_refused};

    ghost from_gives = { λ fault e. e ≡ write_refused fault };

    fn from(fault: DeskFault) -> RunFault {
        match fault {
            DeskFault::Memory => RunFault::Memory,
            DeskFault::Failed => RunFault::Failed,
        }
    }
}
