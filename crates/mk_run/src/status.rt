ghost use Rattle.std.specs.Prelude.{◌≡◌};
ghost use Rattle.mk_run.specs.Statuses.{code_of, status_of};

use mk_solve::BookStop;

/// How a run ended. The number is the program's exit status.
#[derive(Clone, Copy, Debug, PartialEq, Eq)]
pub enum Status {
    /// The answer was written whole.
    Done = 0,
    /// The words are not in the language.
    Usage = 1,
    /// The input has a fault, which the book keeps.
    Input = 2,
    /// A file or stream failed.
    Folder = 3,
    /// A number left its range.
    Overflow = 4,
    /// The budget of pairs was used.
    Budget = 5,
    /// Memory ran out.
    Memory = 6,
    /// A basis was full.
    Full = 7,
}

impl Status {
    /// The exit status of the program.
    pub fn code(self) -> u8
        ensures { result ≡ code_of self }
    {
        self as u8
    }

    /// How a run ends that stopped.
    pub(crate) fn of_stop(stop: &BookStop) -> Status
        ensures { result ≡ status_of stop.now }
    {
        match stop {
            BookStop::Overflow { .. } => Status::Overflow,
            BookStop::Budget { .. } => Status::Budget,
            BookStop::BasisFull { .. } => Status::Full,
        }
    }
}
