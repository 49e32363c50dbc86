//! The one line on the error channel for each refusal that isn't of the input.

ghost use Rattle.std.specs.Prelude.{◌≡◌, IfOk, string_bytes};
ghost use Rattle.mk_run.specs.Lines.{stop_line, text_of_line};

use mk_project::{budget_line, overflow_line};
use mk_solve::BookStop;
use std::alloc::{AllocError, Global};

/// The program's name, with which its lines begin.
pub(crate) const PROGRAM: &str = "markov";

/// The line for words that are no command.
pub(crate) const USAGE: &str =
    "usage: markov [--workers N] [--budget N] [--upto W] PROJECT or markov [--workers N] [--budget N] [--upto W] --model RxC[xD]\n";

/// The line for a folder that failed.
const FOLDER: &str = "markov: a file or stream failed\n";

/// The line for want of memory.
pub(crate) const MEMORY: &str = "markov: out of memory\n";

/// The line for a basis of the most moves that needs another.
const FULL: &str = "markov: basis holds 65536 moves and needs another\n";

/// A line: one that takes no memory, or one that was made.
#[derive(Debug, Drop)]
pub(crate) enum Line {
    Folder,
    Memory,
    Made(String),
}

impl Line {
    /// Its text.
    pub(crate) fn as_str(&self) -> &str
        ensures { result.now ≡ text_of_line self.now }
    {
        match self {
            Line::Folder => FOLDER,
            Line::Memory => MEMORY,
            Line::Made(line) => line.as_str(),
        }
    }
}

/// The line for why a run stopped.
pub fn stop_line(alloc: Global, stop: &BookStop) -> Result<String, AllocError>
    ensures { IfOk result (λ line. string_bytes line ≡ stop_line stop.now) }
{
    match stop {
        BookStop::Overflow { stop, .. } => overflow_line(alloc, PROGRAM, stop.at),
        BookStop::Budget { settled } => budget_line(alloc, PROGRAM, *settled),
        BookStop::BasisFull { .. } => String::from_str(alloc, FULL),
    }
}
