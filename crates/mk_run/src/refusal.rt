ghost use Rattle.std.specs.Prelude.{◌≡◌, IsSome, IfOk};
ghost use Rattle.mk_project.specs.declared.fault.InputFault.{InputFault};
ghost use Rattle.mk_run.specs.Asked.{IsOfProject};
ghost use Rattle.mk_run.specs.Stages.{IsRunRefusal, book_with};

use crate::fault::RunFault;
use crate::lines::{Line, PROGRAM, stop_line};
use crate::status::Status;
use mk_project::input_line;
use mk_solve::RunBook;
use mk_words::Task;
use std::alloc::{AllocError, Global};

/// How a run ends that is refused, and the line that it says.
#[derive(Debug, Drop)]
pub(crate) struct Refused {
    pub(crate) status: Status,
    pub(crate) line: Line,
}

/// The status and the line for why a run has no answer. A line with what the book keeps in it needs memory.
pub(crate) fn refusal(
    alloc: Global,
    task: &Task,
    book: &RunBook,
    fault: RunFault,
) -> Result<Refused, AllocError>
    requires stopped { fault ≡ RunFault.Stopped → IsSome book.now.stop }
    requires input { (input : InputFault) → fault ≡ RunFault.Input input → IsOfProject task.now }
    ensures { IfOk result (IsRunRefusal task.now book.now fault) }
{
    match fault {
        RunFault::Memory => Ok(Refused {
            status: Status::Memory,
            line: Line::Memory,
        }),
        RunFault::Failed => Ok(Refused {
            status: Status::Folder,
            line: Line::Folder,
        }),
        RunFault::Input(fault) => match task {
            Task::Project(name) => Ok(Refused {
                status: Status::Input,
                line: Line::Made(input_line(alloc, PROGRAM, name.text(), fault)?),
            }),
            Task::Model(_) => unreachable!(),
        },
        RunFault::Stopped => match book.stop() {
            Some(stop) => Ok(Refused {
                status: Status::of_stop(stop),
                line: Line::Made(stop_line(alloc, stop)?),
            }),
            None => unreachable!(),
        },
    }
}

/// Keeps a fault of the input.
pub(crate) fn keep_fault(book: &mut RunBook, fault: RunFault)
    ensures { book.new ≡ book_with book.old fault }
{
    if let RunFault::Input(fault) = fault {
        book.refuse(fault);
    }
}
