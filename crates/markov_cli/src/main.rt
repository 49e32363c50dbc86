//! The command `markov`.
#![tactic(auto)]

use mk_run::{OpenGate, RealFolder, RunBook, Status, markov_top, run_alone, wants_one};
use std::alloc::AllocGlobal;
use std::io::{Eprint, Print};
use std::process::ExitCode;
use std::rt::Files;
use std::sync::Wait;
use std::thread::Threads;
use std::{env, io};

/// The status where the system refuses to tell the words.
const NO_WORDS: u8 = 9;

/// Runs `markov` on the words of the command line, over real files. The exit status is that of the run; it is 6 too
/// where the words find no memory, and 9 where the system refuses to tell them.
fn main(rt: HostRuntime) -> ExitCode {
    match words_of(&rt) {
        Ok(words) => ExitCode::from(run(&rt, &words)),
        Err(code) => ExitCode::from(code),
    }
}

/// Runs `markov` by one worker where the words ask for one or are not in the language, and else by several.
fn run<R: AllocGlobal + Files + Print + Eprint + Threads + Wait + Sync>(
    rt: &R,
    words: &[String],
) -> u8 {
    let Ok(alone) = wants_one(rt.alloc(), words) else {
        return Status::Memory.code();
    };
    let mut folder = RealFolder::new(rt.alloc(), rt);
    let mut book = RunBook::new(rt.alloc());
    let status = if alone {
        run_alone(rt.alloc(), words, &mut folder, &mut book)
    } else {
        markov_top(rt, rt.alloc(), words, &mut folder, &OpenGate, &mut book)
    };
    status.code()
}

/// The words behind the program's name. One that is no text makes the command line faulty, as no words do.
fn words_of(rt: &HostRuntime) -> Result<Vec<String>, u8> {
    match env::args(rt) {
        Ok(words) => words
            .skip(1)
            .collect(rt.alloc())
            .map_err(|_| Status::Memory.code()),
        Err(error) => match error.kind() {
            io::ErrorKind::OutOfMemory => Err(Status::Memory.code()),
            io::ErrorKind::InvalidData => Ok(Vec::new(rt.alloc())),
            _ => Err(NO_WORDS),
        },
    }
}
