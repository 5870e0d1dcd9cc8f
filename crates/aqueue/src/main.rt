//! `aqueue` runs a script of sessions over tables in memory: `aqueue replay` reads it from standard input, and writes the replies, the tables
//! and the schedule of its steps to standard output. `aqueue check` writes the script in canonical form.
#![tactic(auto)]

mod check;
mod fault;
mod program;
mod replay;
mod setup;
mod task;

use crate::program::aqueue;
use aq_base::{List, NoMemory, TextVal};
use aq_causes::{StdSink, StdSource};
use std::process::ExitCode;
use std::rt::Env;
use std::{env, io};

#[cfg(test)]
mod cases;
#[cfg(test)]
mod examples;
#[cfg(test)]
mod tests;

// The words after the program's name. Words that are no text are no list that is built, as no words are.
fn words<R: Env + AllocGlobal>(rt: &R) -> Result<List<TextVal>, NoMemory> {
    let mut words = List::new(rt.alloc());
    match env::args(rt) {
        Ok(args) => {
            for word in args.skip(1) {
                words.push(TextVal::from_string(word))?;
            }
        }
        Err(fault) => {
            if fault.kind() == io::ErrorKind::OutOfMemory {
                return Err(NoMemory);
            }
        }
    }
    Ok(words)
}

fn main(rt: HostRuntime) -> ExitCode {
    let status = match words(&rt) {
        Err(NoMemory) => 6,
        Ok(words) => aqueue(
            rt.alloc(),
            &words,
            &mut StdSource::new(rt.stdin()),
            &mut StdSink::new(rt.stdout()),
        ),
    };
    ExitCode::from(status)
}
