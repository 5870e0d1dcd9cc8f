//! The values that the words give, by `clap`.

use crate::command::Command;
use aq_base::{NoMemory, TextVal};
use clap::{Arg, ArgAction, value_parser};
use std::alloc::Global;

fn trace<'a>(alloc: Global) -> Arg<'a> {
    Arg::new(alloc, "trace")
        .long("trace")
        .action(ArgAction::SetTrue)
}

fn rows<'a>(alloc: Global) -> Arg<'a> {
    Arg::new(alloc, "rows")
        .long("rows")
        .required(true)
        .value_parser(value_parser!(u16).range(1..2001))
}

fn subcommand<'a>(alloc: Global, name: &'a str) -> clap::Command<'a> {
    clap::Command::new(alloc, name).disable_help_flag(true)
}

fn commands<'a>(alloc: Global) -> Result<clap::Command<'a>, NoMemory> {
    clap::Command::new(alloc, "aqueue")
        .no_binary_name(true)
        .disable_help_flag(true)
        .disable_help_subcommand(true)
        .subcommand_required(true)
        .subcommand(subcommand(alloc, "run").arg(trace(alloc))?)?
        .subcommand(subcommand(alloc, "replay").arg(trace(alloc))?)?
        .subcommand(subcommand(alloc, "check"))?
        .subcommand(subcommand(alloc, "drill").arg(rows(alloc))?)
}

/// The command that `clap` reads. The error is want of memory, and words that it refuses.
pub(crate) fn parsed<'a>(alloc: Global, words: &'a [TextVal]) -> Result<Command, NoMemory> {
    let matches = commands(alloc)?
        .try_get_matches_from(words)
        .map_err(|_| NoMemory)?;
    match matches.subcommand() {
        Some(("run", given)) => Ok(Command::Run {
            trace: given.get_flag("trace"),
        }),
        Some(("replay", given)) => Ok(Command::Replay {
            trace: given.get_flag("trace"),
        }),
        Some(("check", _)) => Ok(Command::Check),
        Some(("drill", given)) => Ok(Command::Drill {
            rows: given.get_one::<u16>("rows").ok_or(NoMemory)?,
        }),
        _ => Err(NoMemory),
    }
}
