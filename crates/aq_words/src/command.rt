ghost use Rattle.std.specs.Prelude.{◌≡◌, IfOk};
ghost use Rattle.aq_words.specs.Commands as commands;

use crate::listed::listed;
use crate::parsed::parsed;
use aq_base::{List, NoMemory, TextVal};
use std::alloc::Global;

/// What the words after the program's name ask for.
#[derive(Clone, Copy, PartialEq, Eq)]
pub enum Command {
    /// `run`, `run --trace`: a thread for each session.
    Run { trace: bool },
    /// `replay`, `replay --trace`: the schedule, on one thread.
    Replay { trace: bool },
    /// `check`: the script in canonical form.
    Check,
    /// `drill --rows N`, `drill --rows=N`: a load of `rows` rows, from 1 to 2000.
    Drill { rows: u16 },
}

/// What the words ask for, or `None` where they are none of the lists that the commands have: another order, an option
/// that is repeated or shortened, and a number with a sign or a leading zero are none. The error is want of memory.
pub fn command_of(alloc: Global, words: &List<TextVal>) -> Result<Option<Command>, NoMemory>
    ensures { IfOk result (λ found. found ≡ commands.command_of words.now) }
{
    match listed(words.as_slice()) {
        None => Ok(None),
        Some(wanted) => {
            let given = parsed(alloc, words.as_slice())?;
            // The lists are decided above, so no other command is given.
            if given == wanted {
                Ok(Some(given))
            } else {
                Err(NoMemory)
            }
        }
    }
}
