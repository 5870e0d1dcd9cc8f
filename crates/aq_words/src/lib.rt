//! The words of the command line.
#![tactic(auto)]

mod command;
mod listed;
mod parsed;

pub use command::{Command, command_of};
