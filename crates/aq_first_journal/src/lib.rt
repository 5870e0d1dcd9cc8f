//! A machine with the schedule that it has run, and the text of a run.
#![tactic(auto)]

mod shared;
mod tables;
mod text;

pub use aq_print::Runs;
pub use shared::Shared;
