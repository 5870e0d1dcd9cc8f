//! When the events of each constraint fire, as a transaction has set it, with returns to what was saved
//! (PostgreSQL manual, page SET CONSTRAINTS).
#![tactic(auto)]

mod log;
mod modes;

pub use modes::{ModeMark, Modes};
