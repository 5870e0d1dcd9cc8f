//! What is printed: scripts and their statements, rows, replies, schedules and the lines of a trace.
#![tactic(auto)]

mod bodies;
mod changes;
mod expressions;
mod lists;
mod names;
mod numbers;
mod printer;
mod replies;
mod rows;
mod schedule;
mod script;
mod statements;
mod tables;
mod traces;
mod triggers;

pub use names::push_name;
pub use replies::{print_reply, push_reply};
pub use rows::{print_row, push_row};
pub use schedule::{Named, Runs, print_schedule, push_schedule};
pub use script::print_script;
pub use statements::print_statement;
pub use traces::print_trace;
