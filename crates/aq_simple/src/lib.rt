//! Scripts of the whole grammar as the scripts that the machine runs.
#![tactic(auto)]

mod conditions;
mod data;
mod fault;
mod forms;
mod lines;
mod names;
mod runs;
mod table;

pub use fault::SimpleFault;
pub use runs::{no_line_leaves, one_simple_script, simple_script};
