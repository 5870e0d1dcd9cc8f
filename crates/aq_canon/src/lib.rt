//! The canonical text of a script is read as the same script, and the line of a schedule as that schedule.
#![tactic(auto)]

mod laws;

pub use laws::{one_script_a_text, one_text_a_script, reads_back, schedule_reads_back};
