//! The state of a run, its steps, runs over a schedule, and the text of a run.
//! This crate has definitions alone, in `specs/`.
#![tactic(auto)]
