//! The run of a script: the state, the effects of a step, the plan of each kind of step, schedules.
//! This crate has definitions alone, in `specs/`.
#![tactic(auto)]
