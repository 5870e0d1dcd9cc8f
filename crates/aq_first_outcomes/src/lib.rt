//! What one piece of a step comes to: a row change, the events that it queues, a check.
//! This crate has definitions alone, in `specs/`.
#![tactic(auto)]
