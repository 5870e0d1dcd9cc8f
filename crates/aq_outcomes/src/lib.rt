//! What one piece of a step does: a row's change and its events, a check and an action of a foreign key, the rows of a statement.
//! This crate has definitions alone, in `specs/`.
#![tactic(auto)]
