//! What a setup makes, what a statement says once its names are numbers, and the faults of both in their
//! order. This crate has definitions alone, in `specs/`.
#![tactic(auto)]
