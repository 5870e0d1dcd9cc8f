//! The texts that are printed: the canonical text of a script, tokens and the blanks between them.
//! This crate has definitions alone, in `specs/`.
#![tactic(auto)]
