//! What the lines of a trace tell, said of lines and rows alone: which of a transaction's lines survive, which databases were committed, and
//! which events had to fire. This crate has definitions alone, in `specs/`.
#![tactic(auto)]
