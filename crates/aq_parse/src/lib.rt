//! Statements, from their tokens.
#![tactic(auto)]

mod bodies;
mod conditions;
mod delete;
mod functions;
mod insert;
mod laws;
mod parsing;
mod rows;
mod select;
mod statements;
mod triggers;
mod update;

pub use laws::{one_refusal, one_statement};
pub use parsing::{ParseFault, Parsed, parse};
pub use statements::{Place, statement};
