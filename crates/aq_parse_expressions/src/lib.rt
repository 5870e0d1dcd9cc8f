//! Expressions, from their tokens.
#![tactic(auto)]

mod atom;
mod expression;
mod operators;
mod whole;

pub use whole::whole_expression;
