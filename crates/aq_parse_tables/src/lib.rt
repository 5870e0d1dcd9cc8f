//! CREATE TABLE and ALTER TABLE, and when a constraint is checked, from their tokens.
#![tactic(auto)]

mod column_constraints;
mod columns;
mod references;
mod tables;
mod timings;

pub use tables::{alter_table, create_table};
pub use timings::timing;
