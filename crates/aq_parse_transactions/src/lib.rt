//! Statements on transaction blocks and savepoints, and SET CONSTRAINTS, from their tokens.
#![tactic(auto)]

mod modes;
mod transactions;

pub use modes::set_constraints;
pub use transactions::{
    abort, begin, commit, end, release, rollback, savepoint, start_transaction,
};
