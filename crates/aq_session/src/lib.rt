//! What the state of a session's transaction block lets a statement do.
#![tactic(auto)]

mod block;
mod table;

pub use block::{Block, Judge, StmtKind};
pub use table::judge;
