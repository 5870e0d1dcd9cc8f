//! The query levels of a transaction, each with the list of the events that were queued at it (PostgreSQL source,
//! trigger.c, AfterTriggersQueryData).
#![tactic(auto)]

mod levels;

pub use levels::{LevelFault, Levels};
