//! The step machine over plain lists in memory: a script and the state of its run.
#![tactic(auto)]

mod catalog;
mod checks;
mod keys;
mod machine;
mod replies;
mod rounds;
mod rows;
mod session;
mod start;
mod step;
mod view;
mod world;
mod writes;

pub use aq_xids::SessNo;
pub use machine::Machine;
pub use replies::Given;
