//! Who holds which row in which mode.
#![tactic(auto)]

mod locks;
mod log;
mod modes;
mod rows;

pub use locks::{Asked, LockMark, Locks};
