//! Who waits for whom, and the cycle that a wait would close.
#![tactic(auto)]

mod cycle;
mod layers;

pub use cycle::{Cycle, would_close};
