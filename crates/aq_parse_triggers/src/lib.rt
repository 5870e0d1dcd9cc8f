//! What a trigger watches, its transition tables and for each what it fires, from their tokens.
#![tactic(auto)]

mod events;
mod firing;
mod transitions;
mod watching;

pub use firing::{fires_for, for_each_row};
pub use transitions::referencing;
pub use watching::{Watch, watched};
