//! Scripts, from their bytes.
#![tactic(auto)]

mod fault;
mod items;
mod laws;
mod reading;
mod script;
mod section;
mod sessions;

pub use fault::ScriptFault;
pub use laws::{never_both, one_reading, one_refusal};
pub use reading::read_script;
