//! CREATE TRIGGER and CREATE CONSTRAINT TRIGGER: their faults in the order in which they are tried, and the trigger that is made
//! (PostgreSQL manual, page CREATE TRIGGER).
#![tactic(auto, using(aq_refusals::proofs::Telling::first_stays, aq_refusals::proofs::Telling::memory_ran_out, aq_refusals::proofs::Telling::fault_is_told))]

mod old_new;
mod trigger_faults;
mod triggers;
mod wanted;

pub use trigger_faults::native_named;
pub use triggers::create_trigger;
pub use wanted::{Wanted, constraint_trigger, plain_trigger};
