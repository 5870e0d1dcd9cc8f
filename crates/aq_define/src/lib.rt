//! The catalog that the setup of a script makes, statement by statement, or the first fault (PostgreSQL manual, chapter "Data
//! Definition").
#![tactic(auto, using(aq_refusals::proofs::Telling::first_stays, aq_refusals::proofs::Telling::memory_ran_out, aq_refusals::proofs::Telling::fault_is_told, crate::proofs::Behind::behind_itself, aq_additions::proofs::Extending::extends_itself))]

mod building;
mod setup;

pub use building::{BuildFault, build};
pub use setup::Define;
