//! Statements bound with a catalog: the faults of their names, lengths and kinds, and what they say once their names are numbers
//! (PostgreSQL source, analyze.c).
#![tactic(auto, using(aq_refusals::proofs::Telling::first_stays, aq_refusals::proofs::Telling::memory_ran_out, aq_refusals::proofs::Telling::fault_is_told, aq_refusals::proofs::Loops::fault_at, aq_refusals::proofs::Loops::mapped_fault_at))]

mod binding;
mod bodies;
mod kinds;
mod lengths;
mod names;
mod refused_bodies;
mod scopes;
mod statements;

pub use binding::{bound_condition, bound_table};
pub use bodies::bound_body;
pub use kinds::{constant_kind, same_kind};
pub use names::{columns_known, is_in, table_faults};
pub use refused_bodies::body_faults;
pub use scopes::{Scope, Setting, in_session, no_row};
pub use statements::{Bind, condition_faults};
