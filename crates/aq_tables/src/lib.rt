//! The faults of CREATE TABLE and ALTER TABLE (PostgreSQL manual, pages CREATE TABLE and ALTER TABLE).
#![tactic(auto, using(aq_refusals::proofs::Telling::first_stays, aq_refusals::proofs::Telling::memory_ran_out, aq_refusals::proofs::Telling::fault_is_told, aq_refusals::proofs::Loops::fault_at, aq_refusals::proofs::Loops::mapped_fault_at, aq_refusals::proofs::Loops::first_mapped))]

mod added;
mod references;
mod tables;

pub use added::{
    constraints_exist, listed_twice, long_names, missing_columns, missing_parents,
    reference_faults, reference_limit, second_primary,
};
pub use tables::{column_limit, defaults_fit, items_twice, table_exists, table_limit};
