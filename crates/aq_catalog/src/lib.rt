//! The catalog that the setup of a script makes, with its look-ups, and the calls that add to it and go back to a mark
//! (PostgreSQL manual, chapter "System Catalogs").
#![tactic(auto)]

mod access;
mod catalog;
mod changes;
mod lookups;
mod mark;
mod name_index;
mod next_number;
mod of_table;
mod of_tables;

pub use catalog::{Catalog, in_16_bits};
pub use lookups::{
    column_at, copied_cols, has_primary, is_column_in, is_taken, kind_at, number_of_column,
    number_of_table, numbers_of_columns, primary_cols,
};
pub use mark::Mark;
pub use next_number::with_number;
