//! What a CREATE TABLE or an ALTER TABLE adds to a catalog: the table, its constraints with their names, keys, foreign keys and
//! their triggers (PostgreSQL manual, pages CREATE TABLE and ALTER TABLE).
#![tactic(auto)]

mod constraints;
mod declared;
mod name_set;
mod parents;
mod referring;
mod set_columns;
mod steps;
mod taken;
mod twice;

pub use constraints::{NamedConstraint, named, of_items, push_of_item, settle_default_name};
pub use declared::{declared_columns, declared_table};
pub use parents::parent_cols;
pub use referring::{Referring, foreign_keys_of, push_referring};
pub use steps::{add_constraint_key, add_keys, add_references};
pub use taken::NamesTaken;
pub use twice::columns_twice;
