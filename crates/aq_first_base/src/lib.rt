//! Scripts, bound statements and catalogs of the first language, which the first machine runs.
#![tactic(auto)]

mod bound;
mod catalog;
mod simple;

pub use bound::Bound;
pub use catalog::{Column, Does, ForeignKey, Table, Trigger, UniqueKey};
pub use simple::{
    SimpleColumn, SimpleConstraint, SimplePlaced, SimpleScript, SimpleSession, SimpleStatement,
};
