//! The events of a transaction, as lists with the firing that took each (PostgreSQL source, trigger.c,
//! AfterTriggerEventList).
#![tactic(auto)]

mod entries;
mod event;
mod list;

pub use entries::{Entry, Fate};
pub use event::Event;
pub use list::EventList;
