//! Sessions and sets of them, the subtransactions of their transactions, and what a view sees.
#![tactic(auto)]

mod fate;
mod kept;
mod marks;
mod sets;
mod view;
mod xids;

pub use sets::SESSIONS;
pub use view::{Snapshot, SubNo, Tx, View};
pub use xids::Xids;

/// A session's number in script order, from 0.
#[derive(Clone, Copy, PartialEq, Eq, PartialOrd, Ord, Hash)]
pub struct SessNo(pub u8);

/// A set of sessions: bit n stands for session n.
#[derive(Clone, Copy, PartialEq, Eq)]
pub struct SessSet(pub u16);
