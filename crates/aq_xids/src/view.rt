//! What a transaction reads with.

/// A subtransaction's number, from 1. 0 is nobody's, and stands where there is no transaction.
#[derive(Clone, Copy, PartialEq, Eq)]
pub struct SubNo(pub u64);

/// The number of the last commit that is seen.
#[derive(Clone, Copy)]
pub struct Snapshot(pub u64);

/// The commits up to a snapshot, and what one's own transaction has done.
#[derive(Clone, Copy)]
pub struct View {
    pub snap: Snapshot,
    pub own: SubNo,
}

/// A running subtransaction, with the snapshot of its transaction in Repeatable Read.
#[derive(Clone, Copy)]
pub struct Tx {
    pub own: SubNo,
    pub fixed: Option<Snapshot>,
}
