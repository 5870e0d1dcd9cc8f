//! What has become of a subtransaction.

/// What a subtransaction has done is, now.
#[derive(Clone, Copy)]
pub enum Fate {
    /// part of what this running subtransaction has done, which may be itself
    Held(u64),
    /// undone
    Void,
    /// committed, with this number
    Committed(u64),
}
