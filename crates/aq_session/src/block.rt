use aq_base::Code;

/// The state of a session's transaction block (PostgreSQL source, xact.c, TBlockState).
#[derive(Clone, Copy)]
pub enum Block {
    /// No block: each statement commits by itself.
    Idle,
    Open,
    /// A statement of the block was refused, and the block waits for its end.
    Failed,
}

/// A statement, as far as the state of the block asks. START TRANSACTION is a `Begin`.
#[derive(Clone, Copy)]
pub enum StmtKind {
    Begin,
    Commit,
    Rollback,
    Savepoint,
    Release,
    RollbackTo,
    SetConstraints,
    Insert,
    Update,
    Delete,
    Select,
}

/// What comes of a statement before its names are looked up.
#[derive(Clone, Copy)]
pub enum Judge {
    Run,
    /// The statement has nothing to do but to warn.
    Warn(Code),
    Refuse(Code),
}
