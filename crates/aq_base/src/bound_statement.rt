use crate::bound_data::{BoundDelete, BoundInsert, BoundSelect, BoundUpdate};
use crate::list::List;
use crate::modes::ConstraintMode;
use crate::numbers::ConNo;
use crate::statement::Isolation;
use crate::text::TextVal;

/// Whose mode a SET CONSTRAINTS sets: ALL, or for each name the constraints that have it.
#[derive(Drop)]
pub enum BoundConstraints {
    All,
    Named(List<List<ConNo>>),
}

/// SET CONSTRAINTS of a session.
#[derive(Drop)]
pub struct BoundSet {
    pub constraints: BoundConstraints,
    pub mode: ConstraintMode,
}

/// A statement of a session, with numbers in place of the names of tables, columns and constraints.
#[derive(Drop)]
pub enum Bound {
    Insert(BoundInsert),
    Update(BoundUpdate),
    Delete(BoundDelete),
    Select(BoundSelect),
    SetConstraints(BoundSet),
    Begin(Isolation),
    StartTransaction(Isolation),
    Commit,
    Rollback,
    Savepoint(TextVal),
    Release(TextVal),
    RollbackTo(TextVal),
}
