use aq_base::{List, Row, TabNo};

/// A session's statement with numbers in place of names.
#[derive(Drop)]
pub enum Bound {
    /// INSERT with the rows of its VALUES.
    InsertRows { table: TabNo, rows: List<Row> },
    /// DELETE of all rows.
    DeleteRows { table: TabNo },
    BeginBlock,
    CommitBlock,
    RollbackBlock,
}
