use crate::catalog::Op;
use crate::numbers::{RowNo, TabNo, WriteNo};
use crate::value::Row;

/// A change of a row: its number, and the row's version before and behind it.
#[derive(Drop)]
pub struct Change {
    pub table: TabNo,
    pub row: RowNo,
    pub write: WriteNo,
    pub op: Op,
    pub old: Option<Row>,
    pub new: Option<Row>,
}
