use crate::bound_expr::BoundExpr;
use crate::data::LockMode;
use crate::list::List;
use crate::numbers::{ColNo, TabNo};

/// What a column gets: a value, or its default.
#[derive(Drop)]
pub enum BoundGiven {
    Value(BoundExpr),
    Default,
}

/// Whose rows a query reads: those of a table, or of a transition table of the trigger whose body it stands in
/// (PostgreSQL manual, page CREATE TRIGGER, REFERENCING).
#[derive(Clone, Copy, PartialEq, Eq)]
pub enum BoundFrom {
    Table(TabNo),
    OldTable,
    NewTable,
}

/// Where the rows of an INSERT come from.
#[derive(Drop)]
pub enum BoundSource {
    Values(List<List<BoundGiven>>),
    Query {
        values: List<BoundExpr>,
        rows: BoundFrom,
        condition: Option<BoundExpr>,
    },
}

/// INSERT. No columns stand for the first ones of the table.
#[derive(Drop)]
pub struct BoundInsert {
    pub table: TabNo,
    pub columns: Option<List<ColNo>>,
    pub source: BoundSource,
}

/// `column = value`
#[derive(Drop)]
pub struct BoundAssignment {
    pub column: ColNo,
    pub value: BoundGiven,
}

/// UPDATE
#[derive(Drop)]
pub struct BoundUpdate {
    pub table: TabNo,
    pub assignments: List<BoundAssignment>,
    pub condition: Option<BoundExpr>,
}

/// DELETE
#[derive(Drop)]
pub struct BoundDelete {
    pub table: TabNo,
    pub condition: Option<BoundExpr>,
}

/// The columns that a query shows.
#[derive(Drop)]
pub enum BoundColumns {
    All,
    Named(List<ColNo>),
}

/// SELECT
#[derive(Drop)]
pub struct BoundSelect {
    pub columns: BoundColumns,
    pub table: TabNo,
    pub condition: Option<BoundExpr>,
    pub lock: Option<LockMode>,
}
