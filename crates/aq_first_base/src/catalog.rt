use aq_base::{ColNo, Decl, FkNo, Kind, List, Op, TabNo, TextVal};

/// A column: its name and the kind of its values.
#[derive(Drop)]
pub struct Column {
    pub name: TextVal,
    pub kind: Kind,
}

/// A table: its name, its columns in order, and those that hold no null.
#[derive(Drop)]
pub struct Table {
    pub name: TextVal,
    pub cols: List<Column>,
    pub not_null: List<ColNo>,
}

/// A unique key: no two rows of the table agree on these columns (PostgreSQL manual, page CREATE TABLE, PRIMARY KEY).
#[derive(Drop)]
pub struct UniqueKey {
    pub name: TextVal,
    pub table: TabNo,
    pub cols: List<ColNo>,
}

/// A foreign key: each row of the child table has a row of the parent table with the same key
/// (PostgreSQL manual, page CREATE TABLE, REFERENCES).
#[derive(Drop)]
pub struct ForeignKey {
    pub name: TextVal,
    pub child: TabNo,
    pub child_cols: List<ColNo>,
    pub parent: TabNo,
    pub parent_cols: List<ColNo>,
}

/// What a trigger does when its event fires (PostgreSQL source, ri_triggers.c).
#[derive(Clone, Copy, PartialEq, Eq)]
pub enum Does {
    /// Looks for the parent of the child row.
    Check(FkNo),
    /// Looks whether a child row still refers to the parent row that went.
    Parent(FkNo),
}

/// A trigger: its table, the changes that queue its events, when they fire, and what an event does.
#[derive(Drop)]
pub struct Trigger {
    pub table: TabNo,
    pub ops: List<Op>,
    pub decl: Decl,
    pub does: Does,
}
