//! A script of the forms that the machine runs today.

use aq_base::{Decl, Item, Kind, List, Row, TextVal};

/// A constraint that stands behind a column, of the forms that the machine runs today
/// (PostgreSQL manual, page CREATE TABLE).
#[derive(Drop)]
pub enum SimpleConstraint {
    /// `PRIMARY KEY`
    PrimaryKey,
    /// `REFERENCES table`: the column refers to that table's primary key.
    References { table: TextVal, decl: Decl },
}

/// One item of a CREATE TABLE of the forms that the machine runs today: a column with its constraint.
#[derive(Drop)]
pub struct SimpleColumn {
    pub name: TextVal,
    pub kind: Kind,
    pub constraint: Option<SimpleConstraint>,
}

/// A statement as it was read, of the forms that the machine runs today. Names are folded to lower case.
#[derive(Drop)]
pub enum SimpleStatement {
    /// `CREATE TABLE table (item, item)`
    CreateTable {
        table: TextVal,
        items: List<SimpleColumn>,
    },
    /// `INSERT INTO table VALUES (value, value), (value, value)`
    Insert {
        table: TextVal,
        rows: List<Row>,
    },
    /// `DELETE FROM table`
    Delete {
        table: TextVal,
    },
    /// `BEGIN`
    Begin,
    /// `COMMIT`
    Commit,
    /// `ROLLBACK`
    Rollback,
}

/// A statement of the forms that the machine runs today, with the line on which it begins, counted from 1.
#[derive(Drop)]
pub struct SimplePlaced {
    pub line: u64,
    pub statement: SimpleStatement,
}

/// A session of statements of the forms that the machine runs today: its name and its statements in order.
#[derive(Drop)]
pub struct SimpleSession {
    pub name: TextVal,
    pub statements: List<SimplePlaced>,
}

/// A script of the forms that the machine runs today. The schedule is `None` where the script has no
/// schedule section.
#[derive(Drop)]
pub struct SimpleScript {
    pub setup: List<SimplePlaced>,
    pub sessions: List<SimpleSession>,
    pub schedule: Option<List<Item>>,
}
