//! Statements over the rows of a table (PostgreSQL manual, pages INSERT, UPDATE, DELETE and SELECT).

use crate::copies::Copies;
use crate::expr::Expr;
use crate::list::List;
use crate::same::Same;
use crate::text::TextVal;
use std::alloc::AllocError;

/// What a column is given.
#[derive(Drop)]
pub enum Given {
    Value(Expr),
    /// `DEFAULT`: the column's default.
    Default,
}

/// Where the rows of an INSERT come from.
#[derive(Drop)]
pub enum Source {
    /// `VALUES (value, value), (value, value)`
    Values(List<List<Given>>),
    /// `SELECT value, value FROM table WHERE condition`
    Query {
        values: List<Expr>,
        table: TextVal,
        condition: Option<Expr>,
    },
}

/// `INSERT INTO table (column, column) source`
#[derive(Drop)]
pub struct Insert {
    pub table: TextVal,
    pub columns: Option<List<TextVal>>,
    pub source: Source,
}

/// `column = value` of an UPDATE.
#[derive(Drop)]
pub struct Assignment {
    pub column: TextVal,
    pub value: Given,
}

/// `UPDATE table SET assignment, assignment WHERE condition`
#[derive(Drop)]
pub struct Update {
    pub table: TextVal,
    pub assignments: List<Assignment>,
    pub condition: Option<Expr>,
}

/// `DELETE FROM table WHERE condition`
#[derive(Drop)]
pub struct Delete {
    pub table: TextVal,
    pub condition: Option<Expr>,
}

/// The columns that a SELECT shows.
#[derive(Drop)]
pub enum Columns {
    /// `*`
    All,
    Named(List<TextVal>),
}

/// How a SELECT locks its rows (PostgreSQL manual, section "Row-Level Locks").
#[derive(Clone, Copy, PartialEq, Eq)]
pub enum LockMode {
    Update,
    NoKeyUpdate,
    Share,
    KeyShare,
}

/// `SELECT columns FROM table WHERE condition FOR lock`
#[derive(Drop)]
pub struct Select {
    pub columns: Columns,
    pub table: TextVal,
    pub condition: Option<Expr>,
    pub lock: Option<LockMode>,
}

impl Copies for Given {
    fn copy(&self) -> Result<Self, AllocError> {
        match self {
            Given::Value(value) => Ok(Given::Value(value.copy()?)),
            Given::Default => Ok(Given::Default),
        }
    }
}

impl Same for Given {
    fn same(&self, other: &Self) -> bool {
        match (self, other) {
            (Given::Value(value), Given::Value(other_value)) => value.same(other_value),
            (Given::Default, Given::Default) => true,
            _ => false,
        }
    }
}

impl Copies for Source {
    fn copy(&self) -> Result<Self, AllocError> {
        match self {
            Source::Values(rows) => Ok(Source::Values(rows.copy()?)),
            Source::Query {
                values,
                table,
                condition,
            } => Ok(Source::Query {
                values: values.copy()?,
                table: table.copy()?,
                condition: condition.copy()?,
            }),
        }
    }
}

impl Same for Source {
    fn same(&self, other: &Self) -> bool {
        match (self, other) {
            (Source::Values(rows), Source::Values(other_rows)) => rows.same(other_rows),
            (
                Source::Query {
                    values,
                    table,
                    condition,
                },
                Source::Query {
                    values: other_values,
                    table: other_table,
                    condition: other_condition,
                },
            ) => {
                values.same(other_values)
                    && table.same(other_table)
                    && condition.same(other_condition)
            }
            _ => false,
        }
    }
}

impl Copies for Insert {
    fn copy(&self) -> Result<Self, AllocError> {
        Ok(Insert {
            table: self.table.copy()?,
            columns: self.columns.copy()?,
            source: self.source.copy()?,
        })
    }
}

impl Same for Insert {
    fn same(&self, other: &Self) -> bool {
        self.table.same(&other.table)
            && self.columns.same(&other.columns)
            && self.source.same(&other.source)
    }
}

impl Copies for Assignment {
    fn copy(&self) -> Result<Self, AllocError> {
        Ok(Assignment {
            column: self.column.copy()?,
            value: self.value.copy()?,
        })
    }
}

impl Same for Assignment {
    fn same(&self, other: &Self) -> bool {
        self.column.same(&other.column) && self.value.same(&other.value)
    }
}

impl Copies for Update {
    fn copy(&self) -> Result<Self, AllocError> {
        Ok(Update {
            table: self.table.copy()?,
            assignments: self.assignments.copy()?,
            condition: self.condition.copy()?,
        })
    }
}

impl Same for Update {
    fn same(&self, other: &Self) -> bool {
        self.table.same(&other.table)
            && self.assignments.same(&other.assignments)
            && self.condition.same(&other.condition)
    }
}

impl Copies for Delete {
    fn copy(&self) -> Result<Self, AllocError> {
        Ok(Delete {
            table: self.table.copy()?,
            condition: self.condition.copy()?,
        })
    }
}

impl Same for Delete {
    fn same(&self, other: &Self) -> bool {
        self.table.same(&other.table) && self.condition.same(&other.condition)
    }
}

impl Copies for Columns {
    fn copy(&self) -> Result<Self, AllocError> {
        match self {
            Columns::All => Ok(Columns::All),
            Columns::Named(names) => Ok(Columns::Named(names.copy()?)),
        }
    }
}

impl Same for Columns {
    fn same(&self, other: &Self) -> bool {
        match (self, other) {
            (Columns::All, Columns::All) => true,
            (Columns::Named(names), Columns::Named(other_names)) => names.same(other_names),
            _ => false,
        }
    }
}

impl Same for LockMode {
    fn same(&self, other: &Self) -> bool {
        *self == *other
    }
}

impl Copies for Select {
    fn copy(&self) -> Result<Self, AllocError> {
        Ok(Select {
            columns: self.columns.copy()?,
            table: self.table.copy()?,
            condition: self.condition.copy()?,
            lock: self.lock,
        })
    }
}

impl Same for Select {
    fn same(&self, other: &Self) -> bool {
        self.columns.same(&other.columns)
            && self.table.same(&other.table)
            && self.condition.same(&other.condition)
            && self.lock.same(&other.lock)
    }
}
