//! Constraints of a table (PostgreSQL manual, pages CREATE TABLE and ALTER TABLE).

use crate::catalog::Decl;
use crate::copies::Copies;
use crate::list::List;
use crate::same::Same;
use crate::text::TextVal;
use crate::value::Value;
use std::alloc::AllocError;

/// Which nulls a foreign key of several columns allows.
#[derive(Clone, Copy, PartialEq, Eq)]
pub enum Match {
    /// A row with any null refers to nothing.
    Simple,
    /// All columns are null, or none is.
    Full,
}

/// What becomes of child rows when their parent row is deleted or its key changes.
#[derive(Clone, Copy, PartialEq, Eq)]
pub enum Action {
    NoAction,
    Restrict,
    Cascade,
    SetNull,
    SetDefault,
}

/// `table (column, column) MATCH matching ON DELETE on_delete (column, column) ON UPDATE on_update timing`
#[derive(Drop)]
pub struct Reference {
    pub table: TextVal,
    pub columns: Option<List<TextVal>>,
    pub matching: Match,
    pub on_delete: Action,
    /// The list of columns that may stand behind ON DELETE SET NULL and SET DEFAULT.
    pub set_columns: Option<List<TextVal>>,
    pub on_update: Action,
    pub timing: Decl,
}

/// A constraint or a default that stands behind a column.
#[derive(Drop)]
pub enum ColumnConstraint {
    /// `NOT NULL`
    NotNull,
    /// `DEFAULT value`
    Default(Value),
    /// `CONSTRAINT name PRIMARY KEY`
    PrimaryKey {
        name: Option<TextVal>,
    },
    /// `CONSTRAINT name UNIQUE`
    Unique {
        name: Option<TextVal>,
    },
    /// `CONSTRAINT name REFERENCES reference`
    References {
        name: Option<TextVal>,
        reference: Reference,
    },
}

/// A constraint that stands by itself.
#[derive(Drop)]
pub enum TableConstraint {
    /// `CONSTRAINT name PRIMARY KEY (column, column)`
    PrimaryKey {
        name: Option<TextVal>,
        columns: List<TextVal>,
    },
    /// `CONSTRAINT name UNIQUE (column, column)`
    Unique {
        name: Option<TextVal>,
        columns: List<TextVal>,
    },
    /// `CONSTRAINT name FOREIGN KEY (column, column) REFERENCES reference`
    ForeignKey {
        name: Option<TextVal>,
        columns: List<TextVal>,
        reference: Reference,
    },
}

impl Same for Match {
    fn same(&self, other: &Self) -> bool {
        *self == *other
    }
}

impl Same for Action {
    fn same(&self, other: &Self) -> bool {
        *self == *other
    }
}

impl Copies for Reference {
    fn copy(&self) -> Result<Self, AllocError> {
        Ok(Reference {
            table: self.table.copy()?,
            columns: self.columns.copy()?,
            matching: self.matching,
            on_delete: self.on_delete,
            set_columns: self.set_columns.copy()?,
            on_update: self.on_update,
            timing: self.timing,
        })
    }
}

impl Same for Reference {
    fn same(&self, other: &Self) -> bool {
        self.table.same(&other.table)
            && self.columns.same(&other.columns)
            && self.matching.same(&other.matching)
            && self.on_delete.same(&other.on_delete)
            && self.set_columns.same(&other.set_columns)
            && self.on_update.same(&other.on_update)
            && self.timing.same(&other.timing)
    }
}

impl Copies for ColumnConstraint {
    fn copy(&self) -> Result<Self, AllocError> {
        match self {
            ColumnConstraint::NotNull => Ok(ColumnConstraint::NotNull),
            ColumnConstraint::Default(value) => Ok(ColumnConstraint::Default(value.copy()?)),
            ColumnConstraint::PrimaryKey { name } => Ok(ColumnConstraint::PrimaryKey {
                name: name.copy()?,
            }),
            ColumnConstraint::Unique { name } => Ok(ColumnConstraint::Unique {
                name: name.copy()?,
            }),
            ColumnConstraint::References { name, reference } => Ok(ColumnConstraint::References {
                name: name.copy()?,
                reference: reference.copy()?,
            }),
        }
    }
}

impl Same for ColumnConstraint {
    fn same(&self, other: &Self) -> bool {
        match (self, other) {
            (ColumnConstraint::NotNull, ColumnConstraint::NotNull) => true,
            (ColumnConstraint::Default(a), ColumnConstraint::Default(b)) => a.same(b),
            (
                ColumnConstraint::PrimaryKey { name },
                ColumnConstraint::PrimaryKey { name: other_name },
            ) => name.same(other_name),
            (ColumnConstraint::Unique { name }, ColumnConstraint::Unique { name: other_name }) => {
                name.same(other_name)
            }
            (
                ColumnConstraint::References { name, reference },
                ColumnConstraint::References {
                    name: other_name,
                    reference: other_reference,
                },
            ) => name.same(other_name) && reference.same(other_reference),
            _ => false,
        }
    }
}

impl Copies for TableConstraint {
    fn copy(&self) -> Result<Self, AllocError> {
        match self {
            TableConstraint::PrimaryKey { name, columns } => Ok(TableConstraint::PrimaryKey {
                name: name.copy()?,
                columns: columns.copy()?,
            }),
            TableConstraint::Unique { name, columns } => Ok(TableConstraint::Unique {
                name: name.copy()?,
                columns: columns.copy()?,
            }),
            TableConstraint::ForeignKey {
                name,
                columns,
                reference,
            } => Ok(TableConstraint::ForeignKey {
                name: name.copy()?,
                columns: columns.copy()?,
                reference: reference.copy()?,
            }),
        }
    }
}

impl Same for TableConstraint {
    fn same(&self, other: &Self) -> bool {
        match (self, other) {
            (
                TableConstraint::PrimaryKey { name, columns },
                TableConstraint::PrimaryKey {
                    name: other_name,
                    columns: other_columns,
                },
            ) => name.same(other_name) && columns.same(other_columns),
            (
                TableConstraint::Unique { name, columns },
                TableConstraint::Unique {
                    name: other_name,
                    columns: other_columns,
                },
            ) => name.same(other_name) && columns.same(other_columns),
            (
                TableConstraint::ForeignKey {
                    name,
                    columns,
                    reference,
                },
                TableConstraint::ForeignKey {
                    name: other_name,
                    columns: other_columns,
                    reference: other_reference,
                },
            ) => {
                name.same(other_name)
                    && columns.same(other_columns)
                    && reference.same(other_reference)
            }
            _ => false,
        }
    }
}
