//! Tables and what is added to them (PostgreSQL manual, pages CREATE TABLE and ALTER TABLE).

use crate::constraint::{ColumnConstraint, TableConstraint};
use crate::copies::Copies;
use crate::list::List;
use crate::same::Same;
use crate::script::Kind;
use crate::text::TextVal;
use std::alloc::AllocError;

/// One item of a CREATE TABLE.
#[derive(Drop)]
pub enum TableItem {
    /// `name kind constraint constraint`
    Column {
        name: TextVal,
        kind: Kind,
        constraints: List<ColumnConstraint>,
    },
    Constraint(TableConstraint),
}

/// `CREATE TABLE table (item, item)`
#[derive(Drop)]
pub struct CreateTable {
    pub table: TextVal,
    pub items: List<TableItem>,
}

/// `ALTER TABLE table ADD constraint`
#[derive(Drop)]
pub struct AlterTable {
    pub table: TextVal,
    pub constraint: TableConstraint,
}

impl Copies for TableItem {
    fn copy(&self) -> Result<Self, AllocError> {
        match self {
            TableItem::Column {
                name,
                kind,
                constraints,
            } => Ok(TableItem::Column {
                name: name.copy()?,
                kind: *kind,
                constraints: constraints.copy()?,
            }),
            TableItem::Constraint(constraint) => Ok(TableItem::Constraint(constraint.copy()?)),
        }
    }
}

impl Same for TableItem {
    fn same(&self, other: &Self) -> bool {
        match (self, other) {
            (
                TableItem::Column {
                    name,
                    kind,
                    constraints,
                },
                TableItem::Column {
                    name: other_name,
                    kind: other_kind,
                    constraints: other_constraints,
                },
            ) => {
                name.same(other_name) && *kind == *other_kind && constraints.same(other_constraints)
            }
            (TableItem::Constraint(a), TableItem::Constraint(b)) => a.same(b),
            _ => false,
        }
    }
}

impl Copies for CreateTable {
    fn copy(&self) -> Result<Self, AllocError> {
        Ok(CreateTable {
            table: self.table.copy()?,
            items: self.items.copy()?,
        })
    }
}

impl Same for CreateTable {
    fn same(&self, other: &Self) -> bool {
        self.table.same(&other.table) && self.items.same(&other.items)
    }
}

impl Copies for AlterTable {
    fn copy(&self) -> Result<Self, AllocError> {
        Ok(AlterTable {
            table: self.table.copy()?,
            constraint: self.constraint.copy()?,
        })
    }
}

impl Same for AlterTable {
    fn same(&self, other: &Self) -> bool {
        self.table.same(&other.table) && self.constraint.same(&other.constraint)
    }
}
