//! The statements of a script.

use crate::copies::Copies;
use crate::data::{Delete, Insert, Select, Update};
use crate::modes::SetConstraints;
use crate::same::Same;
use crate::table::{AlterTable, CreateTable};
use crate::text::TextVal;
use crate::trigger::{CreateConstraintTrigger, CreateFunction, CreateTrigger};
use std::alloc::AllocError;

/// What a transaction sees (PostgreSQL manual, section "Transaction Isolation").
#[derive(Clone, Copy, PartialEq, Eq)]
pub enum Isolation {
    /// Each statement sees what was committed before it. READ UNCOMMITTED is the same.
    ReadCommitted,
    /// Each statement sees what was committed before the first one.
    RepeatableRead,
}

/// A statement as it was read. Names that were not quoted are folded to lower case. Two spellings
/// of one meaning, as END for COMMIT, are one tree.
#[derive(Drop)]
pub enum Statement {
    CreateTable(CreateTable),
    AlterTable(AlterTable),
    CreateFunction(CreateFunction),
    CreateTrigger(CreateTrigger),
    CreateConstraintTrigger(CreateConstraintTrigger),
    Insert(Insert),
    Update(Update),
    Delete(Delete),
    Select(Select),
    SetConstraints(SetConstraints),
    /// `BEGIN ISOLATION LEVEL isolation`
    Begin(Isolation),
    /// `START TRANSACTION ISOLATION LEVEL isolation`
    StartTransaction(Isolation),
    /// `COMMIT`
    Commit,
    /// `ROLLBACK`
    Rollback,
    /// `SAVEPOINT name`
    Savepoint(TextVal),
    /// `RELEASE SAVEPOINT name`
    Release(TextVal),
    /// `ROLLBACK TO SAVEPOINT name`
    RollbackTo(TextVal),
}

impl Copies for Statement {
    fn copy(&self) -> Result<Self, AllocError> {
        match self {
            Statement::CreateTable(create) => Ok(Statement::CreateTable(create.copy()?)),
            Statement::AlterTable(alter) => Ok(Statement::AlterTable(alter.copy()?)),
            Statement::CreateFunction(create) => Ok(Statement::CreateFunction(create.copy()?)),
            Statement::CreateTrigger(create) => Ok(Statement::CreateTrigger(create.copy()?)),
            Statement::CreateConstraintTrigger(create) => Ok(Statement::CreateConstraintTrigger(
                create.copy()?,
            )),
            Statement::Insert(insert) => Ok(Statement::Insert(insert.copy()?)),
            Statement::Update(update) => Ok(Statement::Update(update.copy()?)),
            Statement::Delete(delete) => Ok(Statement::Delete(delete.copy()?)),
            Statement::Select(select) => Ok(Statement::Select(select.copy()?)),
            Statement::SetConstraints(set) => Ok(Statement::SetConstraints(set.copy()?)),
            Statement::Begin(isolation) => Ok(Statement::Begin(*isolation)),
            Statement::StartTransaction(isolation) => Ok(Statement::StartTransaction(*isolation)),
            Statement::Commit => Ok(Statement::Commit),
            Statement::Rollback => Ok(Statement::Rollback),
            Statement::Savepoint(name) => Ok(Statement::Savepoint(name.copy()?)),
            Statement::Release(name) => Ok(Statement::Release(name.copy()?)),
            Statement::RollbackTo(name) => Ok(Statement::RollbackTo(name.copy()?)),
        }
    }
}

impl Same for Statement {
    fn same(&self, other: &Self) -> bool {
        match (self, other) {
            (Statement::CreateTable(a), Statement::CreateTable(b)) => a.same(b),
            (Statement::AlterTable(a), Statement::AlterTable(b)) => a.same(b),
            (Statement::CreateFunction(a), Statement::CreateFunction(b)) => a.same(b),
            (Statement::CreateTrigger(a), Statement::CreateTrigger(b)) => a.same(b),
            (Statement::CreateConstraintTrigger(a), Statement::CreateConstraintTrigger(b)) =>
                a.same(b),
            (Statement::Insert(a), Statement::Insert(b)) => a.same(b),
            (Statement::Update(a), Statement::Update(b)) => a.same(b),
            (Statement::Delete(a), Statement::Delete(b)) => a.same(b),
            (Statement::Select(a), Statement::Select(b)) => a.same(b),
            (Statement::SetConstraints(a), Statement::SetConstraints(b)) => a.same(b),
            (Statement::Begin(a), Statement::Begin(b)) => *a == *b,
            (Statement::StartTransaction(a), Statement::StartTransaction(b)) => *a == *b,
            (Statement::Commit, Statement::Commit) => true,
            (Statement::Rollback, Statement::Rollback) => true,
            (Statement::Savepoint(a), Statement::Savepoint(b)) => a.same(b),
            (Statement::Release(a), Statement::Release(b)) => a.same(b),
            (Statement::RollbackTo(a), Statement::RollbackTo(b)) => a.same(b),
            _ => false,
        }
    }
}
