//! Functions and their triggers (PostgreSQL manual, pages CREATE FUNCTION and CREATE TRIGGER).

use crate::body::Body;
use crate::catalog::Decl;
use crate::copies::Copies;
use crate::expr::Expr;
use crate::list::List;
use crate::same::Same;
use crate::text::TextVal;
use std::alloc::AllocError;

/// A change that fires a trigger.
#[derive(Drop)]
pub enum TriggerEvent {
    Insert,
    Delete,
    /// `UPDATE OF column, column`
    Update { columns: Option<List<TextVal>> },
}

/// Which rows a transition table holds.
#[derive(Clone, Copy, PartialEq, Eq)]
pub enum Transition {
    Old,
    New,
}

/// `OLD TABLE AS name` or `NEW TABLE AS name`
#[derive(Drop)]
pub struct TransitionTable {
    pub transition: Transition,
    pub name: TextVal,
}

/// Whether a trigger fires once for each row or once for a statement.
#[derive(Clone, Copy, PartialEq, Eq)]
pub enum Each {
    Row,
    Statement,
}

/// `CREATE FUNCTION name() RETURNS trigger LANGUAGE plpgsql AS $$ body $$`
#[derive(Drop)]
pub struct CreateFunction {
    pub name: TextVal,
    pub body: Body,
}

/// `CREATE TRIGGER name AFTER event OR event ON table REFERENCING transitions FOR EACH each
/// WHEN (condition) EXECUTE FUNCTION function()`. A REFERENCING with nothing after it is there.
#[derive(Drop)]
pub struct CreateTrigger {
    pub name: TextVal,
    pub events: List<TriggerEvent>,
    pub table: TextVal,
    pub transitions: Option<List<TransitionTable>>,
    pub each: Each,
    pub condition: Option<Expr>,
    pub function: TextVal,
}

/// `CREATE CONSTRAINT TRIGGER name AFTER event OR event ON table timing FOR EACH ROW
/// WHEN (condition) EXECUTE FUNCTION function()`
#[derive(Drop)]
pub struct CreateConstraintTrigger {
    pub name: TextVal,
    pub events: List<TriggerEvent>,
    pub table: TextVal,
    pub timing: Decl,
    pub condition: Option<Expr>,
    pub function: TextVal,
}

impl Copies for TriggerEvent {
    fn copy(&self) -> Result<Self, AllocError> {
        match self {
            TriggerEvent::Insert => Ok(TriggerEvent::Insert),
            TriggerEvent::Delete => Ok(TriggerEvent::Delete),
            TriggerEvent::Update { columns } => Ok(TriggerEvent::Update {
                columns: columns.copy()?,
            }),
        }
    }
}

impl Same for TriggerEvent {
    fn same(&self, other: &Self) -> bool {
        match (self, other) {
            (TriggerEvent::Insert, TriggerEvent::Insert) => true,
            (TriggerEvent::Delete, TriggerEvent::Delete) => true,
            (
                TriggerEvent::Update { columns },
                TriggerEvent::Update {
                    columns: other_columns,
                },
            ) => columns.same(other_columns),
            _ => false,
        }
    }
}

impl Copies for TransitionTable {
    fn copy(&self) -> Result<Self, AllocError> {
        Ok(TransitionTable {
            transition: self.transition,
            name: self.name.copy()?,
        })
    }
}

impl Same for TransitionTable {
    fn same(&self, other: &Self) -> bool {
        self.transition == other.transition && self.name.same(&other.name)
    }
}

impl Copies for CreateFunction {
    fn copy(&self) -> Result<Self, AllocError> {
        Ok(CreateFunction {
            name: self.name.copy()?,
            body: self.body.copy()?,
        })
    }
}

impl Same for CreateFunction {
    fn same(&self, other: &Self) -> bool {
        self.name.same(&other.name) && self.body.same(&other.body)
    }
}

impl Copies for CreateTrigger {
    fn copy(&self) -> Result<Self, AllocError> {
        Ok(CreateTrigger {
            name: self.name.copy()?,
            events: self.events.copy()?,
            table: self.table.copy()?,
            transitions: self.transitions.copy()?,
            each: self.each,
            condition: self.condition.copy()?,
            function: self.function.copy()?,
        })
    }
}

impl Same for CreateTrigger {
    fn same(&self, other: &Self) -> bool {
        self.name.same(&other.name)
            && self.events.same(&other.events)
            && self.table.same(&other.table)
            && self.transitions.same(&other.transitions)
            && self.each == other.each
            && self.condition.same(&other.condition)
            && self.function.same(&other.function)
    }
}

impl Copies for CreateConstraintTrigger {
    fn copy(&self) -> Result<Self, AllocError> {
        Ok(CreateConstraintTrigger {
            name: self.name.copy()?,
            events: self.events.copy()?,
            table: self.table.copy()?,
            timing: self.timing,
            condition: self.condition.copy()?,
            function: self.function.copy()?,
        })
    }
}

impl Same for CreateConstraintTrigger {
    fn same(&self, other: &Self) -> bool {
        self.name.same(&other.name)
            && self.events.same(&other.events)
            && self.table.same(&other.table)
            && self.timing == other.timing
            && self.condition.same(&other.condition)
            && self.function.same(&other.function)
    }
}
