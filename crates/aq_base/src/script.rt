use crate::copies::Copies;
use crate::list::List;
use crate::same::Same;
use crate::statement::Statement;
use crate::text::TextVal;
use std::alloc::AllocError;

/// What kind of value a column keeps (PostgreSQL manual, chapter "Data Types").
#[derive(Clone, Copy, Debug, PartialEq, Eq)]
pub enum Kind {
    /// A whole number of 32 bits.
    Integer,
    /// A whole number of 64 bits.
    Bigint,
    Boolean,
    Text,
}

/// One item of a schedule: that many steps of the session.
#[derive(Drop)]
pub struct Item {
    pub name: TextVal,
    pub count: u64,
}

/// A statement with the line on which it begins, counted from 1.
#[derive(Drop)]
pub struct Placed {
    pub line: u64,
    pub statement: Statement,
}

/// A session: its name and its statements in order.
#[derive(Drop)]
pub struct SessionText {
    pub name: TextVal,
    pub statements: List<Placed>,
}

/// A whole script of the whole grammar. The schedule is `None` where the script has no schedule section.
#[derive(Drop)]
pub struct Script {
    pub setup: List<Placed>,
    pub sessions: List<SessionText>,
    pub schedule: Option<List<Item>>,
}

impl Copies for Item {
    fn copy(&self) -> Result<Self, AllocError> {
        Ok(Item {
            name: self.name.copy()?,
            count: self.count,
        })
    }
}

impl Same for Item {
    fn same(&self, other: &Self) -> bool {
        self.name.same(&other.name) && self.count == other.count
    }
}

impl Copies for Placed {
    fn copy(&self) -> Result<Self, AllocError> {
        Ok(Placed {
            line: self.line,
            statement: self.statement.copy()?,
        })
    }
}

impl Same for Placed {
    fn same(&self, other: &Self) -> bool {
        self.line == other.line && self.statement.same(&other.statement)
    }
}

impl Copies for SessionText {
    fn copy(&self) -> Result<Self, AllocError> {
        Ok(SessionText {
            name: self.name.copy()?,
            statements: self.statements.copy()?,
        })
    }
}

impl Same for SessionText {
    fn same(&self, other: &Self) -> bool {
        self.name.same(&other.name) && self.statements.same(&other.statements)
    }
}

impl Copies for Script {
    fn copy(&self) -> Result<Self, AllocError> {
        Ok(Script {
            setup: self.setup.copy()?,
            sessions: self.sessions.copy()?,
            schedule: self.schedule.copy()?,
        })
    }
}

impl Same for Script {
    fn same(&self, other: &Self) -> bool {
        self.setup.same(&other.setup)
            && self.sessions.same(&other.sessions)
            && self.schedule.same(&other.schedule)
    }
}
