//! When constraints fire, as a statement sets it (PostgreSQL manual, page SET CONSTRAINTS).

use crate::copies::Copies;
use crate::list::List;
use crate::same::Same;
use crate::text::TextVal;
use std::alloc::AllocError;

/// Whether the events of a constraint wait for the commit.
#[derive(Clone, Copy, PartialEq, Eq)]
pub enum ConstraintMode {
    Deferred,
    Immediate,
}

/// The constraints that a SET CONSTRAINTS speaks of.
#[derive(Drop)]
pub enum Constraints {
    /// `ALL`
    All,
    Named(List<TextVal>),
}

/// `SET CONSTRAINTS constraints mode`
#[derive(Drop)]
pub struct SetConstraints {
    pub constraints: Constraints,
    pub mode: ConstraintMode,
}

impl Copies for Constraints {
    fn copy(&self) -> Result<Self, AllocError> {
        match self {
            Constraints::All => Ok(Constraints::All),
            Constraints::Named(names) => Ok(Constraints::Named(names.copy()?)),
        }
    }
}

impl Same for Constraints {
    fn same(&self, other: &Self) -> bool {
        match (self, other) {
            (Constraints::All, Constraints::All) => true,
            (Constraints::Named(names), Constraints::Named(other_names)) => names.same(other_names),
            _ => false,
        }
    }
}

impl Copies for SetConstraints {
    fn copy(&self) -> Result<Self, AllocError> {
        Ok(SetConstraints {
            constraints: self.constraints.copy()?,
            mode: self.mode,
        })
    }
}

impl Same for SetConstraints {
    fn same(&self, other: &Self) -> bool {
        self.constraints.same(&other.constraints) && self.mode == other.mode
    }
}
