//! Bodies of trigger functions (PostgreSQL manual, chapter "PL/pgSQL").

ghost use Rattle.std.specs.Prelude.{◌≡◌, IfOk};

use crate::copies::Copies;
use crate::data::{Delete, Insert, Update};
use crate::expr::Expr;
use crate::fault::Code;
use crate::list::List;
use crate::modes::SetConstraints;
use crate::same::Same;
use crate::text::TextVal;
use std::alloc::AllocError;

/// What a body returns. The result of an AFTER trigger is ignored.
#[derive(Clone, Copy, PartialEq, Eq)]
pub enum Returned {
    Null,
    New,
    Old,
}

/// What a handler of a block catches (PostgreSQL manual, appendix "PostgreSQL Error Codes").
#[derive(Clone, Copy, PartialEq, Eq)]
pub enum Condition {
    /// `OTHERS`: every error.
    Others,
    /// `SQLSTATE 'code'`: five digits and upper-case letters that do not end in `000`.
    SqlState(Code),
    /// 23505
    UniqueViolation,
    /// 23503
    ForeignKeyViolation,
    /// 23502
    NotNullViolation,
    /// P0001
    RaiseException,
    /// 40001
    SerializationFailure,
    /// 40P01
    DeadlockDetected,
}

/// A statement of a body.
#[cycle(body)]
#[derive(Drop)]
pub enum BodyStatement {
    /// `IF condition THEN then else_ifs ELSE otherwise END IF`. An ELSE with nothing after it is there.
    If {
        condition: Expr,
        then: List<BodyStatement>,
        else_ifs: List<ElseIf>,
        otherwise: Option<List<BodyStatement>>,
    },
    /// `RAISE EXCEPTION text`
    Raise(TextVal),
    /// `RETURN NULL`, `RETURN NEW` or `RETURN OLD`
    Return(Returned),
    Insert(Insert),
    Update(Update),
    Delete(Delete),
    SetConstraints(SetConstraints),
    /// `BEGIN statements EXCEPTION handlers END`. Without a handler there is no EXCEPTION.
    Block {
        statements: List<BodyStatement>,
        handlers: List<Handler>,
    },
}

/// `WHEN condition OR condition THEN statements`
#[cycle(body)]
#[derive(Drop)]
pub struct Handler {
    pub conditions: List<Condition>,
    pub statements: List<BodyStatement>,
}

/// `ELSIF condition THEN then`
#[cycle(body)]
#[derive(Drop)]
pub struct ElseIf {
    pub condition: Expr,
    pub then: List<BodyStatement>,
}

/// The body of a function: its outermost block. Without a handler there is no EXCEPTION.
#[derive(Drop)]
pub struct Body {
    pub statements: List<BodyStatement>,
    pub handlers: List<Handler>,
}

#[cycle(copies)]
fn copy_statements(statements: &List<BodyStatement>) -> Result<List<BodyStatement>, AllocError>
    ensures { IfOk result (λ made. made ≡ statements.now) }
{
    let mut made = List::new(*statements.allocator());
    for statement in statements.as_slice() {
        made.push(copy_statement(statement)?)?;
    }
    Ok(made)
}

#[cycle(copies)]
fn copy_else_if(else_if: &ElseIf) -> Result<ElseIf, AllocError>
    ensures { IfOk result (λ made. made ≡ else_if.now) }
{
    Ok(ElseIf {
        condition: else_if.condition.copy()?,
        then: copy_statements(&else_if.then)?,
    })
}

#[cycle(copies)]
fn copy_else_ifs(else_ifs: &List<ElseIf>) -> Result<List<ElseIf>, AllocError>
    ensures { IfOk result (λ made. made ≡ else_ifs.now) }
{
    let mut made = List::new(*else_ifs.allocator());
    for else_if in else_ifs.as_slice() {
        made.push(copy_else_if(else_if)?)?;
    }
    Ok(made)
}

#[cycle(copies)]
fn copy_handler(handler: &Handler) -> Result<Handler, AllocError>
    ensures { IfOk result (λ made. made ≡ handler.now) }
{
    Ok(Handler {
        conditions: handler.conditions.copy()?,
        statements: copy_statements(&handler.statements)?,
    })
}

#[cycle(copies)]
fn copy_handlers(handlers: &List<Handler>) -> Result<List<Handler>, AllocError>
    ensures { IfOk result (λ made. made ≡ handlers.now) }
{
    let mut made = List::new(*handlers.allocator());
    for handler in handlers.as_slice() {
        made.push(copy_handler(handler)?)?;
    }
    Ok(made)
}

#[cycle(copies)]
fn copy_statement(statement: &BodyStatement) -> Result<BodyStatement, AllocError>
    ensures { IfOk result (λ made. made ≡ statement.now) }
{
    match statement {
        BodyStatement::If {
            condition,
            then,
            else_ifs,
            otherwise,
        } => Ok(BodyStatement::If {
            condition: condition.copy()?,
            then: copy_statements(then)?,
            else_ifs: copy_else_ifs(else_ifs)?,
            otherwise: match otherwise {
                None => None,
                Some(statements) => Some(copy_statements(statements)?),
            },
        }),
        BodyStatement::Raise(text) => Ok(BodyStatement::Raise(text.copy()?)),
        BodyStatement::Return(returned) => Ok(BodyStatement::Return(*returned)),
        BodyStatement::Insert(insert) => Ok(BodyStatement::Insert(insert.copy()?)),
        BodyStatement::Update(update) => Ok(BodyStatement::Update(update.copy()?)),
        BodyStatement::Delete(delete) => Ok(BodyStatement::Delete(delete.copy()?)),
        BodyStatement::SetConstraints(set) => Ok(BodyStatement::SetConstraints(set.copy()?)),
        BodyStatement::Block {
            statements,
            handlers,
        } => Ok(BodyStatement::Block {
            statements: copy_statements(statements)?,
            handlers: copy_handlers(handlers)?,
        }),
    }
}

impl Copies for ElseIf {
    fn copy(&self) -> Result<Self, AllocError> {
        copy_else_if(self)
    }
}

impl Copies for Condition {
    fn copy(&self) -> Result<Self, AllocError> {
        Ok(*self)
    }
}

impl Copies for Handler {
    fn copy(&self) -> Result<Self, AllocError> {
        copy_handler(self)
    }
}

impl Copies for Body {
    fn copy(&self) -> Result<Self, AllocError> {
        Ok(Body {
            statements: copy_statements(&self.statements)?,
            handlers: copy_handlers(&self.handlers)?,
        })
    }
}

impl Copies for BodyStatement {
    fn copy(&self) -> Result<Self, AllocError> {
        copy_statement(self)
    }
}

impl Same for ElseIf {
    #[cycle(same)]
    fn same(&self, other: &Self) -> bool {
        self.condition.same(&other.condition) && self.then.same(&other.then)
    }
}

impl Same for Condition {
    fn same(&self, other: &Self) -> bool {
        *self == *other
    }
}

impl Same for Handler {
    #[cycle(same)]
    fn same(&self, other: &Self) -> bool {
        self.conditions.same(&other.conditions) && self.statements.same(&other.statements)
    }
}

impl Same for Body {
    fn same(&self, other: &Self) -> bool {
        self.statements.same(&other.statements) && self.handlers.same(&other.handlers)
    }
}

impl Same for BodyStatement {
    #[cycle(same)]
    fn same(&self, other: &Self) -> bool {
        match (self, other) {
            (
                BodyStatement::If {
                    condition,
                    then,
                    else_ifs,
                    otherwise,
                },
                BodyStatement::If {
                    condition: other_condition,
                    then: other_then,
                    else_ifs: other_else_ifs,
                    otherwise: other_otherwise,
                },
            ) => {
                condition.same(other_condition)
                    && then.same(other_then)
                    && else_ifs.same(other_else_ifs)
                    && otherwise.same(other_otherwise)
            }
            (BodyStatement::Raise(a), BodyStatement::Raise(b)) => a.same(b),
            (BodyStatement::Return(a), BodyStatement::Return(b)) => *a == *b,
            (BodyStatement::Insert(a), BodyStatement::Insert(b)) => a.same(b),
            (BodyStatement::Update(a), BodyStatement::Update(b)) => a.same(b),
            (BodyStatement::Delete(a), BodyStatement::Delete(b)) => a.same(b),
            (BodyStatement::SetConstraints(a), BodyStatement::SetConstraints(b)) => a.same(b),
            (
                BodyStatement::Block {
                    statements,
                    handlers,
                },
                BodyStatement::Block {
                    statements: other_statements,
                    handlers: other_handlers,
                },
            ) => statements.same(other_statements) && handlers.same(other_handlers),
            _ => false,
        }
    }
}
