//! The bodies of trigger functions with numbers in place of names, through blocks and handlers.

ghost use Rattle.std.specs.Prelude.{◌≡◌, IfOk, map};
ghost use Rattle.aq_setup.specs.Bodies as bodies;
ghost use Rattle.aq_setup.specs.Binding as binding;
ghost use Rattle.aq_setup.specs.Scopes as scopes;

use crate::binding::{bound_delete, bound_expression, bound_insert, bound_update};
use crate::scopes::{Setting, no_row};
use aq_base::{
    Body, BodyStatement, BoundBody, BoundBodyStatement, BoundElseIf, BoundExpr, BoundHandler,
    Copies, ElseIf, Expr, Handler, List,
};
use std::alloc::{AllocError, Global};

/// The condition of IF or ELSIF.
fn bound_if(alloc: Global, setting: &Setting<'_>, e: &Expr) -> Result<BoundExpr, AllocError>
    ensures { IfOk result (λ made. made ≡ binding.bound_expression (scopes.no_row setting.now.changed) e.now) }
{
    bound_expression(alloc, &no_row(setting.changed), e)
}

#[cycle(bound_bodies)]
fn bound_statement(
    alloc: Global,
    setting: &Setting<'_>,
    s: &BodyStatement,
) -> Result<BoundBodyStatement, AllocError>
    ensures { IfOk result (λ made. made ≡ bodies.bound_body_statement setting.now s.now) }
{
    match s {
        BodyStatement::If {
            condition,
            then,
            else_ifs,
            otherwise,
        } => Ok(BoundBodyStatement::If {
            condition: bound_if(alloc, setting, condition)?,
            then: bound_statements(alloc, setting, then)?,
            else_ifs: bound_else_ifs(alloc, setting, else_ifs)?,
            otherwise: match otherwise {
                None => None,
                Some(last) => Some(bound_statements(alloc, setting, last)?),
            },
        }),
        BodyStatement::Raise(text) => Ok(BoundBodyStatement::Raise(text.copy()?)),
        BodyStatement::Return(returned) => Ok(BoundBodyStatement::Return(*returned)),
        BodyStatement::Insert(insert) => Ok(BoundBodyStatement::Insert(bound_insert(
            alloc, setting, insert,
        )?)),
        BodyStatement::Update(update) => Ok(BoundBodyStatement::Update(bound_update(
            alloc, setting, update,
        )?)),
        BodyStatement::Delete(delete) => Ok(BoundBodyStatement::Delete(bound_delete(
            alloc, setting, delete,
        )?)),
        BodyStatement::SetConstraints(set) => Ok(BoundBodyStatement::SetConstraints(set.copy()?)),
        BodyStatement::Block {
            statements,
            handlers,
        } => Ok(BoundBodyStatement::Block {
            statements: bound_statements(alloc, setting, statements)?,
            handlers: bound_handlers(alloc, setting, handlers)?,
        }),
    }
}

#[cycle(bound_bodies)]
fn bound_else_if(
    alloc: Global,
    setting: &Setting<'_>,
    else_if: &ElseIf,
) -> Result<BoundElseIf, AllocError>
    ensures { IfOk result (λ made. made ≡ bodies.bound_else_if setting.now else_if.now) }
{
    Ok(BoundElseIf {
        condition: bound_if(alloc, setting, &else_if.condition)?,
        then: bound_statements(alloc, setting, &else_if.then)?,
    })
}

#[cycle(bound_bodies)]
fn bound_else_ifs(
    alloc: Global,
    setting: &Setting<'_>,
    else_ifs: &List<ElseIf>,
) -> Result<List<BoundElseIf>, AllocError>
    ensures { IfOk result (λ made. made ≡ map (bodies.bound_else_if setting.now) else_ifs.now) }
{
    let mut made = List::new(alloc);
    for else_if in else_ifs.as_slice() {
        made.push(bound_else_if(alloc, setting, else_if)?)?;
    }
    Ok(made)
}

#[cycle(bound_bodies)]
fn bound_handler(
    alloc: Global,
    setting: &Setting<'_>,
    handler: &Handler,
) -> Result<BoundHandler, AllocError>
    ensures { IfOk result (λ made. made ≡ bodies.bound_handler setting.now handler.now) }
{
    Ok(BoundHandler {
        conditions: handler.conditions.copy()?,
        statements: bound_statements(alloc, setting, &handler.statements)?,
    })
}

#[cycle(bound_bodies)]
fn bound_handlers(
    alloc: Global,
    setting: &Setting<'_>,
    handlers: &List<Handler>,
) -> Result<List<BoundHandler>, AllocError>
    ensures { IfOk result (λ made. made ≡ map (bodies.bound_handler setting.now) handlers.now) }
{
    let mut made = List::new(alloc);
    for handler in handlers.as_slice() {
        made.push(bound_handler(alloc, setting, handler)?)?;
    }
    Ok(made)
}

#[cycle(bound_bodies)]
fn bound_statements(
    alloc: Global,
    setting: &Setting<'_>,
    statements: &List<BodyStatement>,
) -> Result<List<BoundBodyStatement>, AllocError>
    ensures { IfOk result (λ made. made ≡ map (bodies.bound_body_statement setting.now) statements.now) }
{
    let mut made = List::new(alloc);
    for statement in statements.as_slice() {
        made.push(bound_statement(alloc, setting, statement)?)?;
    }
    Ok(made)
}

/// The body of a function, for the trigger that names it.
pub fn bound_body(
    alloc: Global,
    setting: &Setting<'_>,
    body: &Body,
) -> Result<BoundBody, AllocError>
    ensures { IfOk result (λ made. made ≡ bodies.bound_body setting.now body.now) }
{
    Ok(BoundBody {
        statements: bound_statements(alloc, setting, &body.statements)?,
        handlers: bound_handlers(alloc, setting, &body.handlers)?,
    })
}
