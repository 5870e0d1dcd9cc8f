//! The faults of the bodies of trigger functions, in the order of the text, through blocks and handlers.

ghost use Rattle.std.specs.Prelude.{◌≡◌};
ghost use Rattle.std.specs.List.{flat_map};
ghost use Rattle.aq_setup.specs.Bodies as bodies;
ghost use Rattle.aq_refusals.specs.Answers.{Tells};

use crate::scopes::{Setting, no_row};
use crate::statements::{condition_faults, delete_faults, insert_faults, update_faults};
use aq_base::{Body, BodyStatement, ElseIf, Expr, Handler, List};
use aq_refusals::CatFault;
use std::alloc::Global;

/// The condition of IF or ELSIF.
fn if_faults(alloc: Global, setting: &Setting<'_>, e: &Expr) -> Result<(), CatFault>
    ensures { Tells (bodies.if_faults setting.now e.now) result }
{
    condition_faults(alloc, "IF", &no_row(setting.changed), e)
}

#[cycle(body_faults)]
#[tactic(auto, using(aq_refusals::proofs::Loops::fault_at, aq_refusals::proofs::Loops::left_at))]
fn statements_faults(
    alloc: Global,
    setting: &Setting<'_>,
    statements: &List<BodyStatement>,
) -> Result<(), CatFault>
    ensures { Tells (flat_map (bodies.faults_in setting.now) statements.now) result }
{
    for s in statements.as_slice() {
        faults_in(alloc, setting, s)?;
    }
    Ok(())
}

#[cycle(body_faults)]
fn else_if_faults(alloc: Global, setting: &Setting<'_>, branch: &ElseIf) -> Result<(), CatFault>
    ensures { Tells (bodies.else_if_faults setting.now branch.now) result }
{
    if_faults(alloc, setting, &branch.condition)?;
    statements_faults(alloc, setting, &branch.then)
}

#[cycle(body_faults)]
#[tactic(auto, using(aq_refusals::proofs::Loops::fault_at, aq_refusals::proofs::Loops::left_at))]
fn else_ifs_faults(
    alloc: Global,
    setting: &Setting<'_>,
    branches: &List<ElseIf>,
) -> Result<(), CatFault>
    ensures { Tells (flat_map (bodies.else_if_faults setting.now) branches.now) result }
{
    for branch in branches.as_slice() {
        else_if_faults(alloc, setting, branch)?;
    }
    Ok(())
}

#[cycle(body_faults)]
fn handler_faults(alloc: Global, setting: &Setting<'_>, handler: &Handler) -> Result<(), CatFault>
    ensures { Tells (bodies.handler_faults setting.now handler.now) result }
{
    statements_faults(alloc, setting, &handler.statements)
}

#[cycle(body_faults)]
#[tactic(auto, using(aq_refusals::proofs::Loops::fault_at, aq_refusals::proofs::Loops::left_at))]
fn handlers_faults(
    alloc: Global,
    setting: &Setting<'_>,
    handlers: &List<Handler>,
) -> Result<(), CatFault>
    ensures { Tells (flat_map (bodies.handler_faults setting.now) handlers.now) result }
{
    for handler in handlers.as_slice() {
        handler_faults(alloc, setting, handler)?;
    }
    Ok(())
}

#[cycle(body_faults)]
fn faults_in(alloc: Global, setting: &Setting<'_>, s: &BodyStatement) -> Result<(), CatFault>
    ensures { Tells (bodies.faults_in setting.now s.now) result }
{
    match s {
        BodyStatement::If {
            condition,
            then,
            else_ifs,
            otherwise,
        } => {
            if_faults(alloc, setting, condition)?;
            statements_faults(alloc, setting, then)?;
            else_ifs_faults(alloc, setting, else_ifs)?;
            match otherwise {
                None => Ok(()),
                Some(last) => statements_faults(alloc, setting, last),
            }
        }
        BodyStatement::Insert(s) => insert_faults(alloc, setting, s),
        BodyStatement::Update(s) => update_faults(alloc, setting, s),
        BodyStatement::Delete(s) => delete_faults(alloc, setting, s),
        BodyStatement::Raise(_) | BodyStatement::Return(_) | BodyStatement::SetConstraints(_) => {
            Ok(())
        }
        BodyStatement::Block {
            statements,
            handlers,
        } => {
            statements_faults(alloc, setting, statements)?;
            handlers_faults(alloc, setting, handlers)
        }
    }
}

/// The faults of the statements of a body.
pub fn body_faults(alloc: Global, setting: &Setting<'_>, body: &Body) -> Result<(), CatFault>
    ensures { Tells (bodies.body_faults setting.now body.now) result }
{
    statements_faults(alloc, setting, &body.statements)?;
    handlers_faults(alloc, setting, &body.handlers)
}
