//! Statements and scripts of the forms that the machine runs.

ghost use Rattle.aq_simple.specs.Forms.{simple_begin, simple_statement, simple_placed, simple_statements, simple_session, simple_script, all_of};
ghost use Rattle.aq_simple.specs.Steps.{Gives};

use crate::data::{simple_delete, simple_insert};
use crate::fault::FormFault;
use crate::table::simple_create;
use aq_base::{Copies, Isolation, List, Placed, Script, SessionText, Statement};
use aq_first_base::{SimplePlaced, SimpleScript, SimpleSession, SimpleStatement};
use std::alloc::Global;

fn simple_begin(isolation: Isolation) -> Result<SimpleStatement, FormFault>
    ensures { Gives result (simple_begin isolation) }
{
    match isolation {
        Isolation::ReadCommitted => Ok(SimpleStatement::Begin),
        Isolation::RepeatableRead => Err(FormFault::NotSimple),
    }
}

/// The statement as the machine runs it.
pub fn simple_statement(alloc: Global, statement: &Statement) -> Result<SimpleStatement, FormFault>
    ensures { Gives result (simple_statement statement.now) }
{
    match statement {
        Statement::CreateTable(create) => simple_create(alloc, create),
        Statement::Insert(insert) => simple_insert(alloc, insert),
        Statement::Delete(delete) => simple_delete(delete),
        Statement::Begin(isolation) => simple_begin(*isolation),
        Statement::Commit => Ok(SimpleStatement::Commit),
        Statement::Rollback => Ok(SimpleStatement::Rollback),
        _ => Err(FormFault::NotSimple),
    }
}

fn simple_placed(alloc: Global, placed: &Placed) -> Result<SimplePlaced, FormFault>
    ensures { Gives result (simple_placed placed.now) }
{
    Ok(SimplePlaced {
        line: placed.line,
        statement: simple_statement(alloc, &placed.statement)?,
    })
}

fn simple_statements(alloc: Global, statements: &[Placed]) -> Result<List<SimplePlaced>, FormFault>
    ensures { Gives result (simple_statements statements.now) }
{
    let mut simple = List::new(alloc);
    for placed in statements {
        simple.push(simple_placed(alloc, placed)?)?;
    }
    Ok(simple)
}

fn simple_session(alloc: Global, session: &SessionText) -> Result<SimpleSession, FormFault>
    ensures { Gives result (simple_session session.now) }
{
    let statements = simple_statements(alloc, session.statements.as_slice())?;
    Ok(SimpleSession {
        name: session.name.copy()?,
        statements,
    })
}

fn simple_sessions(
    alloc: Global,
    sessions: &[SessionText],
) -> Result<List<SimpleSession>, FormFault>
    ensures { Gives result (all_of simple_session sessions.now) }
{
    let mut simple = List::new(alloc);
    for session in sessions {
        simple.push(simple_session(alloc, session)?)?;
    }
    Ok(simple)
}

/// The script with each statement as the machine runs it.
pub fn simple_script(alloc: Global, script: &Script) -> Result<SimpleScript, FormFault>
    ensures { Gives result (simple_script script.now) }
{
    if script.schedule.is_some() {
        return Err(FormFault::NotSimple);
    }
    let setup = simple_statements(alloc, script.setup.as_slice())?;
    let sessions = simple_sessions(alloc, script.sessions.as_slice())?;
    Ok(SimpleScript {
        setup,
        sessions,
        schedule: None,
    })
}
