//! The line at which a script leaves the forms that the machine runs.

ghost use Rattle.std.specs.Prelude.{◌≡◌, ◌+◌, ◌≤◌, ◌&&◌, [], Some, IfOk, nat_le};
ghost use Rattle.aq_simple.specs.Conditions.{definition_kept, run_kept};
ghost use Rattle.aq_simple.specs.Forms.{simple_placed, simple_statements};
ghost use Rattle.aq_simple.specs.Simple.{line_unless, line_not, is_simple_and, setup_line, rows_of, keeps_session, first_line, sessions_line, statement_line, not_built_line};
ghost use Rattle.aq_simple.specs.Steps.{SaysLine, IfNotBuilt};

use crate::conditions::{definition_kept, rows_in, run_kept};
use crate::fault::{FormFault, SimpleFault};
use crate::forms::simple_statement;
use aq_base::{List, Placed, Script, SessionText};
use aq_first_base::SimplePlaced;
use std::alloc::Global;

/// The rows of values that a session may insert.
const ROW_LIMIT: usize = 1000;

/// A statement of the setup, which is to be defined after those before it.
fn next_definition(
    alloc: Global,
    earlier: &[SimplePlaced],
    placed: &Placed,
) -> Result<SimplePlaced, SimpleFault>
    ensures next { IfOk result (λ next. simple_placed placed.now ≡ Some next) }
    ensures line { SaysLine result (line_unless (is_simple_and (definition_kept earlier.now) placed.now) placed.now) }
{
    match simple_statement(alloc, &placed.statement) {
        Ok(statement) if definition_kept(earlier, &statement) => Ok(SimplePlaced {
            line: placed.line,
            statement,
        }),
        Err(FormFault::NoMemory) => Err(SimpleFault::NoMemory),
        _ => Err(SimpleFault::NotBuilt { line: placed.line }),
    }
}

/// The setup as the machine runs it.
fn kept_setup(alloc: Global, setup: &[Placed]) -> Result<List<SimplePlaced>, SimpleFault>
    ensures kept { IfOk result (λ kept. simple_statements setup.now ≡ Some kept) }
    ensures line { SaysLine result (setup_line setup.now) }
{
    let mut kept = List::new(alloc);
    for placed in setup {
        let next = next_definition(alloc, kept.as_slice(), placed)?;
        kept.push(next).map_err(|_| SimpleFault::NoMemory)?;
    }
    Ok(kept)
}

/// The rows that are inserted up to a statement of the first session, told those before it.
fn next_run(
    alloc: Global,
    setup: &[SimplePlaced],
    rows: usize,
    placed: &Placed,
) -> Result<usize, SimpleFault>
    requires { rows ≤ 1000 }
    ensures rows { IfOk result (λ total. (total ≡ rows + rows_of placed.now) × (total ≤ 1000)) }
    ensures line { SaysLine result (line_unless (is_simple_and (run_kept setup.now) placed.now && nat_le (rows + rows_of placed.now) 1000) placed.now) }
{
    match simple_statement(alloc, &placed.statement) {
        Ok(next) if run_kept(setup, &next) && rows_in(&next) <= ROW_LIMIT - rows => {
            Ok(rows + rows_in(&next))
        }
        Err(FormFault::NoMemory) => Err(SimpleFault::NoMemory),
        _ => Err(SimpleFault::NotBuilt { line: placed.line }),
    }
}

/// Whether the statements of the first session keep to what the machine runs.
fn keep_session(
    alloc: Global,
    setup: &[SimplePlaced],
    statements: &[Placed],
) -> Result<(), SimpleFault>
    ensures { SaysLine result (line_not (keeps_session setup.now) [] statements.now) }
{
    let mut rows = 0;
    for placed in statements {
        rows = next_run(alloc, setup, rows, placed)?;
    }
    Ok(())
}

/// The line of the first statement of sessions.
fn first_line(sessions: &[SessionText]) -> Option<u64>
    ensures { result ≡ first_line sessions.now }
{
    let mut rest = sessions;
    'sessions: while let Some((session, others)) = rest.split_first() {
        if let Some(placed) = session.statements.get(0) {
            return Some(placed.line);
        }
        rest = others;
    }
    None
}

/// Whether sessions have no statement.
fn no_statement(sessions: &[SessionText]) -> Result<(), SimpleFault>
    ensures { SaysLine result (first_line sessions.now) }
{
    match first_line(sessions) {
        None => Ok(()),
        Some(line) => Err(SimpleFault::NotBuilt { line }),
    }
}

/// Whether the sessions keep to what the machine runs: only the first may have statements.
fn keep_sessions(
    alloc: Global,
    setup: &[SimplePlaced],
    sessions: &[SessionText],
) -> Result<(), SimpleFault>
    ensures { SaysLine result (sessions_line setup.now sessions.now) }
{
    match sessions {
        [] => Ok(()),
        [session, others @ ..] => {
            keep_session(alloc, setup, session.statements.as_slice())?;
            no_statement(others)
        }
    }
}

/// Whether each statement of a script keeps to what the machine runs.
fn keep_script(alloc: Global, script: &Script) -> Result<(), SimpleFault>
    ensures { SaysLine result (statement_line script.now) }
{
    let setup = kept_setup(alloc, script.setup.as_slice())?;
    keep_sessions(alloc, setup.as_slice(), script.sessions.as_slice())
}

/// The fault of a script that the machine does not run.
pub fn refusal(alloc: Global, script: &Script) -> SimpleFault
    ensures { IfNotBuilt result (λ line. line ≡ not_built_line script.now) }
{
    match keep_script(alloc, script) {
        Ok(()) => SimpleFault::NotBuilt { line: 1 },
        Err(fault) => fault,
    }
}
