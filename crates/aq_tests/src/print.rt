//! Statements, rows, replies, schedules and lines of a trace printed.

use crate::binding::{first_statement, session_of};
use crate::table::{Subject, first_wrong};
use aq_base::{List, NoMemory, ReplyLine, Row, TextVal, TraceEvent, TraceLine, Value};
use aq_print::{Runs, print_reply, print_row, print_schedule, print_statement, print_trace};
use aq_xids::SessNo;
use std::alloc::Global;
use std::test::Fail;

fn text(alloc: Global, word: &str) -> Result<TextVal, NoMemory> {
    TextVal::new(alloc, word)
}

fn one<T: Drop>(alloc: Global, x: T) -> Result<List<T>, NoMemory> {
    let mut made = List::new(alloc);
    made.push(x)?;
    Ok(made)
}

// A statement of a session, printed.
fn print_in_session(alloc: Global, statement: &str) -> Option<Result<List<u8>, NoMemory>> {
    let script = session_of(alloc, statement)?;
    let statement = first_statement(&script)?;
    Some(print_statement(alloc, statement))
}

fn savepoint(alloc: Global) -> Result<List<u8>, NoMemory> {
    match print_in_session(alloc, "SAVEPOINT \"Select\"") {
        Some(printed) => printed,
        None => Ok(List::new(alloc)),
    }
}

// `(7, 'it''s')`
fn values(alloc: Global) -> Result<Row, NoMemory> {
    let mut values = List::new(alloc);
    values.push(Value::Int(7))?;
    values.push(Value::Text(text(alloc, "it's")?))?;
    Ok(values)
}

fn trace(alloc: Global) -> Result<List<u8>, NoMemory> {
    let event = TraceEvent {
        no: 12,
        trigger: text(alloc, "X")?,
    };
    let line = TraceLine::Change {
        session: text(alloc, "a")?,
        table: text(alloc, "t")?,
        row: 3,
        old: None,
        new: Some(values(alloc)?),
        events: one(alloc, event)?,
    };
    print_trace(alloc, &line)
}

fn reply(alloc: Global) -> Result<List<u8>, NoMemory> {
    let session = text(alloc, "a")?;
    let line = ReplyLine::Row(values(alloc)?);
    print_reply(alloc, &session, 2, &line)
}

fn row(alloc: Global) -> Result<List<u8>, NoMemory> {
    let row = values(alloc)?;
    print_row(alloc, &row)
}

fn schedule(alloc: Global) -> Result<List<u8>, NoMemory> {
    let mut names = List::new(alloc);
    names.push(text(alloc, "a")?)?;
    names.push(text(alloc, "b")?)?;
    let mut runs = Runs::new(alloc);
    for session in [0, 0, 1, 0, 0, 0] {
        runs.push(SessNo(session))?;
    }
    print_schedule(alloc, &runs, &names)
}

// One value of each form, printed.
struct Printed;

impl Subject for Printed {
    fn answer(&self, alloc: Global, question: &str) -> Result<String, NoMemory> {
        let bytes = match question {
            "statement" => savepoint(alloc)?,
            "trace" => trace(alloc)?,
            "row" => row(alloc)?,
            "reply" => reply(alloc)?,
            "schedule" => schedule(alloc)?,
            _ => List::new(alloc),
        };
        String::from_utf8_lossy(alloc, bytes.as_slice())
    }
}

const PRINTED: &str = "\
==== statement
---- SAVEPOINT \"Select\";

==== trace
---- trace a change t 3 - (7, 'it''s') event 12 \"X\"

==== row
---- (7, 'it''s')
==== reply
---- a.2: (7, 'it''s')

==== schedule
---- schedule a*2 b*1 a*3

";

#[test]
fn what_is_printed(rt: HostRuntime) -> Result<(), Fail> {
    assert_eq!(rt; first_wrong(rt.alloc(), &Printed, PRINTED)?, None);
    Ok(())
}
