//! The lines of a trace.

ghost use Rattle.std.specs.Prelude.{◌≡◌, ◌++◌, codes, IfOk, OnOk};
ghost use Rattle.std.specs.List.{flat_map};
ghost use Rattle.std.specs.Fmt.{decimal};
ghost use Rattle.aq_texts.specs.Rows.{row_text};
ghost use Rattle.aq_texts.specs.Written.{name_text};
ghost use Rattle.aq_texts.specs.Traces.{trace_session, isolation_words, row_or_dash, queued_event, ending_words, constraints_words, mode_word, behind_blank, trace_words, trace_line};

use crate::names::push_name;
use crate::numbers::push_number;
use crate::rows::push_row;
use aq_base::{
    Code, ConstraintMode, Ending, Isolation, List, ModeOf, NoMemory, Row, TextVal, TraceEvent,
    TraceLine,
};
use std::alloc::Global;

fn session_of(line: &TraceLine) -> &TextVal
    ensures { result.now ≡ trace_session line.now }
{
    match line {
        TraceLine::Begin { session, .. } => session,
        TraceLine::Open { session, .. } => session,
        TraceLine::Close { session, .. } => session,
        TraceLine::Change { session, .. } => session,
        TraceLine::Dropped { session, .. } => session,
        TraceLine::Queue { session, .. } => session,
        TraceLine::Round { session } => session,
        TraceLine::Fire { session, .. } => session,
        TraceLine::Done { session, .. } => session,
        TraceLine::Mode { session, .. } => session,
        TraceLine::Savepoint { session, .. } => session,
        TraceLine::Release { session, .. } => session,
        TraceLine::Back { session, .. } => session,
        TraceLine::Block { session, .. } => session,
        TraceLine::Unblock { session, .. } => session,
        TraceLine::Caught { session, .. } => session,
        TraceLine::Wait { session, .. } => session,
        TraceLine::Victim { session, .. } => session,
        TraceLine::Missing { session, .. } => session,
        TraceLine::Pair { session, .. } => session,
        TraceLine::Fail { session, .. } => session,
        TraceLine::Drain { session } => session,
        TraceLine::Commit { session, .. } => session,
        TraceLine::Abort { session } => session,
        TraceLine::Reply { session, .. } => session,
        TraceLine::End { session } => session,
    }
}

/// A word and a number, with a blank between them.
fn push_counted(out: &mut Vec<u8>, word: &[u8], n: u64) -> Result<(), NoMemory>
    ensures { OnOk result (out.new.items ≡ out.old.items ++ (word.now ++ codes " " ++ decimal n)) }
{
    out.extend_from_slice(word)?;
    out.push(b' ')?;
    push_number(out, n)
}

/// A word and a name, with a blank between them.
fn push_named(out: &mut Vec<u8>, word: &[u8], name: &TextVal) -> Result<(), NoMemory>
    ensures { OnOk result (out.new.items ≡ out.old.items ++ (word.now ++ codes " " ++ name_text name.now)) }
{
    out.extend_from_slice(word)?;
    out.push(b' ')?;
    push_name(out, name)
}

fn push_isolation(out: &mut Vec<u8>, isolation: Isolation) -> Result<(), NoMemory>
    ensures { OnOk result (out.new.items ≡ out.old.items ++ isolation_words isolation) }
{
    match isolation {
        Isolation::ReadCommitted => out.extend_from_slice(b"begin rc"),
        Isolation::RepeatableRead => out.extend_from_slice(b"begin rr"),
    }
}

/// A row, or `-` where there is none.
fn push_row_or_dash(out: &mut Vec<u8>, row: &Option<Row>) -> Result<(), NoMemory>
    ensures { OnOk result (out.new.items ≡ out.old.items ++ row_or_dash row.now) }
{
    match row {
        None => Ok(out.push(b'-')?),
        Some(row) => push_row(out, row),
    }
}

fn push_event(out: &mut Vec<u8>, event: &TraceEvent) -> Result<(), NoMemory>
    ensures { OnOk result (out.new.items ≡ out.old.items ++ queued_event event.now) }
{
    push_counted(out, b" event", event.no)?;
    out.push(b' ')?;
    push_name(out, &event.trigger)
}

fn push_events(out: &mut Vec<u8>, events: &[TraceEvent]) -> Result<(), NoMemory>
    ensures { OnOk result (out.new.items ≡ out.old.items ++ flat_map queued_event events.now) }
{
    for event in events {
        push_event(out, event)?;
    }
    Ok(())
}

/// A table, and the number of a row of it.
fn push_place(out: &mut Vec<u8>, table: &TextVal, row: u64) -> Result<(), NoMemory>
    ensures { OnOk result (out.new.items ≡ out.old.items ++ (codes "change " ++ name_text table.now ++ codes " " ++ decimal row)) }
{
    push_named(out, b"change", table)?;
    out.push(b' ')?;
    push_number(out, row)
}

fn push_rows(out: &mut Vec<u8>, old: &Option<Row>, new: &Option<Row>) -> Result<(), NoMemory>
    ensures { OnOk result (out.new.items ≡ out.old.items ++ (codes " " ++ row_or_dash old.now ++ codes " " ++ row_or_dash new.now)) }
{
    out.push(b' ')?;
    push_row_or_dash(out, old)?;
    out.push(b' ')?;
    push_row_or_dash(out, new)
}

fn push_ending(out: &mut Vec<u8>, ending: Ending) -> Result<(), NoMemory>
    ensures { OnOk result (out.new.items ≡ out.old.items ++ ending_words ending) }
{
    match ending {
        Ending::Passed => out.extend_from_slice(b"passed"),
        Ending::Skipped => out.extend_from_slice(b"skipped"),
        Ending::Acted(rows) => push_counted(out, b"acted", rows),
        Ending::Ran => out.extend_from_slice(b"ran"),
    }
}

fn push_constraints(out: &mut Vec<u8>, of: &ModeOf) -> Result<(), NoMemory>
    ensures { OnOk result (out.new.items ≡ out.old.items ++ constraints_words of.now) }
{
    match of {
        ModeOf::All => out.extend_from_slice(b"all"),
        ModeOf::Named(name) => push_name(out, name),
    }
}

fn push_mode(out: &mut Vec<u8>, mode: ConstraintMode) -> Result<(), NoMemory>
    ensures { OnOk result (out.new.items ≡ out.old.items ++ mode_word mode) }
{
    match mode {
        ConstraintMode::Deferred => out.extend_from_slice(b"deferred"),
        ConstraintMode::Immediate => out.extend_from_slice(b"immediate"),
    }
}

fn push_behind_blank(out: &mut Vec<u8>, name: &TextVal) -> Result<(), NoMemory>
    ensures { OnOk result (out.new.items ≡ out.old.items ++ behind_blank name.now) }
{
    out.push(b' ')?;
    push_name(out, name)
}

fn push_names(out: &mut Vec<u8>, names: &[TextVal]) -> Result<(), NoMemory>
    ensures { OnOk result (out.new.items ≡ out.old.items ++ flat_map behind_blank names.now) }
{
    for name in names {
        push_behind_blank(out, name)?;
    }
    Ok(())
}

/// A word, and names with a blank before each.
fn push_sessions(out: &mut Vec<u8>, word: &[u8], names: &[TextVal]) -> Result<(), NoMemory>
    ensures { OnOk result (out.new.items ≡ out.old.items ++ (word.now ++ flat_map behind_blank names.now)) }
{
    out.extend_from_slice(word)?;
    push_names(out, names)
}

fn push_queue(out: &mut Vec<u8>, event: u64, trigger: &TextVal) -> Result<(), NoMemory>
    ensures { OnOk result (out.new.items ≡ out.old.items ++ (codes "queue " ++ decimal event ++ codes " " ++ name_text trigger.now)) }
{
    push_counted(out, b"queue", event)?;
    out.push(b' ')?;
    push_name(out, trigger)
}

fn push_done(out: &mut Vec<u8>, event: u64, ending: Ending) -> Result<(), NoMemory>
    ensures { OnOk result (out.new.items ≡ out.old.items ++ (codes "done " ++ decimal event ++ codes " " ++ ending_words ending)) }
{
    push_counted(out, b"done", event)?;
    out.push(b' ')?;
    push_ending(out, ending)
}

fn push_set(out: &mut Vec<u8>, of: &ModeOf, mode: ConstraintMode) -> Result<(), NoMemory>
    ensures { OnOk result (out.new.items ≡ out.old.items ++ (codes "mode " ++ constraints_words of.now ++ codes " " ++ mode_word mode)) }
{
    out.extend_from_slice(b"mode ")?;
    push_constraints(out, of)?;
    out.push(b' ')?;
    push_mode(out, mode)
}

fn push_missing(out: &mut Vec<u8>, key: &Row, database: u64) -> Result<(), NoMemory>
    ensures { OnOk result (out.new.items ≡ out.old.items ++ (codes "missing " ++ row_text key.now ++ codes " " ++ decimal database)) }
{
    out.extend_from_slice(b"missing ")?;
    push_row(out, key)?;
    out.push(b' ')?;
    push_number(out, database)
}

fn push_pair(out: &mut Vec<u8>, parent: u64, child: u64) -> Result<(), NoMemory>
    ensures { OnOk result (out.new.items ≡ out.old.items ++ (codes "pair " ++ decimal parent ++ codes " " ++ decimal child)) }
{
    push_counted(out, b"pair", parent)?;
    out.push(b' ')?;
    push_number(out, child)
}

fn push_fail(out: &mut Vec<u8>, code: &Code) -> Result<(), NoMemory>
    ensures { OnOk result (out.new.items ≡ out.old.items ++ (codes "fail " ++ code.now.0)) }
{
    out.extend_from_slice(b"fail ")?;
    out.extend_from_slice(&code.0)
}

fn push_caught(out: &mut Vec<u8>, block: u64, code: &Code) -> Result<(), NoMemory>
    ensures { OnOk result (out.new.items ≡ out.old.items ++ (codes "caught " ++ decimal block ++ codes " " ++ code.now.0)) }
{
    push_counted(out, b"caught", block)?;
    out.push(b' ')?;
    out.extend_from_slice(&code.0)
}

/// What the step did.
fn push_words(out: &mut Vec<u8>, line: &TraceLine) -> Result<(), NoMemory>
    ensures { OnOk result (out.new.items ≡ out.old.items ++ trace_words line.now) }
{
    match line {
        TraceLine::Begin { isolation, .. } => push_isolation(out, *isolation),
        TraceLine::Open { level, .. } => push_counted(out, b"open", *level),
        TraceLine::Close { level, .. } => push_counted(out, b"close", *level),
        TraceLine::Change {
            table,
            row,
            old,
            new,
            events,
            ..
        } => {
            push_place(out, table, *row)?;
            push_rows(out, old, new)?;
            push_events(out, events.as_slice())
        }
        TraceLine::Dropped { event, .. } => push_counted(out, b"drop", *event),
        TraceLine::Queue { event, trigger, .. } => push_queue(out, *event, trigger),
        TraceLine::Round { .. } => out.extend_from_slice(b"round"),
        TraceLine::Fire { event, .. } => push_counted(out, b"fire", *event),
        TraceLine::Done { event, ending, .. } => push_done(out, *event, *ending),
        TraceLine::Mode { of, mode, .. } => push_set(out, of, *mode),
        TraceLine::Savepoint { name, .. } => push_named(out, b"savepoint", name),
        TraceLine::Release { name, .. } => push_named(out, b"release", name),
        TraceLine::Back { name, .. } => push_named(out, b"back", name),
        TraceLine::Block { block, .. } => push_counted(out, b"block", *block),
        TraceLine::Unblock { block, .. } => push_counted(out, b"unblock", *block),
        TraceLine::Caught { block, code, .. } => push_caught(out, *block, code),
        TraceLine::Wait { blockers, .. } => push_sessions(out, b"wait", blockers.as_slice()),
        TraceLine::Victim { cycle, .. } => push_sessions(out, b"victim", cycle.as_slice()),
        TraceLine::Missing { key, database, .. } => push_missing(out, key, *database),
        TraceLine::Pair { parent, child, .. } => push_pair(out, *parent, *child),
        TraceLine::Fail { code, .. } => push_fail(out, code),
        TraceLine::Drain { .. } => out.extend_from_slice(b"drain"),
        TraceLine::Commit { database, .. } => push_counted(out, b"commit", *database),
        TraceLine::Abort { .. } => out.extend_from_slice(b"abort"),
        TraceLine::Reply { statement, .. } => push_counted(out, b"reply", *statement),
        TraceLine::End { .. } => out.extend_from_slice(b"end"),
    }
}

/// A line of a trace. The error is want of memory.
pub fn print_trace(alloc: Global, line: &TraceLine) -> Result<List<u8>, NoMemory>
    ensures { IfOk result (λ text. text ≡ trace_line line.now) }
{
    let mut out = Vec::new(alloc);
    push_named(&mut out, b"trace", session_of(line))?;
    out.push(b' ')?;
    push_words(&mut out, line)?;
    out.push(b'\n')?;
    Ok(List::from_vec(out))
}
