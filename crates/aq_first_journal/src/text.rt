//! The text of a machine's run.

ghost use Rattle.std.specs.Prelude.{◌≡◌, ◌++◌, map, IfOk, OnOk};
ghost use Rattle.aq_first_base.specs.Setup.{program_of};
ghost use Rattle.aq_first_run.specs.States.{last_database};
ghost use Rattle.aq_first_run.specs.Texts.{given_text, replies_text, tables_text, text_of};
ghost use Rattle.aq_texts.specs.Schedules.{name_at};
ghost use Rattle.aq_first_machine.specs.Givens.{given_shown};

use crate::tables::push_table;
use aq_base::{List, NoMemory, TabNo};
use aq_first_base::{SimpleSession, Table};
use aq_first_machine::{Given, Machine};
use aq_print::{push_reply, push_schedule};
use aq_xids::SessNo;
use std::alloc::Global;

fn name_of(sessions: &[SimpleSession], s: SessNo) -> &str
    ensures { result.now ≡ name_at (map (λ session. session.name) sessions.now) s.0 }
{
    match sessions.get(usize::from(s.0)) {
        None => "",
        Some(session) => session.name.as_str(),
    }
}

fn push_given(out: &mut Vec<u8>, sessions: &[SimpleSession], given: &Given) -> Result<(), NoMemory>
    ensures { OnOk result (out.new.items ≡ out.old.items ++ given_text (map (λ s. s.name) sessions.now) (given_shown given.now)) }
{
    push_reply(
        out,
        name_of(sessions, given.session),
        given.statement,
        &given.line,
    )
}

fn push_replies(
    out: &mut Vec<u8>,
    sessions: &[SimpleSession],
    replies: &[Given],
) -> Result<(), NoMemory>
    ensures { OnOk result (out.new.items ≡ out.old.items ++ replies_text (map (λ s. s.name) sessions.now) (map given_shown replies.now)) }
{
    for given in replies {
        push_given(out, sessions, given)?;
    }
    Ok(())
}

fn push_tables(out: &mut Vec<u8>, machine: &Machine, tables: &[Table]) -> Result<(), NoMemory>
    ensures { OnOk result (out.new.items ≡ out.old.items ++ tables_text 0 tables.now (last_database machine.now.state.world)) }
{
    let mut left = tables;
    let mut number: u16 = 0;
    'tables: while let Some((table, rest)) = left.split_first() {
        let rows = machine.table_rows(TabNo::new(number))?;
        push_table(out, table, rows.as_slice())?;
        number = number.checked_add(1).ok_or(NoMemory)?;
        left = rest;
    }
    Ok(())
}

/// The replies, the tables and the schedule. The error is want of memory.
pub fn text(alloc: Global, machine: &Machine, steps: &[u8]) -> Result<List<u8>, NoMemory>
    ensures { IfOk result (λ output. output ≡ text_of (program_of machine.now.script) machine.now.state steps.now) }
{
    let mut out = Vec::new(alloc);
    let sessions = machine.script().sessions.as_slice();
    push_replies(&mut out, sessions, machine.replies().as_slice())?;
    push_tables(&mut out, machine, machine.tables().as_slice())?;
    push_schedule(&mut out, sessions, steps)?;
    Ok(List::from_vec(out))
}
