//! Scripts in their canonical form.
#![tactic(auto, using(crate::proofs::Printing::put_all_append, crate::proofs::Printing::put_lines_append))]

ghost use Rattle.std.specs.Prelude.{◌≡◌, IfOk, OnOk};
ghost use Rattle.std.specs.List.{flat_map};
ghost use Rattle.aq_texts.specs.Canon.{placed_lines, setup_lines, session_lines, item, schedule_lines, script_lines, canon};
ghost use Rattle.aq_print.specs.Printing.{put_lines};

use crate::lists::{Prints, one_by_one};
use crate::printer::Printer;
use crate::statements::push_line;
use aq_base::{Item, List, NoMemory, Placed, Script, SessionText};
use aq_lex::Directive;
use std::alloc::Global;

fn placed_lines(printer: &mut Printer, placed: &[Placed]) -> Result<(), NoMemory>
    ensures { OnOk result (printer.new ≡ put_lines printer.old (placed_lines placed.now)) }
{
    for found in placed {
        push_line(printer, &found.statement)?;
    }
    Ok(())
}

fn setup_lines(printer: &mut Printer, setup: &[Placed]) -> Result<(), NoMemory>
    ensures { OnOk result (printer.new ≡ put_lines printer.old (setup_lines setup.now)) }
{
    if setup.is_empty() {
        return Ok(());
    }
    printer.heading(Directive::Setup)?;
    printer.end_line()?;
    placed_lines(printer, setup)
}

fn session_lines(printer: &mut Printer, session: &SessionText) -> Result<(), NoMemory>
    ensures { OnOk result (printer.new ≡ put_lines printer.old (session_lines session.now)) }
{
    printer.heading(Directive::Session)?;
    printer.name(&session.name)?;
    printer.end_line()?;
    placed_lines(printer, session.statements.as_slice())
}

fn all_sessions(printer: &mut Printer, sessions: &[SessionText]) -> Result<(), NoMemory>
    ensures { OnOk result (printer.new ≡ put_lines printer.old (flat_map session_lines sessions.now)) }
{
    for session in sessions {
        session_lines(printer, session)?;
    }
    Ok(())
}

impl Prints for Item {
    ghost tokens = { item };

    fn print(&self, printer: &mut Printer) -> Result<(), NoMemory> {
        printer.name(&self.name)?;
        printer.repeat()?;
        printer.number(self.count)
    }
}

fn schedule_lines(printer: &mut Printer, schedule: &Option<List<Item>>) -> Result<(), NoMemory>
    ensures { OnOk result (printer.new ≡ put_lines printer.old (schedule_lines schedule.now)) }
{
    match schedule {
        None => Ok(()),
        Some(items) => {
            printer.heading(Directive::Schedule)?;
            one_by_one(printer, items.as_slice())?;
            printer.end_line()
        }
    }
}

fn script_lines(printer: &mut Printer, script: &Script) -> Result<(), NoMemory>
    ensures { OnOk result (printer.new ≡ put_lines printer.old (script_lines script.now)) }
{
    setup_lines(printer, script.setup.as_slice())?;
    all_sessions(printer, script.sessions.as_slice())?;
    schedule_lines(printer, &script.schedule)
}

/// The canonical text of a script. The error is want of memory.
pub fn print_script(alloc: Global, s: &Script) -> Result<List<u8>, NoMemory>
    ensures { IfOk result (λ text. text ≡ canon s.now) }
{
    let mut printer = Printer::new(alloc);
    script_lines(&mut printer, s)?;
    Ok(printer.finish())
}
