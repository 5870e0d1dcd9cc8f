//! Functions and triggers.
#![tactic(auto, using(crate::proofs::Printing::put_all_append, crate::proofs::Printing::separated_cons))]

ghost use Rattle.std.specs.Prelude.{◌≡◌, ◌∷◌, codes, OnOk};
ghost use Rattle.std.specs.List.{flat_map};
ghost use Rattle.aq_texts.specs.Written.{say, separated};
ghost use Rattle.aq_texts.specs.Canon.{perhaps, function, create_function, trigger_event, fires_on, transition, transition_table, referencing, for_each, when_part, executes, create_trigger, create_constraint_trigger};
ghost use Rattle.aq_print.specs.Printing.{put, put_all};

use crate::bodies::body;
use crate::expressions::expression;
use crate::lists::{Prints, alternatives, listed, one_by_one};
use crate::printer::Printer;
use crate::tables::timing;
use aq_base::{
    CreateConstraintTrigger, CreateFunction, CreateTrigger, Each, Expr, List, NoMemory, TextVal,
    Transition, TransitionTable, TriggerEvent,
};
use aq_lex::Symbol;

fn function(printer: &mut Printer, name: &TextVal) -> Result<(), NoMemory>
    ensures { OnOk result (printer.new ≡ put_all printer.old (function name.now)) }
{
    printer.name(name)?;
    printer.call()?;
    printer.mark(Symbol::CloseParen)
}

/// CREATE FUNCTION.
pub fn create_function(printer: &mut Printer, s: &CreateFunction) -> Result<(), NoMemory>
    ensures { OnOk result (printer.new ≡ put_all printer.old (create_function s.now)) }
{
    printer.words(&["CREATE", "FUNCTION"])?;
    function(printer, &s.name)?;
    printer.words(&["RETURNS", "trigger", "LANGUAGE", "plpgsql", "AS"])?;
    printer.mark(Symbol::DollarQuote)?;
    body(printer, &s.body)?;
    printer.mark(Symbol::DollarQuote)
}

impl Prints for TriggerEvent {
    ghost tokens = { trigger_event };

    fn print(&self, printer: &mut Printer) -> Result<(), NoMemory> {
        match self {
            TriggerEvent::Insert => printer.word("INSERT"),
            TriggerEvent::Delete => printer.word("DELETE"),
            TriggerEvent::Update { columns: None } => printer.word("UPDATE"),
            TriggerEvent::Update {
                columns: Some(names),
            } => {
                printer.words(&["UPDATE", "OF"])?;
                listed(printer, names.as_slice())
            }
        }
    }
}

/// The name of a trigger, its events and its table.
fn fires_on(
    printer: &mut Printer,
    name: &TextVal,
    events: &List<TriggerEvent>,
    table: &TextVal,
) -> Result<(), NoMemory>
    ensures { OnOk result (printer.new ≡ put_all printer.old (fires_on name.now events.now table.now)) }
{
    printer.name(name)?;
    printer.word("AFTER")?;
    alternatives(printer, events.as_slice())?;
    printer.word("ON")?;
    printer.name(table)
}

fn transition(printer: &mut Printer, found: Transition) -> Result<(), NoMemory>
    ensures { OnOk result (printer.new ≡ put printer.old (transition found)) }
{
    match found {
        Transition::Old => printer.word("OLD"),
        Transition::New => printer.word("NEW"),
    }
}

impl Prints for TransitionTable {
    ghost tokens = { transition_table };

    fn print(&self, printer: &mut Printer) -> Result<(), NoMemory> {
        transition(printer, self.transition)?;
        printer.words(&["TABLE", "AS"])?;
        printer.name(&self.name)
    }
}

fn referencing(
    printer: &mut Printer,
    tables: &Option<List<TransitionTable>>,
) -> Result<(), NoMemory>
    ensures { OnOk result (printer.new ≡ put_all printer.old (perhaps referencing tables.now)) }
{
    match tables {
        None => Ok(()),
        Some(found) => {
            printer.word("REFERENCING")?;
            one_by_one(printer, found.as_slice())
        }
    }
}

fn for_each(printer: &mut Printer, each: Each) -> Result<(), NoMemory>
    ensures { OnOk result (printer.new ≡ put_all printer.old (for_each each)) }
{
    match each {
        Each::Row => printer.words(&["FOR", "EACH", "ROW"]),
        Each::Statement => printer.words(&["FOR", "EACH", "STATEMENT"]),
    }
}

fn when_part(printer: &mut Printer, condition: &Option<Expr>) -> Result<(), NoMemory>
    ensures { OnOk result (printer.new ≡ put_all printer.old (when_part condition.now)) }
{
    match condition {
        None => Ok(()),
        Some(found) => {
            printer.word("WHEN")?;
            printer.mark(Symbol::OpenParen)?;
            expression(printer, found)?;
            printer.mark(Symbol::CloseParen)
        }
    }
}

fn executes(printer: &mut Printer, name: &TextVal) -> Result<(), NoMemory>
    ensures { OnOk result (printer.new ≡ put_all printer.old (executes name.now)) }
{
    printer.words(&["EXECUTE", "FUNCTION"])?;
    function(printer, name)
}

/// CREATE TRIGGER.
pub fn create_trigger(printer: &mut Printer, s: &CreateTrigger) -> Result<(), NoMemory>
    ensures { OnOk result (printer.new ≡ put_all printer.old (create_trigger s.now)) }
{
    printer.words(&["CREATE", "TRIGGER"])?;
    fires_on(printer, &s.name, &s.events, &s.table)?;
    referencing(printer, &s.transitions)?;
    for_each(printer, s.each)?;
    when_part(printer, &s.condition)?;
    executes(printer, &s.function)
}

/// CREATE CONSTRAINT TRIGGER.
pub fn create_constraint_trigger(
    printer: &mut Printer,
    s: &CreateConstraintTrigger,
) -> Result<(), NoMemory>
    ensures { OnOk result (printer.new ≡ put_all printer.old (create_constraint_trigger s.now)) }
{
    printer.words(&["CREATE", "CONSTRAINT", "TRIGGER"])?;
    fires_on(printer, &s.name, &s.events, &s.table)?;
    timing(printer, s.timing)?;
    for_each(printer, Each::Row)?;
    when_part(printer, &s.condition)?;
    executes(printer, &s.function)
}
