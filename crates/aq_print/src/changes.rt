//! INSERT, UPDATE, DELETE, SELECT and SET CONSTRAINTS.
#![tactic(auto, using(crate::proofs::Printing::put_all_append))]

ghost use Rattle.std.specs.Prelude.{◌≡◌, OnOk};
ghost use Rattle.aq_texts.specs.Canon.{perhaps, given, where_part, source, insert, assignment, update, delete, shown_columns, lock, select, constraints, mode, set_constraints};
ghost use Rattle.aq_texts.specs.Written.{in_parentheses, listed};
ghost use Rattle.aq_print.specs.Printing.{put, put_all};

use crate::expressions::expression;
use crate::lists::{Prints, columns_if_any, listed};
use crate::printer::Printer;
use aq_base::{
    Assignment, Columns, ConstraintMode, Constraints, Delete, Expr, Given, Insert, List, LockMode,
    NoMemory, Select, SetConstraints, Source, Update,
};
use aq_lex::Symbol;

impl Prints for Given {
    ghost tokens = { given };

    fn print(&self, printer: &mut Printer) -> Result<(), NoMemory> {
        match self {
            Given::Value(value) => expression(printer, value),
            Given::Default => printer.word("DEFAULT"),
        }
    }
}

impl Prints for List<Given> {
    ghost tokens = { λ row. in_parentheses (listed given row) };

    fn print(&self, printer: &mut Printer) -> Result<(), NoMemory> {
        printer.mark(Symbol::OpenParen)?;
        listed(printer, self.as_slice())?;
        printer.mark(Symbol::CloseParen)
    }
}

fn where_part(printer: &mut Printer, condition: &Option<Expr>) -> Result<(), NoMemory>
    ensures { OnOk result (printer.new ≡ put_all printer.old (where_part condition.now)) }
{
    match condition {
        None => Ok(()),
        Some(found) => {
            printer.word("WHERE")?;
            expression(printer, found)
        }
    }
}

fn source(printer: &mut Printer, given: &Source) -> Result<(), NoMemory>
    ensures { OnOk result (printer.new ≡ put_all printer.old (source given.now)) }
{
    match given {
        Source::Values(rows) => {
            printer.word("VALUES")?;
            listed(printer, rows.as_slice())
        }
        Source::Query {
            values,
            table,
            condition,
        } => {
            printer.word("SELECT")?;
            listed(printer, values.as_slice())?;
            printer.word("FROM")?;
            printer.name(table)?;
            where_part(printer, condition)
        }
    }
}

/// INSERT.
pub fn insert(printer: &mut Printer, s: &Insert) -> Result<(), NoMemory>
    ensures { OnOk result (printer.new ≡ put_all printer.old (insert s.now)) }
{
    printer.words(&["INSERT", "INTO"])?;
    printer.name(&s.table)?;
    columns_if_any(printer, &s.columns)?;
    source(printer, &s.source)
}

impl Prints for Assignment {
    ghost tokens = { assignment };

    fn print(&self, printer: &mut Printer) -> Result<(), NoMemory> {
        printer.name(&self.column)?;
        printer.mark(Symbol::Equal)?;
        self.value.print(printer)
    }
}

/// UPDATE.
pub fn update(printer: &mut Printer, s: &Update) -> Result<(), NoMemory>
    ensures { OnOk result (printer.new ≡ put_all printer.old (update s.now)) }
{
    printer.word("UPDATE")?;
    printer.name(&s.table)?;
    printer.word("SET")?;
    listed(printer, s.assignments.as_slice())?;
    where_part(printer, &s.condition)
}

/// DELETE.
pub fn delete(printer: &mut Printer, s: &Delete) -> Result<(), NoMemory>
    ensures { OnOk result (printer.new ≡ put_all printer.old (delete s.now)) }
{
    printer.words(&["DELETE", "FROM"])?;
    printer.name(&s.table)?;
    where_part(printer, &s.condition)
}

fn shown_columns(printer: &mut Printer, shown: &Columns) -> Result<(), NoMemory>
    ensures { OnOk result (printer.new ≡ put_all printer.old (shown_columns shown.now)) }
{
    match shown {
        Columns::All => printer.mark(Symbol::Times),
        Columns::Named(names) => listed(printer, names.as_slice()),
    }
}

fn lock(printer: &mut Printer, mode: LockMode) -> Result<(), NoMemory>
    ensures { OnOk result (printer.new ≡ put_all printer.old (lock mode)) }
{
    match mode {
        LockMode::Update => printer.words(&["FOR", "UPDATE"]),
        LockMode::NoKeyUpdate => printer.words(&["FOR", "NO", "KEY", "UPDATE"]),
        LockMode::Share => printer.words(&["FOR", "SHARE"]),
        LockMode::KeyShare => printer.words(&["FOR", "KEY", "SHARE"]),
    }
}

fn lock_if_any(printer: &mut Printer, mode: Option<LockMode>) -> Result<(), NoMemory>
    ensures { OnOk result (printer.new ≡ put_all printer.old (perhaps lock mode)) }
{
    match mode {
        None => Ok(()),
        Some(found) => lock(printer, found),
    }
}

/// SELECT.
pub fn select(printer: &mut Printer, s: &Select) -> Result<(), NoMemory>
    ensures { OnOk result (printer.new ≡ put_all printer.old (select s.now)) }
{
    printer.word("SELECT")?;
    shown_columns(printer, &s.columns)?;
    printer.word("FROM")?;
    printer.name(&s.table)?;
    where_part(printer, &s.condition)?;
    lock_if_any(printer, s.lock)
}

fn constraints(printer: &mut Printer, given: &Constraints) -> Result<(), NoMemory>
    ensures { OnOk result (printer.new ≡ put_all printer.old (constraints given.now)) }
{
    match given {
        Constraints::All => printer.word("ALL"),
        Constraints::Named(names) => listed(printer, names.as_slice()),
    }
}

fn mode(printer: &mut Printer, given: ConstraintMode) -> Result<(), NoMemory>
    ensures { OnOk result (printer.new ≡ put printer.old (mode given)) }
{
    match given {
        ConstraintMode::Deferred => printer.word("DEFERRED"),
        ConstraintMode::Immediate => printer.word("IMMEDIATE"),
    }
}

/// SET CONSTRAINTS.
pub fn set_constraints(printer: &mut Printer, s: &SetConstraints) -> Result<(), NoMemory>
    ensures { OnOk result (printer.new ≡ put_all printer.old (set_constraints s.now)) }
{
    printer.words(&["SET", "CONSTRAINTS"])?;
    constraints(printer, &s.constraints)?;
    mode(printer, s.mode)
}
