//! Tables and their constraints.
#![tactic(auto, using(crate::proofs::Printing::put_all_append))]

ghost use Rattle.std.specs.Prelude.{◌≡◌, [], map, OnOk, if◌then◌else◌};
ghost use Rattle.aq_texts.specs.Written.{say};
ghost use Rattle.aq_texts.specs.Canon.{kind, constraint_name, matching, action_on, timing, reference, column_constraint, table_constraint, table_item, create_table, alter_table};
ghost use Rattle.aq_print.specs.Printing.{put, put_all};

use crate::expressions::constant;
use crate::lists::{Prints, columns, columns_if_any, listed, one_by_one};
use crate::printer::Printer;
use aq_base::{
    Action, AlterTable, ColumnConstraint, CreateTable, Decl, Kind, Match, NoMemory, Reference,
    TableConstraint, TableItem, TextVal,
};
use aq_lex::Symbol;

fn kind(printer: &mut Printer, found: Kind) -> Result<(), NoMemory>
    ensures { OnOk result (printer.new ≡ put printer.old (kind found)) }
{
    match found {
        Kind::Integer => printer.word("integer"),
        Kind::Bigint => printer.word("bigint"),
        Kind::Boolean => printer.word("boolean"),
        Kind::Text => printer.word("text"),
    }
}

fn constraint_name(printer: &mut Printer, name: &Option<TextVal>) -> Result<(), NoMemory>
    ensures { OnOk result (printer.new ≡ put_all printer.old (constraint_name name.now)) }
{
    match name {
        None => Ok(()),
        Some(found) => {
            printer.word("CONSTRAINT")?;
            printer.name(found)
        }
    }
}

fn matching(printer: &mut Printer, found: Match) -> Result<(), NoMemory>
    ensures { OnOk result (printer.new ≡ put_all printer.old (matching found)) }
{
    match found {
        Match::Simple => Ok(()),
        Match::Full => printer.words(&["MATCH", "FULL"]),
    }
}

fn action_on(printer: &mut Printer, event: &str, action: Action) -> Result<(), NoMemory>
    ensures { OnOk result (printer.new ≡ put_all printer.old (action_on event.now action)) }
{
    match action {
        Action::NoAction => Ok(()),
        Action::Restrict => printer.words(&["ON", event, "RESTRICT"]),
        Action::Cascade => printer.words(&["ON", event, "CASCADE"]),
        Action::SetNull => printer.words(&["ON", event, "SET", "NULL"]),
        Action::SetDefault => printer.words(&["ON", event, "SET", "DEFAULT"]),
    }
}

fn words_if(printer: &mut Printer, is_said: bool, texts: &[&str]) -> Result<(), NoMemory>
    ensures { OnOk result (printer.new ≡ put_all printer.old (if is_said then map (λ text. say text.now) texts.now else [])) }
{
    if is_said {
        printer.words(texts)
    } else {
        Ok(())
    }
}

/// When a constraint fires, where that is not the default.
pub fn timing(printer: &mut Printer, decl: Decl) -> Result<(), NoMemory>
    ensures { OnOk result (printer.new ≡ put_all printer.old (timing decl)) }
{
    words_if(printer, decl.deferrable, &["DEFERRABLE"])?;
    words_if(printer, decl.deferred, &["INITIALLY", "DEFERRED"])
}

fn reference(printer: &mut Printer, r: &Reference) -> Result<(), NoMemory>
    ensures { OnOk result (printer.new ≡ put_all printer.old (reference r.now)) }
{
    printer.word("REFERENCES")?;
    printer.name(&r.table)?;
    columns_if_any(printer, &r.columns)?;
    matching(printer, r.matching)?;
    action_on(printer, "DELETE", r.on_delete)?;
    columns_if_any(printer, &r.set_columns)?;
    action_on(printer, "UPDATE", r.on_update)?;
    timing(printer, r.timing)
}

impl Prints for ColumnConstraint {
    ghost tokens = { column_constraint };

    fn print(&self, printer: &mut Printer) -> Result<(), NoMemory> {
        match self {
            ColumnConstraint::NotNull => printer.words(&["NOT", "NULL"]),
            ColumnConstraint::Default(value) => {
                printer.word("DEFAULT")?;
                constant(printer, value)
            }
            ColumnConstraint::PrimaryKey { name } => {
                constraint_name(printer, name)?;
                printer.words(&["PRIMARY", "KEY"])
            }
            ColumnConstraint::Unique { name } => {
                constraint_name(printer, name)?;
                printer.word("UNIQUE")
            }
            ColumnConstraint::References { name, reference: r } => {
                constraint_name(printer, name)?;
                reference(printer, r)
            }
        }
    }
}

fn table_constraint(printer: &mut Printer, constraint: &TableConstraint) -> Result<(), NoMemory>
    ensures { OnOk result (printer.new ≡ put_all printer.old (table_constraint constraint.now)) }
{
    match constraint {
        TableConstraint::PrimaryKey {
            name,
            columns: names,
        } => {
            constraint_name(printer, name)?;
            printer.words(&["PRIMARY", "KEY"])?;
            columns(printer, names)
        }
        TableConstraint::Unique {
            name,
            columns: names,
        } => {
            constraint_name(printer, name)?;
            printer.word("UNIQUE")?;
            columns(printer, names)
        }
        TableConstraint::ForeignKey {
            name,
            columns: names,
            reference: r,
        } => {
            constraint_name(printer, name)?;
            printer.words(&["FOREIGN", "KEY"])?;
            columns(printer, names)?;
            reference(printer, r)
        }
    }
}

impl Prints for TableItem {
    ghost tokens = { table_item };

    fn print(&self, printer: &mut Printer) -> Result<(), NoMemory> {
        match self {
            TableItem::Column {
                name,
                kind: found,
                constraints,
            } => {
                printer.name(name)?;
                kind(printer, *found)?;
                one_by_one(printer, constraints.as_slice())
            }
            TableItem::Constraint(constraint) => table_constraint(printer, constraint),
        }
    }
}

/// CREATE TABLE.
pub fn create_table(printer: &mut Printer, s: &CreateTable) -> Result<(), NoMemory>
    ensures { OnOk result (printer.new ≡ put_all printer.old (create_table s.now)) }
{
    printer.words(&["CREATE", "TABLE"])?;
    printer.name(&s.table)?;
    printer.mark(Symbol::OpenParen)?;
    listed(printer, s.items.as_slice())?;
    printer.mark(Symbol::CloseParen)
}

/// ALTER TABLE.
pub fn alter_table(printer: &mut Printer, s: &AlterTable) -> Result<(), NoMemory>
    ensures { OnOk result (printer.new ≡ put_all printer.old (alter_table s.now)) }
{
    printer.words(&["ALTER", "TABLE"])?;
    printer.name(&s.table)?;
    printer.word("ADD")?;
    table_constraint(printer, &s.constraint)
}
