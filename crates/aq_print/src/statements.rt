//! Statements, each on a line with its `;`.
#![tactic(auto, using(crate::proofs::Printing::put_all_append))]

ghost use Rattle.std.specs.Prelude.{◌≡◌, [], ◌∷◌, ◌++◌, map, IfOk, OnOk};
ghost use Rattle.aq_texts.specs.Written.{say, Name};
ghost use Rattle.aq_texts.specs.Canon.{isolation, statement, statement_tokens, statement_line};
ghost use Rattle.aq_print.specs.Printing.{put_all, put_line};

use crate::changes::{delete, insert, select, set_constraints, update};
use crate::printer::Printer;
use crate::tables::{alter_table, create_table};
use crate::triggers::{create_constraint_trigger, create_function, create_trigger};
use aq_base::{Isolation, List, NoMemory, Statement, TextVal};
use aq_lex::Symbol;
use std::alloc::Global;

fn isolation(printer: &mut Printer, level: Isolation) -> Result<(), NoMemory>
    ensures { OnOk result (printer.new ≡ put_all printer.old (isolation level)) }
{
    match level {
        Isolation::ReadCommitted => Ok(()),
        Isolation::RepeatableRead => printer.words(&["ISOLATION", "LEVEL", "REPEATABLE", "READ"]),
    }
}

/// Words with a name behind them.
fn named(printer: &mut Printer, words: &[&str], name: &TextVal) -> Result<(), NoMemory>
    ensures { OnOk result (printer.new ≡ put_all printer.old (map (λ word. say word.now) words.now ++ Name name.now ∷ [])) }
{
    printer.words(words)?;
    printer.name(name)
}

fn statement(printer: &mut Printer, s: &Statement) -> Result<(), NoMemory>
    ensures { OnOk result (printer.new ≡ put_all printer.old (statement s.now)) }
{
    match s {
        Statement::CreateTable(found) => create_table(printer, found),
        Statement::AlterTable(found) => alter_table(printer, found),
        Statement::CreateFunction(found) => create_function(printer, found),
        Statement::CreateTrigger(found) => create_trigger(printer, found),
        Statement::CreateConstraintTrigger(found) => create_constraint_trigger(printer, found),
        Statement::Insert(found) => insert(printer, found),
        Statement::Update(found) => update(printer, found),
        Statement::Delete(found) => delete(printer, found),
        Statement::Select(found) => select(printer, found),
        Statement::SetConstraints(found) => set_constraints(printer, found),
        Statement::Begin(level) => {
            printer.word("BEGIN")?;
            isolation(printer, *level)
        }
        Statement::StartTransaction(level) => {
            printer.words(&["START", "TRANSACTION"])?;
            isolation(printer, *level)
        }
        Statement::Commit => printer.word("COMMIT"),
        Statement::Rollback => printer.word("ROLLBACK"),
        Statement::Savepoint(name) => named(printer, &["SAVEPOINT"], name),
        Statement::Release(name) => named(printer, &["RELEASE"], name),
        Statement::RollbackTo(name) => named(printer, &["ROLLBACK", "TO"], name),
    }
}

/// A statement's line.
pub fn push_line(printer: &mut Printer, s: &Statement) -> Result<(), NoMemory>
    ensures { OnOk result (printer.new ≡ put_line printer.old (statement_tokens s.now)) }
{
    statement(printer, s)?;
    printer.mark(Symbol::Semicolon)?;
    printer.end_line()
}

/// A statement in its canonical form: one line, with its `;`. The error is want of memory.
pub fn print_statement(alloc: Global, s: &Statement) -> Result<List<u8>, NoMemory>
    ensures { IfOk result (λ text. text ≡ statement_line s.now) }
{
    let mut printer = Printer::new(alloc);
    push_line(&mut printer, s)?;
    Ok(printer.finish())
}
