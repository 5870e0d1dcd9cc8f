//! The code of a function.
#![tactic(auto, using(crate::proofs::Printing::put_all_append))]

ghost use Rattle.std.specs.Prelude.{◌≡◌, ◌∷◌, ◌++◌, [], codes, map, OnOk};
ghost use Rattle.std.specs.List.{flat_map};
ghost use Rattle.aq_texts.specs.Written.{say};
ghost use Rattle.aq_texts.specs.Canon.{expression, returned, condition, handler, exception, body, body_statement, else_if, block};
ghost use Rattle.aq_print.specs.Printing.{put, put_all};
ghost use Rattle.aq_lex.specs.declared.token.Symbol.TheVariants.{Semicolon};

use crate::changes::{delete, insert, set_constraints, update};
use crate::expressions::expression;
use crate::lists::{Prints, alternatives};
use crate::printer::Printer;
use aq_base::{Body, BodyStatement, Condition, ElseIf, Expr, Handler, List, NoMemory, Returned};
use aq_lex::Symbol;

fn returned(printer: &mut Printer, what: Returned) -> Result<(), NoMemory>
    ensures { OnOk result (printer.new ≡ put printer.old (returned what)) }
{
    match what {
        Returned::Null => printer.word("NULL"),
        Returned::New => printer.word("NEW"),
        Returned::Old => printer.word("OLD"),
    }
}

/// IF or ELSIF, up to THEN.
fn condition_then(printer: &mut Printer, word: &str, condition: &Expr) -> Result<(), NoMemory>
    ensures { OnOk result (printer.new ≡ put_all printer.old (say word.now ∷ (expression condition.now ++ say (codes "THEN") ∷ []))) }
{
    printer.word(word)?;
    expression(printer, condition)?;
    printer.word("THEN")
}

/// Statements, each with its `;`.
#[cycle(bodies)]
fn block(printer: &mut Printer, statements: &List<BodyStatement>) -> Result<(), NoMemory>
    ensures { OnOk result (printer.new ≡ put_all printer.old (block statements.now)) }
{
    for statement in statements.as_slice() {
        body_statement(printer, statement)?;
        printer.mark(Symbol::Semicolon)?;
    }
    Ok(())
}

impl Prints for Condition {
    ghost tokens = { condition };

    fn print(&self, printer: &mut Printer) -> Result<(), NoMemory> {
        match self {
            Condition::Others => printer.word("OTHERS"),
            Condition::SqlState(code) => {
                printer.word("SQLSTATE")?;
                printer.literal_of(&code.0)
            }
            Condition::UniqueViolation => printer.word("unique_violation"),
            Condition::ForeignKeyViolation => printer.word("foreign_key_violation"),
            Condition::NotNullViolation => printer.word("not_null_violation"),
            Condition::RaiseException => printer.word("raise_exception"),
            Condition::SerializationFailure => printer.word("serialization_failure"),
            Condition::DeadlockDetected => printer.word("deadlock_detected"),
        }
    }
}

/// WHEN, its conditions and its statements.
#[cycle(bodies)]
#[tactic(auto, using(crate::proofs::Printing::put_all_append, aq_texts::proofs::Bodies::handler_is))]
fn handler(printer: &mut Printer, h: &Handler) -> Result<(), NoMemory>
    ensures { OnOk result (printer.new ≡ put_all printer.old (handler h.now)) }
{
    printer.word("WHEN")?;
    alternatives(printer, h.conditions.as_slice())?;
    printer.word("THEN")?;
    block(printer, &h.statements)
}

#[cycle(bodies)]
fn each_handler(printer: &mut Printer, handlers: &List<Handler>) -> Result<(), NoMemory>
    ensures { OnOk result (printer.new ≡ put_all printer.old (flat_map handler handlers.now)) }
{
    for h in handlers.as_slice() {
        handler(printer, h)?;
    }
    Ok(())
}

/// EXCEPTION with the handlers, where there are any.
#[cycle(bodies)]
fn exception(printer: &mut Printer, handlers: &List<Handler>) -> Result<(), NoMemory>
    ensures { OnOk result (printer.new ≡ put_all printer.old (exception (map handler handlers.now))) }
{
    if handlers.as_slice().is_empty() {
        return Ok(());
    }
    printer.word("EXCEPTION")?;
    each_handler(printer, handlers)
}

/// The body of a function: its outermost block.
pub fn body(printer: &mut Printer, b: &Body) -> Result<(), NoMemory>
    ensures { OnOk result (printer.new ≡ put_all printer.old (body b.now)) }
{
    printer.word("BEGIN")?;
    block(printer, &b.statements)?;
    exception(printer, &b.handlers)?;
    printer.word("END")
}

#[cycle(bodies)]
fn else_if(printer: &mut Printer, branch: &ElseIf) -> Result<(), NoMemory>
    ensures { OnOk result (printer.new ≡ put_all printer.old (else_if branch.now)) }
{
    condition_then(printer, "ELSIF", &branch.condition)?;
    block(printer, &branch.then)
}

#[cycle(bodies)]
fn else_ifs(printer: &mut Printer, branches: &List<ElseIf>) -> Result<(), NoMemory>
    ensures { OnOk result (printer.new ≡ put_all printer.old (flat_map else_if branches.now)) }
{
    for branch in branches.as_slice() {
        else_if(printer, branch)?;
    }
    Ok(())
}

#[cycle(bodies)]
fn body_statement(printer: &mut Printer, s: &BodyStatement) -> Result<(), NoMemory>
    ensures { OnOk result (printer.new ≡ put_all printer.old (body_statement s.now)) }
{
    match s {
        BodyStatement::If {
            condition,
            then,
            else_ifs: branches,
            otherwise: last,
        } => {
            condition_then(printer, "IF", condition)?;
            block(printer, then)?;
            else_ifs(printer, branches)?;
            match last {
                None => printer.words(&["END", "IF"]),
                Some(found) => {
                    printer.word("ELSE")?;
                    block(printer, found)?;
                    printer.words(&["END", "IF"])
                }
            }
        }
        BodyStatement::Raise(text) => {
            printer.words(&["RAISE", "EXCEPTION"])?;
            printer.literal(text)
        }
        BodyStatement::Return(what) => {
            printer.word("RETURN")?;
            returned(printer, *what)
        }
        BodyStatement::Insert(found) => insert(printer, found),
        BodyStatement::Update(found) => update(printer, found),
        BodyStatement::Delete(found) => delete(printer, found),
        BodyStatement::SetConstraints(found) => set_constraints(printer, found),
        BodyStatement::Block {
            statements,
            handlers,
        } => {
            printer.word("BEGIN")?;
            block(printer, statements)?;
            exception(printer, handlers)?;
            printer.word("END")
        }
    }
}
