//! Constants and expressions.
#![tactic(auto, using(crate::proofs::Printing::put_all_append))]

ghost use Rattle.std.specs.Prelude.{◌≡◌, ◌∷◌, ◌++◌, [], OnOk};
ghost use Rattle.aq_texts.specs.Canon.{integer, constant, comparison, unary, infix_words, expression, printed, operand};
ghost use Rattle.aq_texts.specs.Written.{Mark, Name};
ghost use Rattle.aq_lex.specs.declared.token.Symbol.TheVariants.{Dot};
ghost use Rattle.aq_print.specs.Printing.{put, put_all};

use crate::lists::Prints;
use crate::printer::Printer;
use aq_base::{BinaryOperator, Boxed, Comparison, Expr, NoMemory, TextVal, UnaryOperator, Value};
use aq_lex::Symbol;

fn integer(printer: &mut Printer, n: i64) -> Result<(), NoMemory>
    ensures { OnOk result (printer.new ≡ put_all printer.old (integer n)) }
{
    if n < 0 {
        printer.sign()?;
    }
    printer.number(n.unsigned_abs())
}

/// A constant.
pub fn constant(printer: &mut Printer, value: &Value) -> Result<(), NoMemory>
    ensures { OnOk result (printer.new ≡ put_all printer.old (constant value.now)) }
{
    match value {
        Value::Null => printer.word("NULL"),
        Value::Bool(true) => printer.word("TRUE"),
        Value::Bool(false) => printer.word("FALSE"),
        Value::Int(n) => integer(printer, *n),
        Value::Text(text) => printer.literal(text),
    }
}

fn comparison(printer: &mut Printer, sign: Comparison) -> Result<(), NoMemory>
    ensures { OnOk result (printer.new ≡ put printer.old (comparison sign)) }
{
    match sign {
        Comparison::Equal => printer.mark(Symbol::Equal),
        Comparison::Unequal => printer.mark(Symbol::Unequal),
        Comparison::Less => printer.mark(Symbol::Less),
        Comparison::AtMost => printer.mark(Symbol::AtMost),
        Comparison::Greater => printer.mark(Symbol::Greater),
        Comparison::AtLeast => printer.mark(Symbol::AtLeast),
    }
}

/// The words of an operator between its operands.
fn infix_words(printer: &mut Printer, operator: BinaryOperator) -> Result<(), NoMemory>
    ensures { OnOk result (printer.new ≡ put_all printer.old (infix_words operator)) }
{
    match operator {
        BinaryOperator::Multiply => printer.mark(Symbol::Times),
        BinaryOperator::Add => printer.mark(Symbol::Plus),
        BinaryOperator::Subtract => printer.mark(Symbol::Minus),
        BinaryOperator::Compare(sign) => comparison(printer, sign),
        BinaryOperator::IsDistinct => printer.words(&["IS", "DISTINCT", "FROM"]),
        BinaryOperator::IsNotDistinct => printer.words(&["IS", "NOT", "DISTINCT", "FROM"]),
        BinaryOperator::And => printer.word("AND"),
        BinaryOperator::Or => printer.word("OR"),
    }
}

/// Whether no operator is outermost.
fn is_atom(expr: &Expr) -> bool
    ensures { result ≡ (printed expr.now).is_atom }
{
    match expr {
        Expr::Constant(_)
        | Expr::Column(_)
        | Expr::Qualified { .. }
        | Expr::Old(_)
        | Expr::New(_)
        | Expr::Operation => true,
        Expr::Unary { .. } | Expr::Binary { .. } => false,
    }
}

/// A column of what stands before it.
fn column_of(printer: &mut Printer, column: &TextVal) -> Result<(), NoMemory>
    ensures { OnOk result (printer.new ≡ put_all printer.old (Mark Dot ∷ Name column.now ∷ [])) }
{
    printer.mark(Symbol::Dot)?;
    printer.name(column)
}

/// An operand, which stands in parentheses where it is an operator itself.
#[cycle(expressions)]
fn operand(printer: &mut Printer, boxed: &Boxed<Expr>) -> Result<(), NoMemory>
    ensures { OnOk result (printer.new ≡ put_all printer.old (operand (printed boxed.now))) }
{
    let expr = boxed.get();
    if is_atom(expr) {
        return expression(printer, expr);
    }
    printer.mark(Symbol::OpenParen)?;
    expression(printer, expr)?;
    printer.mark(Symbol::CloseParen)
}

/// An operator with its operand.
#[cycle(expressions)]
fn unary(
    printer: &mut Printer,
    operator: UnaryOperator,
    boxed: &Boxed<Expr>,
) -> Result<(), NoMemory>
    ensures { OnOk result (printer.new ≡ put_all printer.old (unary operator (printed boxed.now)).tokens) }
{
    match operator {
        UnaryOperator::Negate => {
            printer.sign()?;
            operand(printer, boxed)
        }
        UnaryOperator::Not => {
            printer.word("NOT")?;
            operand(printer, boxed)
        }
        UnaryOperator::IsNull => {
            operand(printer, boxed)?;
            printer.words(&["IS", "NULL"])
        }
        UnaryOperator::IsNotNull => {
            operand(printer, boxed)?;
            printer.words(&["IS", "NOT", "NULL"])
        }
    }
}

/// An operator between its operands.
#[cycle(expressions)]
fn between(
    printer: &mut Printer,
    left: &Boxed<Expr>,
    operator: BinaryOperator,
    right: &Boxed<Expr>,
) -> Result<(), NoMemory>
    ensures { OnOk result (printer.new ≡ put_all printer.old (operand (printed left.now) ++ (infix_words operator ++ operand (printed right.now)))) }
{
    operand(printer, left)?;
    infix_words(printer, operator)?;
    operand(printer, right)
}

/// An expression.
#[cycle(expressions)]
pub fn expression(printer: &mut Printer, expr: &Expr) -> Result<(), NoMemory>
    ensures { OnOk result (printer.new ≡ put_all printer.old (expression expr.now)) }
{
    match expr {
        Expr::Constant(value) => constant(printer, value),
        Expr::Column(column) => printer.name(column),
        Expr::Qualified { table, column } => {
            printer.name(table)?;
            column_of(printer, column)
        }
        Expr::Old(column) => {
            printer.word("OLD")?;
            column_of(printer, column)
        }
        Expr::New(column) => {
            printer.word("NEW")?;
            column_of(printer, column)
        }
        Expr::Operation => printer.word("TG_OP"),
        Expr::Unary { operator, operand } => unary(printer, *operator, operand),
        Expr::Binary {
            left,
            operator,
            right,
        } => between(printer, left, *operator, right),
    }
}

impl Prints for Expr {
    ghost tokens = { expression };

    fn print(&self, printer: &mut Printer) -> Result<(), NoMemory> {
        expression(printer, self)
    }
}
