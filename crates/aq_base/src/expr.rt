//! Expressions (PostgreSQL manual, chapter "Value Expressions").

ghost use Rattle.std.specs.Prelude.{◌≡◌, IfOk};

use crate::boxed::Boxed;
use crate::copies::Copies;
use crate::same::Same;
use crate::text::TextVal;
use crate::value::Value;
use std::alloc::AllocError;

/// How two values are compared. `<>` and `!=` are one comparison.
#[derive(Clone, Copy, PartialEq, Eq)]
pub enum Comparison {
    Equal,
    Unequal,
    Less,
    AtMost,
    Greater,
    AtLeast,
}

/// An operator with one operand.
#[derive(Clone, Copy, PartialEq, Eq)]
pub enum UnaryOperator {
    /// `- a`
    Negate,
    /// `NOT a`
    Not,
    /// `a IS NULL`
    IsNull,
    /// `a IS NOT NULL`
    IsNotNull,
}

/// An operator with two operands.
#[derive(Clone, Copy, PartialEq, Eq)]
pub enum BinaryOperator {
    /// `a * b`
    Multiply,
    /// `a + b`
    Add,
    /// `a - b`
    Subtract,
    /// `a = b`, or another comparison.
    Compare(Comparison),
    /// `a IS DISTINCT FROM b`
    IsDistinct,
    /// `a IS NOT DISTINCT FROM b`
    IsNotDistinct,
    /// `a AND b`
    And,
    /// `a OR b`
    Or,
}

/// An expression as it was read. Parentheses are gone: the tree says what belongs to what.
#[derive(Drop)]
pub enum Expr {
    /// `NULL`, `TRUE`, `FALSE`, a text or an integer without a sign.
    Constant(Value),
    /// `column`
    Column(TextVal),
    /// `table.column`
    Qualified {
        table: TextVal,
        column: TextVal,
    },
    /// `OLD.column`
    Old(TextVal),
    /// `NEW.column`
    New(TextVal),
    /// `TG_OP`: the operation that fired a trigger.
    Operation,
    Unary {
        operator: UnaryOperator,
        operand: Boxed<Expr>,
    },
    Binary {
        left: Boxed<Expr>,
        operator: BinaryOperator,
        right: Boxed<Expr>,
    },
}

#[cycle(copies)]
fn copy_operand(operand: &Boxed<Expr>) -> Result<Boxed<Expr>, AllocError>
    ensures { IfOk result (λ made. made ≡ operand.now) }
{
    Boxed::new(*operand.allocator(), copy_expr(operand.get())?)
}

#[cycle(copies)]
fn copy_expr(expr: &Expr) -> Result<Expr, AllocError>
    ensures { IfOk result (λ made. made ≡ expr.now) }
{
    match expr {
        Expr::Constant(value) => Ok(Expr::Constant(value.copy()?)),
        Expr::Column(column) => Ok(Expr::Column(column.copy()?)),
        Expr::Qualified { table, column } => Ok(Expr::Qualified {
            table: table.copy()?,
            column: column.copy()?,
        }),
        Expr::Old(column) => Ok(Expr::Old(column.copy()?)),
        Expr::New(column) => Ok(Expr::New(column.copy()?)),
        Expr::Operation => Ok(Expr::Operation),
        Expr::Unary { operator, operand } => Ok(Expr::Unary {
            operator: *operator,
            operand: copy_operand(operand)?,
        }),
        Expr::Binary {
            left,
            operator,
            right,
        } => Ok(Expr::Binary {
            left: copy_operand(left)?,
            operator: *operator,
            right: copy_operand(right)?,
        }),
    }
}

impl Copies for Expr {
    fn copy(&self) -> Result<Self, AllocError> {
        copy_expr(self)
    }
}

impl Same for Expr {
    fn same(&self, other: &Self) -> bool {
        match (self, other) {
            (Expr::Constant(a), Expr::Constant(b)) => a.same(b),
            (Expr::Column(a), Expr::Column(b)) => a.same(b),
            (
                Expr::Qualified { table, column },
                Expr::Qualified {
                    table: other_table,
                    column: other_column,
                },
            ) => table.same(other_table) && column.same(other_column),
            (Expr::Old(a), Expr::Old(b)) => a.same(b),
            (Expr::New(a), Expr::New(b)) => a.same(b),
            (Expr::Operation, Expr::Operation) => true,
            (
                Expr::Unary { operator, operand },
                Expr::Unary {
                    operator: other_operator,
                    operand: other_operand,
                },
            ) => *operator == *other_operator && operand.same(other_operand),
            (
                Expr::Binary {
                    left,
                    operator,
                    right,
                },
                Expr::Binary {
                    left: other_left,
                    operator: other_operator,
                    right: other_right,
                },
            ) => left.same(other_left) && *operator == *other_operator && right.same(other_right),
            _ => false,
        }
    }
}
