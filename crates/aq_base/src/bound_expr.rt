ghost use Rattle.std.specs.Prelude.{◌≡◌, IfOk};

use crate::boxed::Boxed;
use crate::copies::Copies;
use crate::expr::{BinaryOperator, UnaryOperator};
use crate::numbers::ColNo;
use crate::same::Same;
use crate::value::Value;
use std::alloc::{AllocError, Global};

/// An expression in which each column is a number of the table that it belongs to
/// (PostgreSQL manual, chapter "Value Expressions").
#[derive(Drop)]
pub enum BoundExpr {
    Constant(Value),
    /// A column of the row at hand.
    Column(ColNo),
    /// `OLD.column`
    Old(ColNo),
    /// `NEW.column`
    New(ColNo),
    /// `TG_OP`: the operation that fired a trigger.
    Operation,
    Unary {
        operator: UnaryOperator,
        operand: Boxed<BoundExpr>,
    },
    Binary {
        left: Boxed<BoundExpr>,
        operator: BinaryOperator,
        right: Boxed<BoundExpr>,
    },
}

#[cycle(copies)]
fn copy_operand(alloc: Global, operand: &Boxed<BoundExpr>) -> Result<Boxed<BoundExpr>, AllocError>
    ensures { IfOk result (λ made. made ≡ operand.now) }
{
    Boxed::new(alloc, copy_bound(alloc, operand.get())?)
}

/// An equal expression. The error is want of memory.
#[cycle(copies)]
pub fn copy_bound(alloc: Global, expr: &BoundExpr) -> Result<BoundExpr, AllocError>
    ensures { IfOk result (λ made. made ≡ expr.now) }
{
    match expr {
        BoundExpr::Constant(value) => Ok(BoundExpr::Constant(value.copy()?)),
        BoundExpr::Column(column) => Ok(BoundExpr::Column(*column)),
        BoundExpr::Old(column) => Ok(BoundExpr::Old(*column)),
        BoundExpr::New(column) => Ok(BoundExpr::New(*column)),
        BoundExpr::Operation => Ok(BoundExpr::Operation),
        BoundExpr::Unary { operator, operand } => Ok(BoundExpr::Unary {
            operator: *operator,
            operand: copy_operand(alloc, operand)?,
        }),
        BoundExpr::Binary {
            left,
            operator,
            right,
        } => Ok(BoundExpr::Binary {
            left: copy_operand(alloc, left)?,
            operator: *operator,
            right: copy_operand(alloc, right)?,
        }),
    }
}

impl Same for BoundExpr {
    fn same(&self, other: &Self) -> bool {
        match (self, other) {
            (BoundExpr::Constant(a), BoundExpr::Constant(b)) => a.same(b),
            (BoundExpr::Column(a), BoundExpr::Column(b)) => *a == *b,
            (BoundExpr::Old(a), BoundExpr::Old(b)) => *a == *b,
            (BoundExpr::New(a), BoundExpr::New(b)) => *a == *b,
            (BoundExpr::Operation, BoundExpr::Operation) => true,
            (
                BoundExpr::Unary { operator, operand },
                BoundExpr::Unary {
                    operator: other_operator,
                    operand: other_operand,
                },
            ) => *operator == *other_operator && operand.same(other_operand),
            (
                BoundExpr::Binary {
                    left,
                    operator,
                    right,
                },
                BoundExpr::Binary {
                    left: other_left,
                    operator: other_operator,
                    right: other_right,
                },
            ) => left.same(other_left) && *operator == *other_operator && right.same(other_right),
            _ => false,
        }
    }
}
