//! The value of an expression.

ghost use Rattle.std.specs.Prelude.{◌≡◌, IfOk};
ghost use Rattle.aq_expr.specs.Operators.{truth_of};
ghost use Rattle.aq_expr.specs.Answers.{IsAnswer};
ghost use Rattle.aq_expr.specs.Evaluation.{value_of, truth_in};

use crate::env::Env;
use crate::fault::{Answer, EvalFault};
use crate::leaves::{cell, operation};
use crate::operators::{of_binary, of_unary};
use aq_base::{BoundExpr, Copies, Value};
use std::alloc::{AllocError, Global};

/// The value, or the kind that it is out of the range of. The error is want of memory.
fn answer(alloc: Global, e: &BoundExpr, env: &Env) -> Result<Answer, AllocError>
    ensures { IfOk result (λ given. given ≡ value_of env.now e.now) }
{
    match e {
        BoundExpr::Constant(value) => Ok(Ok(value.copy()?)),
        BoundExpr::Column(column) => Ok(Ok(cell(env.row, *column)?)),
        BoundExpr::Old(column) => Ok(Ok(cell(env.old, *column)?)),
        BoundExpr::New(column) => Ok(Ok(cell(env.new, *column)?)),
        BoundExpr::Operation => Ok(Ok(operation(alloc, env.op)?)),
        BoundExpr::Unary { operator, operand } => {
            Ok(of_unary(*operator, answer(alloc, operand.get(), env)?))
        }
        BoundExpr::Binary {
            left,
            operator,
            right,
        } => Ok(of_binary(
            answer(alloc, left.get(), env)?,
            *operator,
            answer(alloc, right.get(), env)?,
        )),
    }
}

/// The value of an expression. Both operands of each operator are evaluated, the left one first;
/// of two that are out of range the left one is told.
pub fn eval(alloc: Global, e: &BoundExpr, env: &Env) -> Result<Value, EvalFault>
    ensures { IsAnswer result (value_of env.now e.now) }
{
    match answer(alloc, e, env)? {
        Ok(value) => Ok(value),
        Err(kind) => Err(EvalFault::OutOfRange { kind }),
    }
}

fn truth_value(value: &Value) -> Option<bool>
    ensures { result ≡ truth_of value.now }
{
    match value {
        Value::Bool(b) => Some(*b),
        _ => None,
    }
}

/// The truth value of an expression. It is `None` at null, and at a value that is no truth value.
pub fn truth(alloc: Global, e: &BoundExpr, env: &Env) -> Result<Option<bool>, EvalFault>
    ensures { IsAnswer result (truth_in env.now e.now) }
{
    match answer(alloc, e, env)? {
        Ok(value) => Ok(truth_value(&value)),
        Err(kind) => Err(EvalFault::OutOfRange { kind }),
    }
}
