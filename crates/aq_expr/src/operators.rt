//! What an operator gives at the values of its operands.

ghost use Rattle.std.specs.Prelude.{◌≡◌};
ghost use Rattle.aq_expr.specs.Operators.{with_value, with_both, unary_of, binary_of};

use crate::arithmetic::{difference, negation, product, sum};
use crate::comparing::{compared, distinct, not_distinct, not_null_test, null_test};
use crate::fault::Answer;
use crate::logic::{conjunction, disjunction, opposite};
use aq_base::{BinaryOperator, UnaryOperator};

pub(crate) fn of_unary(operator: UnaryOperator, operand: Answer) -> Answer
    ensures { result ≡ with_value operand (unary_of operator) }
{
    match operator {
        UnaryOperator::Negate => negation(operand),
        UnaryOperator::Not => opposite(operand),
        UnaryOperator::IsNull => null_test(operand),
        UnaryOperator::IsNotNull => not_null_test(operand),
    }
}

pub(crate) fn of_binary(left: Answer, operator: BinaryOperator, right: Answer) -> Answer
    ensures { result ≡ with_both left right (binary_of operator) }
{
    match operator {
        BinaryOperator::Multiply => product(left, right),
        BinaryOperator::Add => sum(left, right),
        BinaryOperator::Subtract => difference(left, right),
        BinaryOperator::Compare(comparison) => compared(left, comparison, right),
        BinaryOperator::IsDistinct => distinct(left, right),
        BinaryOperator::IsNotDistinct => not_distinct(left, right),
        BinaryOperator::And => conjunction(left, right),
        BinaryOperator::Or => disjunction(left, right),
    }
}
