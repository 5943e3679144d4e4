//! What operators give.
ghost use Rattle.std.specs.Prelude.{◌≡◌, IfOk};
ghost use Rattle.plain_operations.specs.Operand.{operand_of};
ghost use Rattle.plain_operations.specs.Outcome.{outcome_of};
ghost use Rattle.plain_operations.specs.Operators.{operated, operated_alone};

use crate::arithmetic::{add, divide, multiply, negate, remainder, subtract};
use crate::bits::{and, not, or, shift_left, shift_right};
use crate::comparison::{equal, greater, greater_or_equal, less, less_or_equal, not_equal};
use crate::operand::Operand;
use crate::operator::{Operator, UnaryOperator};
use crate::outcome::Outcome;
use crate::pair::{pair_operands, shift_operands};
use chan_values::NoMemory;
use std::alloc::Global;

/// What an operator gives of its two operands: numbers wrap in 32 bits, or in 64 where one is a LongInteger,
/// a quotient is rounded toward zero, and a shift keeps the width of the left side. Errors: E2 for kinds that it
/// doesn't take, E3 for the divisor 0, E12 for a text that would grow past `LONGEST_TEXT` characters.
///
/// Source: BrightScript Language Reference, "Operators".
pub fn operate(
    alloc: Global,
    operator: Operator,
    left: Operand<'_>,
    right: Operand<'_>,
) -> Result<Outcome, NoMemory>
    ensures { IfOk result (λ r. outcome_of r ≡ operated operator (operand_of left.entry) (operand_of right.entry)) }
{
    match operator {
        Operator::Add => add(alloc, pair_operands(left, right)),
        Operator::Subtract => Ok(subtract(pair_operands(left, right))),
        Operator::Multiply => Ok(multiply(pair_operands(left, right))),
        Operator::Divide => Ok(divide(pair_operands(left, right))),
        Operator::Remainder => Ok(remainder(pair_operands(left, right))),
        Operator::ShiftLeft => Ok(shift_left(shift_operands(left, right))),
        Operator::ShiftRight => Ok(shift_right(shift_operands(left, right))),
        Operator::And => Ok(and(pair_operands(left, right))),
        Operator::Or => Ok(or(pair_operands(left, right))),
        Operator::Less => Ok(less(pair_operands(left, right))),
        Operator::Greater => Ok(greater(pair_operands(left, right))),
        Operator::LessOrEqual => Ok(less_or_equal(pair_operands(left, right))),
        Operator::GreaterOrEqual => Ok(greater_or_equal(pair_operands(left, right))),
        Operator::Equal => Ok(equal(pair_operands(left, right))),
        Operator::NotEqual => Ok(not_equal(pair_operands(left, right))),
    }
}

/// What an operator before its one operand gives. Error: E2 for a kind that it doesn't take.
///
/// Source: BrightScript Language Reference, "Operators".
pub fn operate_alone(operator: UnaryOperator, operand: Operand<'_>) -> Outcome
    ensures { outcome_of result ≡ operated_alone operator (operand_of operand.entry) }
{
    match operator {
        UnaryOperator::Negate => negate(operand),
        UnaryOperator::Not => not(operand),
    }
}
