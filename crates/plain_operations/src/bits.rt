//! Shifts, and operators on bits and Booleans.
ghost use Rattle.std.specs.Prelude.{◌≡◌};
ghost use Rattle.std.specs.Int.{w32, w64};
ghost use Rattle.plain_operations.specs.Pair.{pair_of};
ghost use Rattle.plain_operations.specs.Shift.{shift_of};
ghost use Rattle.plain_operations.specs.Outcome.{outcome_of};
ghost use Rattle.plain_operations.specs.Operand.{operand_of};
ghost use Rattle.plain_operations.specs.Operators.{shifted_left, shifted_right, shift_left_row, shift_right_row, and_row, or_row, not_row};

use crate::operand::Operand;
use crate::outcome::Outcome;
use crate::pair::{Pair, Shift};
use chan_values::ErrorCode;

fn left_integer(n: i32, amount: i64) -> i32
    ensures { result ≡ shifted_left w32 n amount }
{
    if amount < 0 || amount >= 32 {
        0
    } else {
        n << amount
    }
}

fn left_long_integer(n: i64, amount: i64) -> i64
    ensures { result ≡ shifted_left w64 n amount }
{
    if amount < 0 || amount >= 64 {
        0
    } else {
        n << amount
    }
}

fn right_integer(n: i32, amount: i64) -> i32
    ensures { result ≡ shifted_right w32 n amount }
{
    if amount < 0 || amount >= 32 {
        0
    } else {
        (n.cast_unsigned() >> amount).cast_signed()
    }
}

fn right_long_integer(n: i64, amount: i64) -> i64
    ensures { result ≡ shifted_right w64 n amount }
{
    if amount < 0 || amount >= 64 {
        0
    } else {
        (n.cast_unsigned() >> amount).cast_signed()
    }
}

pub fn shift_left(operands: Shift) -> Outcome
    ensures { outcome_of result ≡ shift_left_row (shift_of operands) }
{
    match operands {
        Shift::Narrow(n, amount) => Outcome::Integer(left_integer(n, amount)),
        Shift::Wide(n, amount) => Outcome::LongInteger(left_long_integer(n, amount)),
        Shift::NoShift => Outcome::Raised(ErrorCode::E2),
    }
}

pub fn shift_right(operands: Shift) -> Outcome
    ensures { outcome_of result ≡ shift_right_row (shift_of operands) }
{
    match operands {
        Shift::Narrow(n, amount) => Outcome::Integer(right_integer(n, amount)),
        Shift::Wide(n, amount) => Outcome::LongInteger(right_long_integer(n, amount)),
        Shift::NoShift => Outcome::Raised(ErrorCode::E2),
    }
}

pub fn and(operands: Pair<'_>) -> Outcome
    ensures { outcome_of result ≡ and_row (pair_of operands.entry) }
{
    match operands {
        Pair::Truths(a, b) => Outcome::Boolean(a && b),
        Pair::Narrow(a, b) => Outcome::Integer(a & b),
        Pair::Wide(a, b) => Outcome::LongInteger(a & b),
        _ => Outcome::Raised(ErrorCode::E2),
    }
}

pub fn or(operands: Pair<'_>) -> Outcome
    ensures { outcome_of result ≡ or_row (pair_of operands.entry) }
{
    match operands {
        Pair::Truths(a, b) => Outcome::Boolean(a || b),
        Pair::Narrow(a, b) => Outcome::Integer(a | b),
        Pair::Wide(a, b) => Outcome::LongInteger(a | b),
        _ => Outcome::Raised(ErrorCode::E2),
    }
}

pub fn not(operand: Operand<'_>) -> Outcome
    ensures { outcome_of result ≡ not_row (operand_of operand.entry) }
{
    match operand {
        Operand::Boolean(b) => Outcome::Boolean(!b),
        Operand::Integer(n) => Outcome::Integer(!n),
        Operand::LongInteger(n) => Outcome::LongInteger(!n),
        _ => Outcome::Raised(ErrorCode::E2),
    }
}
