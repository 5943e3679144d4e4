//! The two operands of an operator.
ghost use Rattle.std.specs.Prelude.{◌≡◌};
ghost use Rattle.plain_operations.specs.Operand.{operand_of};
ghost use Rattle.plain_operations.specs.Pair.{pair_in, pair_of};
ghost use Rattle.plain_operations.specs.Shift.{shift_in, shift_of};

use crate::operand::Operand;

/// Two operands, of which an Integer beside a LongInteger is widened.
#[derive(Clone, Copy, Drop)]
pub enum Pair<'a> {
    /// Two Integers.
    Narrow(i32, i32),
    /// Two LongIntegers.
    Wide(i64, i64),
    /// Two Strings.
    Texts(&'a str, &'a str),
    /// Two Booleans.
    Truths(bool, bool),
    /// `invalid` on both sides.
    BothInvalid,
    /// `invalid` on one side.
    OneInvalid,
    /// Any other kinds.
    Mixed,
}

/// A number to be shifted, and the amount.
#[derive(Clone, Copy, Drop)]
pub enum Shift {
    /// An Integer.
    Narrow(i32, i64),
    /// A LongInteger.
    Wide(i64, i64),
    /// Any other kinds.
    NoShift,
}

pub fn pair_operands<'a>(left: Operand<'a>, right: Operand<'a>) -> Pair<'a>
    ensures { pair_of result ≡ pair_in (operand_of left.entry) (operand_of right.entry) }
{
    match (left, right) {
        (Operand::Integer(a), Operand::Integer(b)) => Pair::Narrow(a, b),
        (Operand::Integer(a), Operand::LongInteger(b)) => Pair::Wide(i64::from(a), b),
        (Operand::LongInteger(a), Operand::Integer(b)) => Pair::Wide(a, i64::from(b)),
        (Operand::LongInteger(a), Operand::LongInteger(b)) => Pair::Wide(a, b),
        (Operand::Words(s), Operand::Words(t)) => Pair::Texts(s, t),
        (Operand::Boolean(a), Operand::Boolean(b)) => Pair::Truths(a, b),
        (Operand::Invalid, Operand::Invalid) => Pair::BothInvalid,
        (Operand::Invalid, _) => Pair::OneInvalid,
        (_, Operand::Invalid) => Pair::OneInvalid,
        _ => Pair::Mixed,
    }
}

pub fn shift_operands(left: Operand<'_>, right: Operand<'_>) -> Shift
    ensures { shift_of result ≡ shift_in (operand_of left.entry) (operand_of right.entry) }
{
    match (left, right) {
        (Operand::Integer(n), Operand::Integer(k)) => Shift::Narrow(n, i64::from(k)),
        (Operand::Integer(n), Operand::LongInteger(k)) => Shift::Narrow(n, k),
        (Operand::LongInteger(n), Operand::Integer(k)) => Shift::Wide(n, i64::from(k)),
        (Operand::LongInteger(n), Operand::LongInteger(k)) => Shift::Wide(n, k),
        _ => Shift::NoShift,
    }
}
