//! Left operands that decide alone, and conditions.
ghost use Rattle.std.specs.Prelude.{◌≡◌};
ghost use Rattle.plain_operations.specs.Operand.{operand_of};
ghost use Rattle.plain_operations.specs.Deciding as spec;

use crate::operand::Operand;

/// Whether the left operand of `and` is the result, so that the right one isn't evaluated.
pub fn decides_and(left: Operand<'_>) -> bool
    ensures { result ≡ spec.decides_and (operand_of left.entry) }
{
    match left {
        Operand::Boolean(b) => !b,
        _ => false,
    }
}

/// Whether the left operand of `or` is the result, so that the right one isn't evaluated.
pub fn decides_or(left: Operand<'_>) -> bool
    ensures { result ≡ spec.decides_or (operand_of left.entry) }
{
    match left {
        Operand::Boolean(b) => b,
        _ => false,
    }
}

/// Whether a condition of `if` or `while` holds, `None` exactly where the value is no condition, which raises E2.
pub fn condition(value: Operand<'_>) -> Option<bool>
    ensures { result ≡ spec.condition (operand_of value.entry) }
{
    match value {
        Operand::Boolean(b) => Some(b),
        _ => None,
    }
}
