//! What methods of texts, numbers and Booleans give.
ghost use Rattle.std.specs.Prelude.{◌≡◌, IfOk};
ghost use Rattle.plain_operations.specs.Operand.{operand_of};
ghost use Rattle.plain_operations.specs.Outcome.{outcome_of};
ghost use Rattle.plain_operations.specs.Methods as spec;
ghost use Rattle.plain_operations.specs.Methods.{to_str_row, to_int_row, len_row, trim_row, method_value, method_row};

use crate::method::PlainMethod;
use crate::numerals::{count_integer, decimal_text, number_in, truth_text};
use crate::operand::Operand;
use crate::outcome::Outcome;
use crate::parts::{copy_text, count_characters};
use crate::trim::trimmed;
use chan_values::{ErrorCode, NoMemory};
use std::alloc::Global;

fn call_to_str(alloc: Global, receiver: Operand<'_>) -> Result<Outcome, NoMemory>
    ensures { IfOk result (λ r. outcome_of r ≡ to_str_row (operand_of receiver.entry)) }
{
    match receiver {
        Operand::Boolean(b) => Ok(Outcome::Words(truth_text(alloc, b)?)),
        Operand::Integer(n) => Ok(Outcome::Words(decimal_text(alloc, i64::from(n))?)),
        Operand::LongInteger(n) => Ok(Outcome::Words(decimal_text(alloc, n)?)),
        Operand::Words(s) => Ok(Outcome::Words(copy_text(alloc, s)?)),
        _ => Ok(Outcome::Raised(ErrorCode::E4)),
    }
}

fn call_to_int(receiver: Operand<'_>) -> Outcome
    ensures { outcome_of result ≡ to_int_row (operand_of receiver.entry) }
{
    match receiver {
        Operand::Words(s) => Outcome::Integer(number_in(s)),
        _ => Outcome::Raised(ErrorCode::E4),
    }
}

fn call_len(receiver: Operand<'_>) -> Outcome
    ensures { outcome_of result ≡ len_row (operand_of receiver.entry) }
{
    match receiver {
        Operand::Words(s) => Outcome::Integer(count_integer(count_characters(s))),
        _ => Outcome::Raised(ErrorCode::E4),
    }
}

fn call_trim(alloc: Global, receiver: Operand<'_>) -> Result<Outcome, NoMemory>
    ensures { IfOk result (λ r. outcome_of r ≡ trim_row (operand_of receiver.entry)) }
{
    match receiver {
        Operand::Words(s) => Ok(Outcome::Words(trimmed(alloc, s)?)),
        _ => Ok(Outcome::Raised(ErrorCode::E4)),
    }
}

/// Whether a value has a method.
pub fn has_method(method: PlainMethod, receiver: Operand<'_>) -> bool
    ensures { result ≡ spec.has_method method (operand_of receiver.entry) }
{
    match receiver {
        Operand::Words(_) => true,
        Operand::Boolean(_) | Operand::Integer(_) | Operand::LongInteger(_) => {
            matches!(method, PlainMethod::ToStr)
        }
        _ => false,
    }
}

/// The error of a member that a value doesn't have: E7 for `invalid`, else E4.
pub fn member_error(receiver: Operand<'_>) -> ErrorCode
    ensures { result ≡ spec.member_error (operand_of receiver.entry) }
{
    match receiver {
        Operand::Invalid => ErrorCode::E7,
        _ => ErrorCode::E4,
    }
}

fn call_taken(
    alloc: Global,
    method: PlainMethod,
    receiver: Operand<'_>,
) -> Result<Outcome, NoMemory>
    ensures { IfOk result (λ r. outcome_of r ≡ method_value method (operand_of receiver.entry)) }
{
    match method {
        PlainMethod::ToStr => call_to_str(alloc, receiver),
        PlainMethod::ToInt => Ok(call_to_int(receiver)),
        PlainMethod::Len => Ok(call_len(receiver)),
        PlainMethod::Trim => call_trim(alloc, receiver),
    }
}

/// What a call of a method with a number of arguments gives. Errors: E7 on `invalid`, E4 on any other value without
/// the method, and after these E6 for any argument.
///
/// Source: BrightScript reference, "ifString", "ifStringOps", "ifToStr".
pub fn call_method(
    alloc: Global,
    method: PlainMethod,
    receiver: Operand<'_>,
    count: usize,
) -> Result<Outcome, NoMemory>
    ensures { IfOk result (λ r. outcome_of r ≡ method_row method (operand_of receiver.entry) count) }
{
    if !has_method(method, receiver) {
        return Ok(Outcome::Raised(member_error(receiver)));
    }
    if count == 0 {
        call_taken(alloc, method, receiver)
    } else {
        Ok(Outcome::Raised(ErrorCode::E6))
    }
}
