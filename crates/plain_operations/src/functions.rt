//! What functions of numbers and texts give.
ghost use Rattle.std.specs.Prelude.{◌≡◌, IfOk};
ghost use Rattle.plain_operations.specs.Shape.{shape_of};
ghost use Rattle.plain_operations.specs.Outcome.{outcome_of};
ghost use Rattle.plain_operations.specs.Functions as spec;
ghost use Rattle.plain_operations.specs.Functions.{abs_row, asc_row, chr_row, len_row, left_row, right_row, mid_row, instr_row, lcase_row, ucase_row, str_row, str_to_i_row, taken_row, function_row};

use crate::function::PlainFunction;
use crate::numerals::{count_integer, number_in, spaced_decimal};
use crate::outcome::Outcome;
use crate::parts::{
    character_text, count_characters, first_character, left_part, lower_case, middle_part,
    rest_from, right_part, upper_case,
};
use crate::places::place_in;
use crate::shape::Shape;
use chan_values::{ErrorCode, NoMemory};
use std::alloc::Global;

fn call_abs(arguments: Shape<'_>) -> Outcome
    ensures { outcome_of result ≡ abs_row (shape_of arguments.entry) }
{
    match arguments {
        Shape::Narrow(n) => Outcome::Integer(n.wrapping_abs()),
        Shape::Wide(n) => Outcome::LongInteger(n.wrapping_abs()),
        _ => Outcome::Raised(ErrorCode::E2),
    }
}

fn call_asc(arguments: Shape<'_>) -> Outcome
    ensures { outcome_of result ≡ asc_row (shape_of arguments.entry) }
{
    match arguments {
        Shape::Text(s) => Outcome::Integer(first_character(s)),
        _ => Outcome::Raised(ErrorCode::E2),
    }
}

fn call_chr(alloc: Global, arguments: Shape<'_>) -> Result<Outcome, NoMemory>
    ensures { IfOk result (λ r. outcome_of r ≡ chr_row (shape_of arguments.entry)) }
{
    match arguments {
        Shape::Narrow(n) => Ok(Outcome::Words(character_text(alloc, i64::from(n))?)),
        Shape::Wide(n) => Ok(Outcome::Words(character_text(alloc, n)?)),
        _ => Ok(Outcome::Raised(ErrorCode::E2)),
    }
}

fn call_len(arguments: Shape<'_>) -> Outcome
    ensures { outcome_of result ≡ len_row (shape_of arguments.entry) }
{
    match arguments {
        Shape::Text(s) => Outcome::Integer(count_integer(count_characters(s))),
        _ => Outcome::Raised(ErrorCode::E2),
    }
}

fn call_left(alloc: Global, arguments: Shape<'_>) -> Result<Outcome, NoMemory>
    ensures { IfOk result (λ r. outcome_of r ≡ left_row (shape_of arguments.entry)) }
{
    match arguments {
        Shape::TextNumber(s, n) => Ok(Outcome::Words(left_part(alloc, s, n)?)),
        _ => Ok(Outcome::Raised(ErrorCode::E2)),
    }
}

fn call_right(alloc: Global, arguments: Shape<'_>) -> Result<Outcome, NoMemory>
    ensures { IfOk result (λ r. outcome_of r ≡ right_row (shape_of arguments.entry)) }
{
    match arguments {
        Shape::TextNumber(s, n) => Ok(Outcome::Words(right_part(alloc, s, n)?)),
        _ => Ok(Outcome::Raised(ErrorCode::E2)),
    }
}

fn call_mid(alloc: Global, arguments: Shape<'_>) -> Result<Outcome, NoMemory>
    ensures { IfOk result (λ r. outcome_of r ≡ mid_row (shape_of arguments.entry)) }
{
    match arguments {
        Shape::TextNumber(s, p) => Ok(Outcome::Words(rest_from(alloc, s, p)?)),
        Shape::TextNumbers(s, p, n) => Ok(Outcome::Words(middle_part(alloc, s, p, n)?)),
        _ => Ok(Outcome::Raised(ErrorCode::E2)),
    }
}

fn call_instr(arguments: Shape<'_>) -> Outcome
    ensures { outcome_of result ≡ instr_row (shape_of arguments.entry) }
{
    match arguments {
        Shape::NumberTexts(p, s, t) => Outcome::Integer(count_integer(place_in(p, s, t))),
        _ => Outcome::Raised(ErrorCode::E2),
    }
}

fn call_lcase(alloc: Global, arguments: Shape<'_>) -> Result<Outcome, NoMemory>
    ensures { IfOk result (λ r. outcome_of r ≡ lcase_row (shape_of arguments.entry)) }
{
    match arguments {
        Shape::Text(s) => Ok(Outcome::Words(lower_case(alloc, s)?)),
        _ => Ok(Outcome::Raised(ErrorCode::E2)),
    }
}

fn call_ucase(alloc: Global, arguments: Shape<'_>) -> Result<Outcome, NoMemory>
    ensures { IfOk result (λ r. outcome_of r ≡ ucase_row (shape_of arguments.entry)) }
{
    match arguments {
        Shape::Text(s) => Ok(Outcome::Words(upper_case(alloc, s)?)),
        _ => Ok(Outcome::Raised(ErrorCode::E2)),
    }
}

fn call_str(alloc: Global, arguments: Shape<'_>) -> Result<Outcome, NoMemory>
    ensures { IfOk result (λ r. outcome_of r ≡ str_row (shape_of arguments.entry)) }
{
    match arguments {
        Shape::Narrow(n) => Ok(Outcome::Words(spaced_decimal(alloc, i64::from(n))?)),
        Shape::Wide(n) => Ok(Outcome::Words(spaced_decimal(alloc, n)?)),
        _ => Ok(Outcome::Raised(ErrorCode::E2)),
    }
}

fn call_str_to_i(arguments: Shape<'_>) -> Outcome
    ensures { outcome_of result ≡ str_to_i_row (shape_of arguments.entry) }
{
    match arguments {
        Shape::Text(s) => Outcome::Integer(number_in(s)),
        _ => Outcome::Raised(ErrorCode::E2),
    }
}

/// Whether a function takes this many arguments.
fn takes(function: PlainFunction, count: usize) -> bool
    ensures { result ≡ spec.takes function count }
{
    match function {
        PlainFunction::Left | PlainFunction::Right => count == 2,
        PlainFunction::Mid => count == 2 || count == 3,
        PlainFunction::Instr => count == 3,
        _ => count == 1,
    }
}

fn call_taken(
    alloc: Global,
    function: PlainFunction,
    arguments: Shape<'_>,
) -> Result<Outcome, NoMemory>
    ensures { IfOk result (λ r. outcome_of r ≡ taken_row function (shape_of arguments.entry)) }
{
    match function {
        PlainFunction::Abs => Ok(call_abs(arguments)),
        PlainFunction::Asc => Ok(call_asc(arguments)),
        PlainFunction::Chr => call_chr(alloc, arguments),
        PlainFunction::Len => Ok(call_len(arguments)),
        PlainFunction::Left => call_left(alloc, arguments),
        PlainFunction::Right => call_right(alloc, arguments),
        PlainFunction::Mid => call_mid(alloc, arguments),
        PlainFunction::Instr => Ok(call_instr(arguments)),
        PlainFunction::LCase => call_lcase(alloc, arguments),
        PlainFunction::UCase => call_ucase(alloc, arguments),
        PlainFunction::Str => call_str(alloc, arguments),
        PlainFunction::StrI => call_str(alloc, arguments),
        PlainFunction::StrToI => Ok(call_str_to_i(arguments)),
    }
}

/// What a function gives of a number of arguments with this shape: texts are counted in characters, and places from 1.
/// Errors: E6 for a number of arguments that it doesn't take, and after it E2 for wrong kinds.
///
/// Source: BrightScript Language Reference, "Global String Functions", "Global Math Functions".
pub fn call_function(
    alloc: Global,
    function: PlainFunction,
    count: usize,
    arguments: Shape<'_>,
) -> Result<Outcome, NoMemory>
    ensures { IfOk result (λ r. outcome_of r ≡ function_row function count (shape_of arguments.entry)) }
{
    if takes(function, count) {
        call_taken(alloc, function, arguments)
    } else {
        Ok(Outcome::Raised(ErrorCode::E6))
    }
}
