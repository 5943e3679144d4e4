//! Sums, differences, products, quotients and remainders.
ghost use Rattle.std.specs.Prelude.{◌≡◌, ◌++◌, length, nat_le, IfOk};
ghost use Rattle.std.specs.Str.{chars};
ghost use Rattle.plain_operations.specs.Limits.{longest_text};
ghost use Rattle.plain_operations.specs.Pair.{Narrow, Wide, pair_of};
ghost use Rattle.plain_operations.specs.Outcome.{outcome_of};
ghost use Rattle.plain_operations.specs.Operand.{operand_of};
ghost use Rattle.plain_operations.specs.Operators.{joined, add_row, subtract_row, multiply_row, divide_row, remainder_row, negate_row};

use crate::limits::LONGEST_TEXT;
use crate::operand::Operand;
use crate::outcome::Outcome;
use crate::pair::Pair;
use crate::parts::count_characters;
use chan_values::{ErrorCode, NoMemory, Text};
use std::alloc::Global;

/// Whether a text after another is not too long. The number of bytes is at least that of characters, and is known at once.
fn fits(s: &str, t: &str) -> bool
    ensures { result ≡ nat_le (length (chars (s.now ++ t.now))) longest_text }
{
    if s.len() <= LONGEST_TEXT / 2 && t.len() <= LONGEST_TEXT / 2 {
        return true;
    }
    let count = count_characters(s);
    count <= LONGEST_TEXT && count_characters(t) <= LONGEST_TEXT - count
}

/// A text after another, or E12 where both together are too long.
fn join(alloc: Global, s: &str, t: &str) -> Result<Outcome, NoMemory>
    ensures { IfOk result (λ r. outcome_of r ≡ joined s.now t.now) }
{
    if !fits(s, t) {
        return Ok(Outcome::Raised(ErrorCode::E12));
    }
    let mut text = Text::new(alloc);
    text.push_str(s)?;
    text.push_str(t)?;
    Ok(Outcome::Words(text))
}

#[tactic(auto, using(crate::proofs::Wraps::wraps))]
pub fn add(alloc: Global, operands: Pair<'_>) -> Result<Outcome, NoMemory>
    ensures { IfOk result (λ r. outcome_of r ≡ add_row (pair_of operands.entry)) }
{
    match operands {
        Pair::Narrow(a, b) => Ok(Outcome::Integer(a.wrapping_add(b))),
        Pair::Wide(a, b) => Ok(Outcome::LongInteger(a.wrapping_add(b))),
        Pair::Texts(s, t) => join(alloc, s, t),
        _ => Ok(Outcome::Raised(ErrorCode::E2)),
    }
}

#[tactic(auto, using(crate::proofs::Wraps::wraps))]
pub fn subtract(operands: Pair<'_>) -> Outcome
    ensures { outcome_of result ≡ subtract_row (pair_of operands.entry) }
{
    match operands {
        Pair::Narrow(a, b) => Outcome::Integer(a.wrapping_sub(b)),
        Pair::Wide(a, b) => Outcome::LongInteger(a.wrapping_sub(b)),
        _ => Outcome::Raised(ErrorCode::E2),
    }
}

#[tactic(auto, using(crate::proofs::Wraps::wraps))]
pub fn multiply(operands: Pair<'_>) -> Outcome
    ensures { outcome_of result ≡ multiply_row (pair_of operands.entry) }
{
    match operands {
        Pair::Narrow(a, b) => Outcome::Integer(a.wrapping_mul(b)),
        Pair::Wide(a, b) => Outcome::LongInteger(a.wrapping_mul(b)),
        _ => Outcome::Raised(ErrorCode::E2),
    }
}

fn divide_integers(a: i32, b: i32) -> Outcome
    ensures { outcome_of result ≡ divide_row (Narrow a b) }
{
    if b == 0 {
        return Outcome::Raised(ErrorCode::E3);
    }
    Outcome::Integer(a.wrapping_div(b))
}

fn divide_long_integers(a: i64, b: i64) -> Outcome
    ensures { outcome_of result ≡ divide_row (Wide a b) }
{
    if b == 0 {
        return Outcome::Raised(ErrorCode::E3);
    }
    Outcome::LongInteger(a.wrapping_div(b))
}

pub fn divide(operands: Pair<'_>) -> Outcome
    ensures { outcome_of result ≡ divide_row (pair_of operands.entry) }
{
    match operands {
        Pair::Narrow(a, b) => divide_integers(a, b),
        Pair::Wide(a, b) => divide_long_integers(a, b),
        _ => Outcome::Raised(ErrorCode::E2),
    }
}

pub fn remainder(operands: Pair<'_>) -> Outcome
    ensures { outcome_of result ≡ remainder_row (pair_of operands.entry) }
{
    match operands {
        Pair::Narrow(_, 0) | Pair::Wide(_, 0) => Outcome::Raised(ErrorCode::E3),
        Pair::Narrow(a, b) => Outcome::Integer(a.wrapping_rem(b)),
        Pair::Wide(a, b) => Outcome::LongInteger(a.wrapping_rem(b)),
        _ => Outcome::Raised(ErrorCode::E2),
    }
}

#[tactic(auto, using(crate::proofs::Wraps::wraps))]
pub fn negate(operand: Operand<'_>) -> Outcome
    ensures { outcome_of result ≡ negate_row (operand_of operand.entry) }
{
    match operand {
        Operand::Integer(n) => Outcome::Integer(n.wrapping_neg()),
        Operand::LongInteger(n) => Outcome::LongInteger(n.wrapping_neg()),
        _ => Outcome::Raised(ErrorCode::E2),
    }
}
