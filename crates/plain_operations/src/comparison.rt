//! Comparisons.
ghost use Rattle.std.specs.Prelude.{◌≡◌};
ghost use Rattle.plain_operations.specs.Pair.{pair_of};
ghost use Rattle.plain_operations.specs.Outcome.{outcome_of};
ghost use Rattle.plain_operations.specs.Operators as spec;
ghost use Rattle.plain_operations.specs.Operators.{less_row, greater_row, less_or_equal_row, greater_or_equal_row, equal_row, not_equal_row};

use crate::outcome::Outcome;
use crate::pair::Pair;
use chan_values::ErrorCode;

/// Whether a text comes before another by their bytes.
fn text_less(s: &str, t: &str) -> bool
    ensures { result ≡ spec.text_less s.now t.now }
{
    s.as_bytes().cmp(t.as_bytes()).is_lt()
}

pub fn less(operands: Pair<'_>) -> Outcome
    ensures { outcome_of result ≡ less_row (pair_of operands.entry) }
{
    match operands {
        Pair::Narrow(a, b) => Outcome::Boolean(a < b),
        Pair::Wide(a, b) => Outcome::Boolean(a < b),
        Pair::Texts(s, t) => Outcome::Boolean(text_less(s, t)),
        _ => Outcome::Raised(ErrorCode::E2),
    }
}

pub fn greater(operands: Pair<'_>) -> Outcome
    ensures { outcome_of result ≡ greater_row (pair_of operands.entry) }
{
    match operands {
        Pair::Narrow(a, b) => Outcome::Boolean(a > b),
        Pair::Wide(a, b) => Outcome::Boolean(a > b),
        Pair::Texts(s, t) => Outcome::Boolean(text_less(t, s)),
        _ => Outcome::Raised(ErrorCode::E2),
    }
}

pub fn less_or_equal(operands: Pair<'_>) -> Outcome
    ensures { outcome_of result ≡ less_or_equal_row (pair_of operands.entry) }
{
    match operands {
        Pair::Narrow(a, b) => Outcome::Boolean(a <= b),
        Pair::Wide(a, b) => Outcome::Boolean(a <= b),
        Pair::Texts(s, t) => Outcome::Boolean(!text_less(t, s)),
        _ => Outcome::Raised(ErrorCode::E2),
    }
}

pub fn greater_or_equal(operands: Pair<'_>) -> Outcome
    ensures { outcome_of result ≡ greater_or_equal_row (pair_of operands.entry) }
{
    match operands {
        Pair::Narrow(a, b) => Outcome::Boolean(a >= b),
        Pair::Wide(a, b) => Outcome::Boolean(a >= b),
        Pair::Texts(s, t) => Outcome::Boolean(!text_less(s, t)),
        _ => Outcome::Raised(ErrorCode::E2),
    }
}

pub fn equal(operands: Pair<'_>) -> Outcome
    ensures { outcome_of result ≡ equal_row (pair_of operands.entry) }
{
    match operands {
        Pair::Narrow(a, b) => Outcome::Boolean(a == b),
        Pair::Wide(a, b) => Outcome::Boolean(a == b),
        Pair::Texts(s, t) => Outcome::Boolean(s == t),
        Pair::Truths(a, b) => Outcome::Boolean(a == b),
        Pair::BothInvalid => Outcome::Boolean(true),
        Pair::OneInvalid => Outcome::Boolean(false),
        Pair::Mixed => Outcome::Raised(ErrorCode::E2),
    }
}

pub fn not_equal(operands: Pair<'_>) -> Outcome
    ensures { outcome_of result ≡ not_equal_row (pair_of operands.entry) }
{
    match operands {
        Pair::Narrow(a, b) => Outcome::Boolean(a != b),
        Pair::Wide(a, b) => Outcome::Boolean(a != b),
        Pair::Texts(s, t) => Outcome::Boolean(s != t),
        Pair::Truths(a, b) => Outcome::Boolean(a != b),
        Pair::BothInvalid => Outcome::Boolean(false),
        Pair::OneInvalid => Outcome::Boolean(true),
        Pair::Mixed => Outcome::Raised(ErrorCode::E2),
    }
}
