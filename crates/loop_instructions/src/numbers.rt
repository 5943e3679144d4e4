//! Numbers of a `for`.
ghost use Rattle.std.specs.Prelude.{◌≡◌};
ghost use Rattle.brs_meaning.specs.Statements.{within};
ghost use Rattle.loop_instructions.specs.Numbers.{integer, number_in, plain_number, range_in, sum, sum_in};

use brs_heap::Plain;

/// An Integer or a LongInteger.
#[derive(Clone, Copy, Debug, PartialEq, Eq)]
pub(crate) enum Number {
    Small(i32),
    Big(i64),
}

/// Where a `for` begins or stands, where it ends, and its step.
#[derive(Clone, Copy, Debug, PartialEq, Eq)]
pub(crate) struct Range {
    pub start: Number,
    pub end: Number,
    pub step: Number,
}

/// The number that a plain value is, `None` exactly where it is none.
pub(crate) fn number_of(plain: Option<Plain>) -> Option<Number>
    ensures { result ≡ number_in plain }
{
    match plain {
        Some(Plain::Small(n)) => Some(Number::Small(n)),
        Some(Plain::Big(n)) => Some(Number::Big(n)),
        _ => None,
    }
}

/// The number as a plain value.
pub(crate) fn plain_of(number: Number) -> Plain
    ensures { result ≡ plain_number number }
{
    match number {
        Number::Small(n) => Plain::Small(n),
        Number::Big(n) => Plain::Big(n),
    }
}

/// The number in 64 bits.
fn widened(number: Number) -> i64
    ensures { result ≡ integer number }
{
    match number {
        Number::Small(n) => i64::from(n),
        Number::Big(n) => n,
    }
}

/// Three numbers, where all three are.
pub(crate) fn range_of(
    start: Option<Number>,
    end: Option<Number>,
    step: Option<Number>,
) -> Option<Range>
    ensures { result ≡ range_in start end step }
{
    let Some(start) = start else { return None };
    let Some(end) = end else { return None };
    let Some(step) = step else { return None };
    Some(Range { start, end, step })
}

/// Whether a `for` that stands there goes on: up to its end where the step isn't negative, else down to it.
pub(crate) fn goes_on(range: Range) -> bool
    ensures { result ≡ within (integer range.start) (integer range.end) (integer range.step) }
{
    let now = widened(range.start);
    let end = widened(range.end);
    if widened(range.step) < 0 {
        end <= now
    } else {
        now <= end
    }
}

/// Two numbers added, in 32 bits, or in 64 where one of them is a LongInteger.
#[tactic(auto, using(crate::proofs::Wraps::wraps))]
fn added(a: Number, b: Number) -> Number
    ensures { result ≡ sum a b }
{
    match (a, b) {
        (Number::Small(a), Number::Small(b)) => Number::Small(a.wrapping_add(b)),
        (Number::Small(a), Number::Big(b)) => Number::Big(i64::from(a).wrapping_add(b)),
        (Number::Big(a), Number::Small(b)) => Number::Big(a.wrapping_add(i64::from(b))),
        (Number::Big(a), Number::Big(b)) => Number::Big(a.wrapping_add(b)),
    }
}

/// The sum, where both are numbers.
pub(crate) fn sum_of(a: Option<Number>, b: Option<Number>) -> Option<Number>
    ensures { result ≡ sum_in a b }
{
    let Some(a) = a else { return None };
    let Some(b) = b else { return None };
    Some(added(a, b))
}
