//! The arguments of a function of numbers and texts.
ghost use Rattle.std.specs.Prelude.{◌≡◌};
ghost use Rattle.plain_operations.specs.Operand.{operand_of};
ghost use Rattle.plain_operations.specs.Shape as spec;
ghost use Rattle.plain_operations.specs.Shape.{argued, argument_of, shape_of};

use crate::operand::Operand;

/// A number of either width, a String, or another value.
#[derive(Clone, Copy, Drop)]
pub enum Argument<'a> {
    /// An Integer or a LongInteger.
    Numeral(i64),
    /// A String.
    Phrase(&'a str),
    /// Any other value.
    Neither,
}

/// The arguments of a function of numbers and texts, by their kinds.
#[derive(Clone, Copy, Drop)]
pub enum Shape<'a> {
    /// An Integer.
    Narrow(i32),
    /// A LongInteger.
    Wide(i64),
    /// A String.
    Text(&'a str),
    /// A String and a number.
    TextNumber(&'a str, i64),
    /// A String and two numbers.
    TextNumbers(&'a str, i64, i64),
    /// A number and two Strings.
    NumberTexts(i64, &'a str, &'a str),
    /// Any other arguments.
    Mixed,
}

/// An argument as functions of two or three see it.
pub fn argue(v: Operand<'_>) -> Argument<'_>
    ensures { argument_of result ≡ argued (operand_of v.entry) }
{
    match v {
        Operand::Integer(n) => Argument::Numeral(i64::from(n)),
        Operand::LongInteger(n) => Argument::Numeral(n),
        Operand::Words(s) => Argument::Phrase(s),
        _ => Argument::Neither,
    }
}

/// The shape of one argument.
pub fn one_shape(a: Operand<'_>) -> Shape<'_>
    ensures { shape_of result ≡ spec.one_shape (operand_of a.entry) }
{
    match a {
        Operand::Integer(n) => Shape::Narrow(n),
        Operand::LongInteger(n) => Shape::Wide(n),
        Operand::Words(s) => Shape::Text(s),
        _ => Shape::Mixed,
    }
}

/// The shape of two arguments.
pub fn two_shape<'a>(a: Argument<'a>, b: Argument<'a>) -> Shape<'a>
    ensures { shape_of result ≡ spec.two_shape (argument_of a.entry) (argument_of b.entry) }
{
    match (a, b) {
        (Argument::Phrase(s), Argument::Numeral(n)) => Shape::TextNumber(s, n),
        _ => Shape::Mixed,
    }
}

/// The shape of three arguments.
pub fn three_shape<'a>(a: Argument<'a>, b: Argument<'a>, c: Argument<'a>) -> Shape<'a>
    ensures { shape_of result ≡ spec.three_shape (argument_of a.entry) (argument_of b.entry) (argument_of c.entry) }
{
    match (a, b, c) {
        (Argument::Phrase(s), Argument::Numeral(p), Argument::Numeral(n)) => {
            Shape::TextNumbers(s, p, n)
        }
        (Argument::Numeral(p), Argument::Phrase(s), Argument::Phrase(t)) => {
            Shape::NumberTexts(p, s, t)
        }
        _ => Shape::Mixed,
    }
}
