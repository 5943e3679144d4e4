//! What outcomes of tests are compared by, and the small tables: names, declared types, conditions.
use chan_values::{NoMemory, Text};
use plain_operations::Operand::{Boolean, Function, Integer, Invalid, LongInteger, Other, Words};
use plain_operations::{
    Fit, Operand, Outcome, PlainFunction, PlainMethod, ValueType, condition, decides_and,
    decides_or, fit_value, function_named, has_method, method_named,
};
use std::alloc::Global;
use std::process::Abort;
use std::test::Fail;

/// The value that a word of a row writes: `'` and a text, digits, digits with `&`, or the name of a value or kind.
pub fn value(word: &str) -> Operand<'_> {
    if let Some(text) = word.strip_prefix('\'') {
        return Words(text);
    }
    if let Some(digits) = word.strip_suffix('&') {
        return match digits.parse::<i64>() {
            Ok(n) => LongInteger(n),
            Err(_) => Other,
        };
    }
    match word.parse::<i32>() {
        Ok(n) => Integer(n),
        Err(_) => named(word),
    }
}

fn named(word: &str) -> Operand<'_> {
    if word == "true" {
        return Boolean(true);
    }
    if word == "false" {
        return Boolean(false);
    }
    if word == "invalid" {
        return Invalid;
    }
    if word == "function" { Function } else { Other }
}

/// The same of what an operation gives, the name of an error, or the length of a text past a thousand bytes.
fn shown(alloc: Global, outcome: Outcome) -> Result<String, Fail> {
    Ok(match outcome {
        Outcome::Invalid => format!(in alloc; "invalid")?,
        Outcome::Boolean(b) => format!(in alloc; "{b}")?,
        Outcome::Integer(n) => format!(in alloc; "{n}")?,
        Outcome::LongInteger(n) => format!(in alloc; "{n}&")?,
        Outcome::Words(text) => shown_text(alloc, text.as_str())?,
        Outcome::Raised(error) => format!(in alloc; "{error:?}")?,
    })
}

fn shown_text(alloc: Global, text: &str) -> Result<String, Fail> {
    let count = text.len();
    if count > 1000 {
        return Ok(format!(in alloc; "{count} bytes")?);
    }
    Ok(format!(in alloc; "'{text}")?)
}

pub fn check(rt: &impl Abort, alloc: Global, outcome: Outcome, wanted: &str) -> Result<(), Fail> {
    let text = shown(alloc, outcome)?;
    assert_eq!(rt; text.as_str(), wanted);
    Ok(())
}

/// A text of so many characters, each of three bytes.
pub fn long_text(alloc: Global, count: usize) -> Result<Text, NoMemory> {
    let mut text = Text::new(alloc);
    for _ in 0..count {
        text.push('€')?;
    }
    Ok(text)
}

#[test]
fn names_are_folded_already(rt: HostRuntime) {
    assert_eq!(rt; function_named(b"mid"), Some(PlainFunction::Mid));
    assert_eq!(rt; function_named(b"strtoi"), Some(PlainFunction::StrToI));
    assert_eq!(rt; function_named(b"abs"), Some(PlainFunction::Abs));
    assert_eq!(rt; function_named(b"Mid"), None);
    assert_eq!(rt; function_named(b"type"), None);
    assert_eq!(rt; function_named(b""), None);
    assert_eq!(rt; method_named(b"trim"), Some(PlainMethod::Trim));
    assert_eq!(rt; method_named(b"tostr"), Some(PlainMethod::ToStr));
    assert_eq!(rt; method_named(b"count"), None);
    assert_eq!(rt; has_method(PlainMethod::ToInt, Words("")), true);
    assert_eq!(rt; has_method(PlainMethod::ToInt, Integer(1)), false);
}

#[test]
fn declared_types_take_their_kinds(rt: HostRuntime) {
    let low = -2_147_483_648;
    assert_eq!(rt; fit_value(ValueType::Integer, Integer(5)), Fit::Unchanged);
    assert_eq!(rt;
        fit_value(ValueType::Integer, LongInteger(low)),
        Fit::Integer(-2_147_483_648)
    );
    assert_eq!(rt;
        fit_value(ValueType::Integer, LongInteger(low - 1)),
        Fit::Refused
    );
    assert_eq!(rt;
        fit_value(ValueType::Integer, LongInteger(2_147_483_647)),
        Fit::Integer(2_147_483_647)
    );
    assert_eq!(rt;
        fit_value(ValueType::Integer, LongInteger(2_147_483_648)),
        Fit::Refused
    );
    assert_eq!(rt; fit_value(ValueType::Integer, Invalid), Fit::Refused);
    assert_eq!(rt;
        fit_value(ValueType::LongInteger, Integer(-1)),
        Fit::LongInteger(-1)
    );
    assert_eq!(rt;
        fit_value(ValueType::LongInteger, LongInteger(low)),
        Fit::Unchanged
    );
    assert_eq!(rt; fit_value(ValueType::String, Words("")), Fit::Unchanged);
    assert_eq!(rt; fit_value(ValueType::String, Integer(1)), Fit::Refused);
    assert_eq!(rt;
        fit_value(ValueType::Boolean, Boolean(false)),
        Fit::Unchanged
    );
    assert_eq!(rt; fit_value(ValueType::Boolean, Integer(0)), Fit::Refused);
    assert_eq!(rt; fit_value(ValueType::Function, Function), Fit::Unchanged);
    assert_eq!(rt; fit_value(ValueType::Function, Invalid), Fit::Unchanged);
    assert_eq!(rt; fit_value(ValueType::Function, Other), Fit::Refused);
    assert_eq!(rt; fit_value(ValueType::Any, Other), Fit::Unchanged);
}

#[test]
fn booleans_alone_decide(rt: HostRuntime) {
    assert_eq!(rt; condition(Boolean(true)), Some(true));
    assert_eq!(rt; condition(Integer(1)), None);
    assert_eq!(rt; decides_and(Boolean(false)), true);
    assert_eq!(rt; decides_and(Boolean(true)), false);
    assert_eq!(rt; decides_and(Integer(0)), false);
    assert_eq!(rt; decides_or(Boolean(true)), true);
    assert_eq!(rt; decides_or(Boolean(false)), false);
    assert_eq!(rt; decides_or(Invalid), false);
}
