//! Parameters and returned values by their declared types.
ghost use Rattle.std.specs.Prelude.{◌≡◌};
ghost use Rattle.plain_operations.specs.Operand.{operand_of};
ghost use Rattle.plain_operations.specs.Fit.{fitted};

use crate::operand::Operand;

/// The declared type of a parameter or of a function's value.
///
/// Source: BrightScript Language Reference, "Function()/End Function".
#[derive(Clone, Copy, Debug, PartialEq, Eq)]
pub enum ValueType {
    /// `integer`
    Integer,
    /// `longinteger`
    LongInteger,
    /// `string`
    String,
    /// `boolean`
    Boolean,
    /// `function`, which takes `invalid` too.
    Function,
    /// `object`, `dynamic`, `interface`, `void`, or no type.
    Any,
}

/// How a value fits a declared type.
#[derive(Clone, Copy, Debug, PartialEq, Eq)]
pub enum Fit {
    /// As it is.
    Unchanged,
    /// A LongInteger in range, as this Integer.
    Integer(i32),
    /// An Integer, as this LongInteger.
    LongInteger(i64),
    /// Not at all, which raises E2.
    Refused,
}

fn fit_integer(value: Operand<'_>) -> Fit
    ensures { result ≡ fitted ValueType.Integer (operand_of value.entry) }
{
    match value {
        Operand::Integer(_) => Fit::Unchanged,
        Operand::LongInteger(n) => {
            if n >= i64::from(i32::MIN) && n <= i64::from(i32::MAX) {
                Fit::Integer(n as i32)
            } else {
                Fit::Refused
            }
        }
        _ => Fit::Refused,
    }
}

fn fit_long_integer(value: Operand<'_>) -> Fit
    ensures { result ≡ fitted ValueType.LongInteger (operand_of value.entry) }
{
    match value {
        Operand::Integer(n) => Fit::LongInteger(i64::from(n)),
        Operand::LongInteger(_) => Fit::Unchanged,
        _ => Fit::Refused,
    }
}

fn fit_string(value: Operand<'_>) -> Fit
    ensures { result ≡ fitted ValueType.String (operand_of value.entry) }
{
    match value {
        Operand::Words(_) => Fit::Unchanged,
        _ => Fit::Refused,
    }
}

fn fit_boolean(value: Operand<'_>) -> Fit
    ensures { result ≡ fitted ValueType.Boolean (operand_of value.entry) }
{
    match value {
        Operand::Boolean(_) => Fit::Unchanged,
        _ => Fit::Refused,
    }
}

fn fit_function(value: Operand<'_>) -> Fit
    ensures { result ≡ fitted ValueType.Function (operand_of value.entry) }
{
    match value {
        Operand::Function | Operand::Invalid => Fit::Unchanged,
        _ => Fit::Refused,
    }
}

/// How a value fits the declared type of a parameter or of a function's value.
pub fn fit_value(declared: ValueType, value: Operand<'_>) -> Fit
    ensures { result ≡ fitted declared (operand_of value.entry) }
{
    match declared {
        ValueType::Integer => fit_integer(value),
        ValueType::LongInteger => fit_long_integer(value),
        ValueType::String => fit_string(value),
        ValueType::Boolean => fit_boolean(value),
        ValueType::Function => fit_function(value),
        ValueType::Any => Fit::Unchanged,
    }
}
