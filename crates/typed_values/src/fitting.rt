//! Values as declared types take them.
ghost use Rattle.std.specs.Prelude.{◌≡◌};
ghost use Rattle.machine_meaning.specs.Statements.{plain_type};
ghost use Rattle.typed_values.specs.Taken.{TypedAs};

use brs_builtins::operand_at;
use brs_code::ValueType;
use brs_heap::{Heap, Plain, Value};
use plain_operations::{Fit, fit_value};

/// The type of the tables that a type of code is.
fn type_of(kind: ValueType) -> plain_operations::ValueType
    ensures { result ≡ plain_type kind }
{
    match kind {
        ValueType::Integer => plain_operations::ValueType::Integer,
        ValueType::LongInteger => plain_operations::ValueType::LongInteger,
        ValueType::String => plain_operations::ValueType::String,
        ValueType::Boolean => plain_operations::ValueType::Boolean,
        ValueType::Function => plain_operations::ValueType::Function,
        ValueType::Any => plain_operations::ValueType::Any,
    }
}

/// A value as a type takes it: a LongInteger in range becomes an Integer, an Integer a LongInteger, and any other value that the type takes
/// stays as it is. What the type doesn't take is handed back. Takes no memory.
///
/// Source: BrightScript Language Reference, "Function()/End Function".
pub fn typed(heap: &Heap, kind: ValueType, v: Value) -> Result<Value, Value>
    ensures { TypedAs kind heap.now v result }
{
    let declared = type_of(kind);
    let fit = fit_value(declared, operand_at(heap, &v));
    match fit {
        Fit::Unchanged => Ok(v),
        Fit::Integer(n) => Ok(Value::plain(Plain::Small(n))),
        Fit::LongInteger(n) => Ok(Value::plain(Plain::Big(n))),
        Fit::Refused => Err(v),
    }
}
