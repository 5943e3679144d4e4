//! What the name of a built-in function calls.
ghost use Rattle.std.specs.Prelude.{◌≡◌};
ghost use Rattle.call_decisions.specs.BuiltIns as spec;
ghost use Rattle.call_decisions.specs.CallRows.{IsBuiltInRow};

use brs_builtins::Operation;
use plain_operations::{PlainFunction, function_named};

/// What the name of a built-in function calls.
///
/// Source: BrightScript Language Reference, "Global Utility Functions".
#[derive(Clone, Copy, Debug, PartialEq, Eq)]
pub enum BuiltInCall {
    /// `CreateObject`, which may ask something of the world.
    CreateObject,
    /// `Wait`, which asks something of the world.
    Wait,
    /// This operation.
    Applies(Operation),
    /// Nothing: the error E5.
    Nothing,
}

fn operation_or_nothing(function: Option<PlainFunction>) -> BuiltInCall
    ensures { result ≡ spec.function_or_nothing function }
{
    match function {
        Some(f) => BuiltInCall::Applies(Operation::Function(f)),
        None => BuiltInCall::Nothing,
    }
}

fn decide(name: &[u8]) -> BuiltInCall
    ensures { result ≡ spec.built_in_called name.now }
{
    if name == b"createobject".as_slice() {
        BuiltInCall::CreateObject
    } else if name == b"wait".as_slice() {
        BuiltInCall::Wait
    } else if name == b"type".as_slice() {
        BuiltInCall::Applies(Operation::TypeName)
    } else {
        operation_or_nothing(function_named(name))
    }
}

/// What a built-in function of this folded name calls. Takes no memory.
///
/// Source: BrightScript Language Reference, "Global Utility Functions".
pub fn built_in_called(name: &[u8]) -> BuiltInCall
    ensures decided { result ≡ spec.built_in_called name.now }
    ensures row { IsBuiltInRow name.now result }
{
    decide(name)
}
