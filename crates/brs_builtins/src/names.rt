//! The names of functions and methods.
ghost use Rattle.std.specs.Prelude.{◌≡◌};
ghost use Rattle.brs_builtins.specs.Names as spec;

use crate::operation::Operation;
use object_operations::{ArrayMethod, MapMethod, MessageMethod, Receiver};
use plain_operations::{PlainFunction, PlainMethod, value_beside};

const FUNCTIONS: [(&[u8], Operation); 15] = [
    (b"abs", Operation::Function(PlainFunction::Abs)),
    (b"asc", Operation::Function(PlainFunction::Asc)),
    (b"chr", Operation::Function(PlainFunction::Chr)),
    (b"len", Operation::Function(PlainFunction::Len)),
    (b"left", Operation::Function(PlainFunction::Left)),
    (b"right", Operation::Function(PlainFunction::Right)),
    (b"mid", Operation::Function(PlainFunction::Mid)),
    (b"instr", Operation::Function(PlainFunction::Instr)),
    (b"lcase", Operation::Function(PlainFunction::LCase)),
    (b"ucase", Operation::Function(PlainFunction::UCase)),
    (b"str", Operation::Function(PlainFunction::Str)),
    (b"stri", Operation::Function(PlainFunction::StrI)),
    (b"strtoi", Operation::Function(PlainFunction::StrToI)),
    (b"type", Operation::TypeName),
    (b"createobject", Operation::CreateObject),
];

const ARRAY_METHODS: [(&[u8], Operation); 9] = [
    (b"push", Operation::ArrayMethod(ArrayMethod::Push)),
    (b"unshift", Operation::ArrayMethod(ArrayMethod::Unshift)),
    (b"pop", Operation::ArrayMethod(ArrayMethod::Pop)),
    (b"shift", Operation::ArrayMethod(ArrayMethod::Shift)),
    (b"peek", Operation::ArrayMethod(ArrayMethod::Peek)),
    (b"delete", Operation::ArrayMethod(ArrayMethod::Delete)),
    (b"count", Operation::ArrayMethod(ArrayMethod::Count)),
    (b"clear", Operation::ArrayMethod(ArrayMethod::Clear)),
    (b"append", Operation::ArrayMethod(ArrayMethod::Append)),
];

const MAP_METHODS: [(&[u8], Operation); 8] = [
    (b"addreplace", Operation::MapMethod(MapMethod::AddReplace)),
    (b"clear", Operation::MapMethod(MapMethod::Clear)),
    (b"lookup", Operation::MapMethod(MapMethod::Lookup)),
    (b"doesexist", Operation::MapMethod(MapMethod::DoesExist)),
    (b"delete", Operation::MapMethod(MapMethod::Delete)),
    (b"count", Operation::MapMethod(MapMethod::Count)),
    (b"keys", Operation::Keys),
    (b"append", Operation::AppendEntries),
];

const MESSAGE_METHODS: [(&[u8], Operation); 4] = [
    (b"getfield", Operation::MessageMethod(MessageMethod::Field)),
    (b"getnode", Operation::MessageMethod(MessageMethod::Id)),
    (
        b"getrosgnode",
        Operation::MessageMethod(MessageMethod::Node),
    ),
    (b"getdata", Operation::MessageData),
];

const PLAIN_METHODS: [(&[u8], Operation); 4] = [
    (b"tostr", Operation::PlainMethod(PlainMethod::ToStr)),
    (b"toint", Operation::PlainMethod(PlainMethod::ToInt)),
    (b"len", Operation::PlainMethod(PlainMethod::Len)),
    (b"trim", Operation::PlainMethod(PlainMethod::Trim)),
];

/// The built-in function with a folded name, `None` exactly for another name and for `wait`, which is no operation.
/// Takes no memory.
///
/// Source: BrightScript Language Reference, "Global Utility Functions".
pub fn function_named(name: &[u8]) -> Option<Operation>
    ensures { result ≡ spec.function_named name.now }
{
    value_beside(&FUNCTIONS, name)
}

/// The built-in method with a folded name of what it is called on, `None` exactly where that has no such method. A
/// number or a Boolean is asked for a method of texts too: what it doesn't take it refuses when it is called. Takes no
/// memory.
///
/// Source: BrightScript Language Reference, "BrightScript Interfaces".
pub fn method_named(receiver: Receiver, name: &[u8]) -> Option<Operation>
    ensures { result ≡ spec.method_named receiver name.now }
{
    match receiver {
        Receiver::Invalid => None,
        Receiver::Array => value_beside(&ARRAY_METHODS, name),
        Receiver::Pairs => value_beside(&MAP_METHODS, name),
        Receiver::Message => value_beside(&MESSAGE_METHODS, name),
        Receiver::Other => value_beside(&PLAIN_METHODS, name),
    }
}
