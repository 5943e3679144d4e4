//! The names of functions and methods.
ghost use Rattle.std.specs.Prelude.{◌≡◌, map};
ghost use Rattle.plain_operations.specs.Names as spec;

use crate::function::PlainFunction;
use crate::method::PlainMethod;

const FUNCTIONS: [(&[u8], PlainFunction); 13] = [
    (b"abs", PlainFunction::Abs),
    (b"asc", PlainFunction::Asc),
    (b"chr", PlainFunction::Chr),
    (b"len", PlainFunction::Len),
    (b"left", PlainFunction::Left),
    (b"right", PlainFunction::Right),
    (b"mid", PlainFunction::Mid),
    (b"instr", PlainFunction::Instr),
    (b"lcase", PlainFunction::LCase),
    (b"ucase", PlainFunction::UCase),
    (b"str", PlainFunction::Str),
    (b"stri", PlainFunction::StrI),
    (b"strtoi", PlainFunction::StrToI),
];

const METHODS: [(&[u8], PlainMethod); 4] = [
    (b"tostr", PlainMethod::ToStr),
    (b"toint", PlainMethod::ToInt),
    (b"len", PlainMethod::Len),
    (b"trim", PlainMethod::Trim),
];

/// What stands beside a name in a table, in the first row with that name, `None` exactly where no row has it. Takes no
/// memory.
pub fn value_beside<T: Copy>(mut rows: &[(&[u8], T)], name: &[u8]) -> Option<T>
    ensures { result ≡ spec.beside (map (λ row. (row.0.now, row.1)) rows.entry.now) name.now }
{
    while let [row, rest @ ..] = rows {
        if row.0 == name {
            return Some(row.1);
        }
        rows = rest;
    }
    None
}

/// The function of numbers and texts with a folded name, `None` exactly for another name. Takes no memory.
pub fn function_named(name: &[u8]) -> Option<PlainFunction>
    ensures { result ≡ spec.function_named name.now }
{
    value_beside(&FUNCTIONS, name)
}

/// The method of texts, numbers and Booleans with a folded name, `None` exactly for another name. Takes no memory.
pub fn method_named(name: &[u8]) -> Option<PlainMethod>
    ensures { result ≡ spec.method_named name.now }
{
    value_beside(&METHODS, name)
}
