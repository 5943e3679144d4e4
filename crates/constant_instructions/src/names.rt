//! Functions by their names.
ghost use Rattle.std.specs.Prelude.{◌≡◌, ◌+◌, ◌≤◌, ◌^◌, length};
ghost use Rattle.machine_meaning.specs.Image.{among_entries, number_among};
ghost use Rattle.constant_instructions.specs.Reading.{function_number};

use brs_code::ScopeEntry;
use chan_values::Text;

/// The number of the function with a name in a scope, `None` exactly where it has none.
fn number_in_scope(mut entries: &[ScopeEntry], name: &[u8]) -> Option<u32>
    ensures { result ≡ among_entries entries.entry.now name.now }
{
    while let [entry, rest @ ..] = entries {
        if entry.name.as_str().as_bytes() == name {
            return Some(entry.function);
        }
        entries = rest;
    }
    None
}

/// The number of the built-in function with a name, where the first one has this number, `None` exactly where there is none.
fn number_of_built_in(mut built_ins: &[Text], name: &[u8], first: usize) -> Option<u32>
    requires { first + length built_ins.now ≤ 2 ^ 32 }
    ensures { result ≡ number_among built_ins.entry.now name.now first }
{
    let mut number = first;
    while let [built_in, rest @ ..] = built_ins {
        if built_in.as_str().as_bytes() == name {
            return Some(number as u32);
        }
        built_ins = rest;
        number += 1;
    }
    None
}

/// The number of the function that a name reads as: that of the scope, else the built-in one, whose numbers stand behind those of the code.
/// `None` exactly where there is neither. Takes no memory.
pub fn number_named(
    entries: &[ScopeEntry],
    built_ins: &[Text],
    functions: usize,
    name: &[u8],
) -> Option<u32>
    requires { functions + length built_ins.now ≤ 2 ^ 32 }
    ensures { result ≡ function_number entries.now built_ins.now functions name.now }
{
    match number_in_scope(entries, name) {
        Some(number) => Some(number),
        None => number_of_built_in(built_ins, name, functions),
    }
}
