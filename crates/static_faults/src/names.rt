//! The rows of the table that ask about names, and what a function gives.
ghost use Rattle.std.specs.Prelude.{◌≡◌, ◌||◌};
ghost use Rattle.std.specs.List.{list_any};
ghost use Rattle.std.specs.Str.{bytes_eq};
ghost use Rattle.chan_values.specs.Folded.{folded};
ghost use Rattle.brs_grammar.specs.Form as p;
ghost use Rattle.brs_grammar.specs.View.{named_of};
ghost use Rattle.static_faults.specs.First.{first_by_place};
ghost use Rattle.static_faults.specs.Table as spec;
ghost use Rattle.static_faults.specs.Parts.{name_of, names, function_name, function_names};

use crate::fault::{StaticFault, StaticKind, Surroundings};
use crate::order::earlier;
use brs_grammar::tree::{LoopKind, Name, NamedFunction, Parameter, TypeWord};
use brs_tokens::Place;

fn fault_where(is_fault: bool, kind: StaticKind, place: Place) -> Option<StaticFault>
    ensures { result ≡ first_by_place (spec.fault_where is_fault kind place) }
{
    if is_fault {
        Some(StaticFault {
            kind,
            line: place.line,
            column: place.column,
        })
    } else {
        None
    }
}

/// Names of different lengths are told apart at once.
fn same_name(a: &[u8], b: &[u8]) -> bool
    ensures { result ≡ bytes_eq (folded a.now) (folded b.now) }
{
    a.eq_ignore_ascii_case(b)
}

fn is_m(name: &[u8]) -> bool
    ensures { result ≡ spec.is_m (folded name.now) }
{
    same_name(name, b"m")
}

fn is_any(words: &[&str], name: &[u8]) -> bool
    ensures { result ≡ list_any (λ word. bytes_eq (folded word.now) (folded name.now)) words.now }
{
    match words {
        [] => false,
        [word, words @ ..] => same_name(word.as_bytes(), name) || is_any(words, name),
    }
}

/// Source: BrightScript Language Reference, "Global utility functions" and "Global string functions".
#[tactic(auto, unfolding(crate::specs::Table::is_built_in))]
fn is_built_in(name: &[u8]) -> bool
    ensures { result ≡ spec.is_built_in (folded name.now) }
{
    is_any(
        &[
            "abs",
            "asc",
            "chr",
            "len",
            "left",
            "right",
            "mid",
            "instr",
            "lcase",
            "ucase",
            "str",
            "stri",
            "strtoi",
            "type",
            "createobject",
            "wait",
        ],
        name,
    )
}

// ---- what a function gives

/// Whether a function with this type gives a value.
pub(crate) fn function_gives_value(kind: Option<TypeWord>) -> bool
    ensures { result ≡ spec.gives_value p.FunctionKind kind }
{
    match kind {
        Some(TypeWord::Void) => false,
        _ => true,
    }
}

/// Whether a sub with this type gives a value.
pub(crate) fn sub_gives_value(kind: Option<TypeWord>) -> bool
    ensures { result ≡ spec.gives_value p.SubKind kind }
{
    match kind {
        None => false,
        Some(TypeWord::Void) => false,
        _ => true,
    }
}

// ---- rows of the table

fn has_loop(around: Surroundings, kind: LoopKind) -> bool
    ensures { result ≡ spec.has_loop around kind }
{
    match kind {
        LoopKind::For => around.in_for,
        LoopKind::While => around.in_while,
    }
}

/// An exit of a loop kind that doesn't stand round it.
pub(crate) fn exit_fault(around: Surroundings, kind: LoopKind, place: Place) -> Option<StaticFault>
    ensures { result ≡ first_by_place (spec.exit_faults around kind place) }
{
    fault_where(!has_loop(around, kind), StaticKind::ExitOutsideLoop, place)
}

/// A returned value where none is given.
pub(crate) fn value_fault(around: Surroundings, place: Place) -> Option<StaticFault>
    ensures { result ≡ first_by_place (spec.returned_value_faults around place) }
{
    fault_where(!around.gives_value, StaticKind::ValueFromSub, place)
}

/// A loop variable or an assigned name that is `m`.
pub(crate) fn variable_fault(name: &Name) -> Option<StaticFault>
    ensures { result ≡ first_by_place (spec.variable_faults (folded name.now.text) name.now.place) }
{
    fault_where(
        is_m(name.text.as_slice()),
        StaticKind::ReservedName,
        name.place,
    )
}

// ---- names that stand before

fn or_parameter(found: bool, x: &Parameter, name: &[u8]) -> bool
    ensures { result ≡ found || bytes_eq (name_of x.now) (folded name.now) }
{
    found || same_name(x.name.text.as_slice(), name)
}

/// Whether one of these parameters has this name. Compares the name with each of theirs.
fn is_parameter(before: &[Parameter], name: &[u8]) -> bool
    ensures { result ≡ spec.is_among (names before.now) (folded name.now) }
{
    let mut found = false;
    for x in before {
        found = or_parameter(found, x, name);
    }
    found
}

/// A parameter that has the name of one before it, or that is `m`.
pub(crate) fn parameter_fault(before: &[Parameter], name: &Name) -> Option<StaticFault>
    ensures { result ≡ first_by_place (spec.parameter_faults (names before.now) (folded name.now.text) name.now.place) }
{
    let text = name.text.as_slice();
    earlier(
        fault_where(
            is_parameter(before, text),
            StaticKind::DuplicateParameter,
            name.place,
        ),
        fault_where(is_m(text), StaticKind::ReservedName, name.place),
    )
}

/// The name of a named function.
pub(crate) fn name_of_function(function: &NamedFunction) -> &Name
    ensures name { folded result.now.text ≡ function_name function.now }
    ensures place { result.now.place ≡ (named_of function.now).name_place }
{
    match function {
        NamedFunction::Function(_, name, _) => name,
        NamedFunction::Sub(_, name, _) => name,
    }
}

fn or_function(found: bool, x: &NamedFunction, name: &[u8]) -> bool
    ensures { result ≡ found || bytes_eq (function_name x.now) (folded name.now) }
{
    found || same_name(name_of_function(x).text.as_slice(), name)
}

/// Whether one of these functions has this name. Compares the name with each of theirs.
fn is_function(before: &[NamedFunction], name: &[u8]) -> bool
    ensures { result ≡ spec.is_among (function_names before.now) (folded name.now) }
{
    let mut found = false;
    for x in before {
        found = or_function(found, x, name);
    }
    found
}

/// A named function that has the name of one before it, or a reserved one.
pub(crate) fn function_fault(before: &[NamedFunction], name: &Name) -> Option<StaticFault>
    ensures { result ≡ first_by_place (spec.function_faults (function_names before.now) (folded name.now.text) name.now.place) }
{
    let text = name.text.as_slice();
    earlier(
        fault_where(
            is_function(before, text),
            StaticKind::DuplicateFunction,
            name.place,
        ),
        fault_where(
            is_m(text) || is_built_in(text),
            StaticKind::ReservedName,
            name.place,
        ),
    )
}
