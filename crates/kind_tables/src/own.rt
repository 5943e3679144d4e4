//! What components have of their own.
ghost use Rattle.std.specs.Prelude.{◌≡◌, ℕ, List, map, is_some, IfOk};
ghost use Rattle.folder_rules.specs.Names.{is_among};
ghost use Rattle.ordered_names.specs.Values.{value_of};
ghost use Rattle.script_faults.specs.Functions.{functions_of};
ghost use Rattle.kind_tables.specs.Rows as spec;

use chan_values::{NoMemory, Text, copy_text, fold_name};
use component_files::{FieldElement, FunctionElement};
use ordered_names::{NameDraft, OrderedNames};
use script_faults::PlacedFunction;
use std::alloc::Global;

/// The number of a function among all of the channel.
fn number_of(function: PlacedFunction<'_>) -> u32
    requires { spec.IsSmall function }
    ensures { result ≡ spec.number function.entry }
{
    (function.first + function.place) as u32
}

/// The names of functions with their numbers, of those of one name the first.
pub(crate) fn function_names(
    alloc: Global,
    functions: &[PlacedFunction<'_>],
) -> Result<OrderedNames<u32>, NoMemory>
    requires { spec.AreSmall (functions_of functions.now) }
    ensures { IfOk result (λ names. (name : List ℕ) → value_of names name ≡ value_of (map spec.placed_number functions.now) name) }
{
    let mut names = NameDraft::new(alloc);
    for function in functions {
        let name = copy_text(alloc, &function.declared.name)?;
        names.add(name, number_of(*function))?;
    }
    names.into_ordered(alloc)
}

/// The function that a field calls at its change, folded.
fn handler_of(alloc: Global, field: &FieldElement) -> Result<Option<Text>, NoMemory>
    ensures { IfOk result (λ handler. handler ≡ spec.handler field.now) }
{
    match &field.on_change {
        Some(name) => Ok(Some(fold_name(alloc, name.as_str().as_bytes())?)),
        None => Ok(None),
    }
}

/// The fields of an interface with the functions that they call at their change, of those of one id the first.
pub(crate) fn handlers(
    alloc: Global,
    fields: &[FieldElement],
) -> Result<OrderedNames<Option<Text>>, NoMemory>
    ensures { IfOk result (λ names. (id : List ℕ) → value_of names id ≡ value_of (map spec.named_handler fields.now) id) }
{
    let mut names = NameDraft::new(alloc);
    for field in fields {
        let handler = handler_of(alloc, field)?;
        names.add_folded(alloc, &field.id, handler)?;
    }
    names.into_ordered(alloc)
}

/// The functions of an interface.
pub(crate) fn interface_names(
    alloc: Global,
    functions: &[FunctionElement],
) -> Result<OrderedNames<()>, NoMemory>
    ensures { IfOk result (λ names. (name : List ℕ) → is_some (value_of names name) ≡ is_among (map spec.interface_name functions.now) name) }
{
    let mut names = NameDraft::new(alloc);
    for function in functions {
        names.add_folded(alloc, &function.name, ())?;
    }
    names.into_ordered(alloc)
}
