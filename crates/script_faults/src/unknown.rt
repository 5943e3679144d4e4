//! Functions that fields and interfaces name and that aren't there.
ghost use Rattle.std.specs.Prelude.{◌≡◌, ◌++◌, None, length, map, filter, option_map, IfOk};
ghost use Rattle.std.specs.List.{flat_map};
ghost use Rattle.chan_values.specs.Folded.{folded};
ghost use Rattle.folder_rules.specs.Answers.{Finds};
ghost use Rattle.folder_rules.specs.Faults.{first, in_order};
ghost use Rattle.folder_rules.specs.KindFaults.{duplicate_components};
ghost use Rattle.folder_rules.specs.Kinds.{component_name, kind_names};
ghost use Rattle.folder_rules.specs.Names.{number_in, HasPlaces};
ghost use Rattle.folder_rules.specs.ScriptFaults as spec;
ghost use Rattle.script_faults.specs.Named.{named, named_of, latest, first_unknown, is_unknown, unknown_after};
ghost use Rattle.script_faults.specs.Rows.{has_function, row_faults, unknown_by};
ghost use Rattle.script_faults.specs.Sources.{all_sources, IsIndexed};

use crate::SourceTable;
use crate::rows::{KindFunctions, has_function, kind_rows};
use chan_values::{NoMemory, Text, fold_name};
use component_files::{FieldElement, FunctionElement};
use folder_rules::{NameTable, PathedComponent, TablesAnswer, refusal};
use std::alloc::Global;

/// A function that isn't there, folded, and the place of the tag that names it.
#[derive(Drop)]
struct UnknownName {
    line: u32,
    column: u32,
    name: Text,
}

/// Whether the first name's tag stands before the second's.
fn is_before(first: &UnknownName, second: &UnknownName) -> bool
    ensures { result ≡ spec.is_earlier_name (named_of first.now) (named_of second.now) }
{
    if first.line == second.line {
        first.column < second.column
    } else {
        first.line < second.line
    }
}

/// The name so far, or the one that was found where its tag stands earlier.
fn earlier_of(so_far: Option<UnknownName>, found: UnknownName) -> UnknownName
    ensures { named_of result ≡ latest (option_map named_of so_far) (named_of found) }
{
    match so_far {
        None => found,
        Some(so_far) => {
            if is_before(&found, &so_far) {
                found
            } else {
                so_far
            }
        }
    }
}

/// The rows of all kinds, and the place of one of them.
#[derive(Clone, Copy)]
struct Scope<'a> {
    rows: &'a [KindFunctions],
    kind: Option<usize>,
}

/// The earliest unknown name so far and one name more, which is unknown where the scope has no such function.
fn with_name(
    alloc: Global,
    scope: Scope<'_>,
    so_far: Option<UnknownName>,
    name: &Text,
    line: u32,
    column: u32,
) -> Result<Option<UnknownName>, NoMemory>
    ensures { IfOk result (λ unknown. option_map named_of unknown ≡ first_unknown (has_function (length scope.entry.rows.now) scope.entry.rows.now scope.entry.kind) (option_map named_of so_far) (named line column (folded name.now))) }
{
    let name = fold_name(alloc, name.as_str().as_bytes())?;
    if has_function(scope.rows, scope.kind, name.as_str()) {
        return Ok(so_far);
    }
    let found = UnknownName { line, column, name };
    Ok(Some(earlier_of(so_far, found)))
}

/// The earliest unknown name so far, and the function that a field calls at its change.
fn with_change(
    alloc: Global,
    scope: Scope<'_>,
    so_far: Option<UnknownName>,
    field: &FieldElement,
) -> Result<Option<UnknownName>, NoMemory>
    ensures { IfOk result (λ unknown. option_map named_of unknown ≡ unknown_after (has_function (length scope.entry.rows.now) scope.entry.rows.now scope.entry.kind) (option_map named_of so_far) (spec.change_function field.now)) }
{
    match &field.on_change {
        Some(name) => with_name(alloc, scope, so_far, name, field.line, field.column),
        None => Ok(so_far),
    }
}

/// The earliest unknown function that a field calls at its change.
fn unknown_change(
    alloc: Global,
    scope: Scope<'_>,
    fields: &[FieldElement],
) -> Result<Option<UnknownName>, NoMemory>
    ensures { IfOk result (λ unknown. option_map named_of unknown ≡ unknown_after (has_function (length scope.entry.rows.now) scope.entry.rows.now scope.entry.kind) None (flat_map spec.change_function fields.now)) }
{
    let mut unknown = None;
    for field in fields {
        unknown = with_change(alloc, scope, unknown, field)?;
    }
    Ok(unknown)
}

/// The earliest unknown name so far, and the functions of an interface.
fn with_interface(
    alloc: Global,
    scope: Scope<'_>,
    so_far: Option<UnknownName>,
    functions: &[FunctionElement],
) -> Result<Option<UnknownName>, NoMemory>
    ensures { IfOk result (λ unknown. option_map named_of unknown ≡ unknown_after (has_function (length scope.entry.rows.now) scope.entry.rows.now scope.entry.kind) (option_map named_of so_far) (map spec.interface_function functions.now)) }
{
    let mut unknown = so_far;
    for function in functions {
        unknown = with_name(
            alloc,
            scope,
            unknown,
            &function.name,
            function.line,
            function.column,
        )?;
    }
    Ok(unknown)
}

/// The earliest unknown function that a component names.
fn unknown_name(
    alloc: Global,
    scope: Scope<'_>,
    component: &PathedComponent,
) -> Result<Option<UnknownName>, NoMemory>
    ensures { IfOk result (λ unknown. option_map named_of unknown ≡ first (in_order spec.is_earlier_name (filter (is_unknown (has_function (length scope.entry.rows.now) scope.entry.rows.now scope.entry.kind)) (flat_map spec.change_function component.now.file.fields ++ map spec.interface_function component.now.file.functions)))) }
{
    let unknown = unknown_change(alloc, scope, component.file.fields.as_slice())?;
    with_interface(alloc, scope, unknown, component.file.functions.as_slice())
}

/// Refuses the earliest function that a component names and its scope doesn't have.
fn check_names(
    alloc: Global,
    scope: Scope<'_>,
    component: &PathedComponent,
) -> Result<(), TablesAnswer>
    ensures { Finds (λ found. found ≡ first (flat_map (unknown_by (has_function (length scope.entry.rows.now) scope.entry.rows.now scope.entry.kind) component.now.path) (spec.named_functions component.now))) result }
{
    match unknown_name(alloc, scope, component)? {
        Some(unknown) => {
            let UnknownName { line, name, .. } = unknown;
            Err(refusal(alloc, 17, &component.path, line, name))
        }
        None => Ok(()),
    }
}

/// The place that a table of names has for a component.
fn kind_of(
    alloc: Global,
    names: &NameTable,
    component: &PathedComponent,
) -> Result<Option<usize>, NoMemory>
    ensures { IfOk result (λ kind. kind ≡ number_in names.now (component_name component.now)) }
{
    let name = fold_name(alloc, component.file.name.as_str().as_bytes())?;
    Ok(names.get(name.as_str()))
}

fn check_component(
    alloc: Global,
    names: &NameTable,
    rows: &[KindFunctions],
    component: &PathedComponent,
) -> Result<(), TablesAnswer>
    ensures { Finds (λ found. found ≡ first (row_faults names.now rows.now component.now)) result }
{
    let kind = kind_of(alloc, names, component)?;
    check_names(alloc, Scope { rows, kind }, component)
}

fn check_each(
    alloc: Global,
    names: &NameTable,
    rows: &[KindFunctions],
    components: &[PathedComponent],
) -> Result<(), TablesAnswer>
    ensures { Finds (λ found. found ≡ first (flat_map (row_faults names.now rows.now) components.now)) result }
{
    for component in components {
        check_component(alloc, names, rows, component)?;
    }
    Ok(())
}

/// Refuses the first function, by path, line and column of the tag, that a field calls at its change or that an interface names and that isn't in
/// the component's scope: among the functions of its own scripts, of its base's, and so on. The functions of `source` aren't. `names` is the table
/// that `kind_table` gives. Looks for each name at each base at most once.
///
/// Source: SceneGraph XML Guide, "interface".
pub fn check_functions(
    alloc: Global,
    table: &SourceTable<'_>,
    names: &NameTable,
    components: &[PathedComponent],
) -> Result<(), TablesAnswer>
    requires indexed { IsIndexed table.now }
    requires places { HasPlaces names.now (kind_names components.now) }
    requires distinct { None ≡ first (duplicate_components components.now) }
    ensures { Finds (λ found. found ≡ first (spec.unknown_functions (all_sources table.now) components.now)) result }
{
    let rows = kind_rows(alloc, table, names, components)?;
    check_each(alloc, names, rows.as_slice(), components)
}
