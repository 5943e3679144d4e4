//! Functions whose names stand twice in one scope level.
ghost use Rattle.std.specs.Prelude.{◌≡◌, ℕ, [], ◌∷◌, ◌++◌, ◌||◌, List, Some, if◌then◌else◌, option_map, IfOk, OnOk};
ghost use Rattle.std.specs.Str.{bytes_eq};
ghost use Rattle.chan_values.specs.declared.folder_fault.FolderFault.{FolderFault};
ghost use Rattle.folder_rules.specs.Answers.{Finds, Refuses};
ghost use Rattle.folder_rules.specs.Faults.{first, in_order, is_before};
ghost use Rattle.folder_rules.specs.Names.{is_known};
ghost use Rattle.folder_rules.specs.ScriptFaults as spec;
ghost use Rattle.folder_rules.specs.Scripts as scripts;
ghost use Rattle.script_faults.specs.Functions.{all_later, earlier_of, function_of, functions_of};
ghost use Rattle.script_faults.specs.Sources.{all_sources, IsIndexed};

use crate::functions::push_function;
use crate::{PlacedFunction, SourceTable, own_functions, source_functions};
use chan_values::{FolderFault, NoMemory, copy_text};
use folder_rules::{DeclaredFunction, NameTable, PathedComponent, TablesAnswer};
use std::alloc::Global;
use std::cmp::Ordering;

/// Adds the name of a function to those that stand before the next, and where it is among them already the function to `later`.
fn push_repeated<'a>(
    alloc: Global,
    function: PlacedFunction<'a>,
    names: &mut NameTable,
    later: &mut Vec<PlacedFunction<'a>>,
) -> Result<(), NoMemory>
    ensures later { OnOk result (functions_of later.new.items ≡ functions_of later.old.items ++ (if is_known names.old function.entry.declared.now.name then function_of function.entry ∷ [] else [])) }
    ensures names { OnOk result ((name : List ℕ) → is_known names.new name ≡ (is_known names.old name || bytes_eq function.entry.declared.now.name name)) }
{
    let name = &function.declared.name;
    if names.get(name.as_str()).is_some() {
        return push_function(function, later);
    }
    names.add(copy_text(alloc, name)?, 0)
}

/// Adds the functions of a scope level whose names stand before them.
fn push_later<'a>(
    alloc: Global,
    functions: &[PlacedFunction<'a>],
    later: &mut Vec<PlacedFunction<'a>>,
) -> Result<(), NoMemory>
    ensures { OnOk result (functions_of later.new.items ≡ functions_of later.old.items ++ spec.later_functions [] (functions_of functions.now)) }
{
    let mut names = NameTable::new(alloc);
    for function in functions {
        push_repeated(alloc, *function, &mut names, later)?;
    }
    Ok(())
}

/// The functions of `source` whose names stand before them.
fn later_in_source<'a>(
    alloc: Global,
    table: &SourceTable<'a>,
) -> Result<Vec<PlacedFunction<'a>>, NoMemory>
    ensures { IfOk result (λ later. functions_of later.items ≡ spec.later_functions [] (scripts.source_functions (all_sources table.now))) }
{
    let mut later = Vec::new(alloc);
    let functions = source_functions(alloc, table)?;
    push_later(alloc, functions.as_slice(), &mut later)?;
    Ok(later)
}

/// Adds the functions of a component's scripts whose names stand before them.
fn push_own_later<'a>(
    alloc: Global,
    table: &SourceTable<'a>,
    component: &PathedComponent,
    later: &mut Vec<PlacedFunction<'a>>,
) -> Result<(), NoMemory>
    requires { IsIndexed table.now }
    ensures { OnOk result (functions_of later.new.items ≡ functions_of later.old.items ++ spec.later_functions [] (scripts.own_functions (all_sources table.now) component.now)) }
{
    let own = own_functions(alloc, table, component)?;
    push_later(alloc, own.as_slice(), later)
}

/// All functions whose names stand before them, of `source` and then of the components.
fn later_functions<'a>(
    alloc: Global,
    table: &SourceTable<'a>,
    components: &[PathedComponent],
) -> Result<Vec<PlacedFunction<'a>>, NoMemory>
    requires { IsIndexed table.now }
    ensures { IfOk result (λ later. functions_of later.items ≡ all_later (all_sources table.now) components.now) }
{
    let mut later = later_in_source(alloc, table)?;
    for component in components {
        push_own_later(alloc, table, component, &mut later)?;
    }
    Ok(later)
}

/// Whether the first function stands before the second in one file.
fn is_before(first: &DeclaredFunction, second: &DeclaredFunction) -> bool
    ensures { result ≡ is_before (first.now.line, first.now.column) (second.now.line, second.now.column) }
{
    if first.line == second.line {
        first.column < second.column
    } else {
        first.line < second.line
    }
}

/// Whether the first function stands before the second, by path, line and column.
fn is_earlier(first: PlacedFunction<'_>, second: PlacedFunction<'_>) -> bool
    ensures { result ≡ spec.is_earlier_function (function_of first.entry) (function_of second.entry) }
{
    let path = second.path.as_str();
    match first.path.as_str().cmp(&path) {
        Ordering::Less => true,
        Ordering::Equal => is_before(first.declared, second.declared),
        Ordering::Greater => false,
    }
}

/// The function, or the other where that stands earlier.
fn earlier_of<'a>(
    function: PlacedFunction<'a>,
    other: Option<PlacedFunction<'a>>,
) -> PlacedFunction<'a>
    ensures { function_of result ≡ earlier_of (function_of function.entry) (option_map function_of other.entry) }
{
    match other {
        Some(other) if is_earlier(other, function) => other,
        _ => function,
    }
}

/// The earliest of functions, of those at one place the first.
fn earliest<'a>(functions: &[PlacedFunction<'a>]) -> Option<PlacedFunction<'a>>
    ensures { option_map function_of result ≡ first (in_order spec.is_earlier_function (functions_of functions.now)) }
{
    let mut earliest = None;
    let mut left = functions.len();
    while 0 < left {
        left -= 1;
        earliest = Some(earlier_of(functions[left], earliest));
    }
    earliest
}

fn duplicate_fault(alloc: Global, function: PlacedFunction<'_>) -> Result<FolderFault, NoMemory>
    ensures { IfOk result (λ fault. fault ≡ spec.duplicate_fault (function_of function.entry)) }
{
    Ok(FolderFault {
        number: 13,
        path: copy_text(alloc, function.path)?,
        line: function.declared.line,
        column: function.declared.column,
        name: copy_text(alloc, &function.declared.name)?,
    })
}

/// An answer of want of memory, or of a function whose name stands before it.
fn refusal_of(alloc: Global, function: PlacedFunction<'_>) -> TablesAnswer
    ensures { Refuses (spec.duplicate_fault (function_of function.entry)) result }
{
    match duplicate_fault(alloc, function) {
        Ok(fault) => TablesAnswer::Fault(fault),
        Err(NoMemory) => TablesAnswer::NoMemory,
    }
}

/// Refuses the first function, by path, line and column, whose name stands before it in its scope level: in the files under `source`, or in the
/// scripts of one component in order. A name of a base is none.
///
/// Source: BrightScript Language Reference, "Function declarations".
pub fn check_duplicate_functions(
    alloc: Global,
    table: &SourceTable<'_>,
    components: &[PathedComponent],
) -> Result<(), TablesAnswer>
    requires { IsIndexed table.now }
    ensures { Finds (λ found. found ≡ first (spec.duplicate_functions (all_sources table.now) components.now)) result }
{
    let later = later_functions(alloc, table, components)?;
    match earliest(later.as_slice()) {
        Some(function) => Err(refusal_of(alloc, function)),
        None => Ok(()),
    }
}
