//! The functions of source texts.
ghost use Rattle.std.specs.Prelude.{◌≡◌, [], ◌∷◌, ◌++◌, OnOk, IfOk};
ghost use Rattle.std.specs.List.{flat_map};
ghost use Rattle.folder_rules.specs.Scripts as spec;
ghost use Rattle.script_faults.specs.Functions.{function_of, functions_of};
ghost use Rattle.script_faults.specs.Sources.{all_sources, source_of, sources_of, IsIndexed};

use crate::{NumberedSource, SourceTable, component_sources};
use chan_values::{NoMemory, Text};
use folder_rules::{DeclaredFunction, PathedComponent};
use std::alloc::Global;
use xml_pieces::strip;

/// A named function of a source text.
#[derive(Clone, Copy)]
pub struct PlacedFunction<'a> {
    /// The number of the first function of its source text.
    pub first: usize,
    /// Its place among the functions of its source text, counted from 0.
    pub place: usize,
    /// The path of its source text.
    pub path: &'a Text,
    pub declared: &'a DeclaredFunction,
}

/// Adds a function.
pub(crate) fn push_function<'a>(
    function: PlacedFunction<'a>,
    functions: &mut Vec<PlacedFunction<'a>>,
) -> Result<(), NoMemory>
    ensures { OnOk result (functions_of functions.new.items ≡ functions_of functions.old.items ++ function_of function.entry ∷ []) }
{
    match functions.push(function) {
        Ok(()) => Ok(()),
        Err(_) => Err(NoMemory),
    }
}

/// Adds functions of the source text of a path, whose first function has the number `first`.
fn push_declared<'a>(
    first: usize,
    path: &'a Text,
    all: &'a [DeclaredFunction],
    functions: &mut Vec<PlacedFunction<'a>>,
) -> Result<(), NoMemory>
    ensures { OnOk result (functions_of functions.new.items ≡ functions_of functions.old.items ++ spec.functions_from first path.now all.now) }
{
    for (place, declared) in all.iter().enumerate() {
        let function = PlacedFunction {
            first,
            place,
            path,
            declared,
        };
        push_function(function, functions)?;
    }
    Ok(())
}

/// Adds the functions of a source text.
fn push_functions<'a>(
    source: NumberedSource<'a>,
    functions: &mut Vec<PlacedFunction<'a>>,
) -> Result<(), NoMemory>
    ensures { OnOk result (functions_of functions.new.items ≡ functions_of functions.old.items ++ spec.functions_in (source_of source.entry)) }
{
    let text = source.text;
    push_declared(
        source.number,
        &text.path,
        text.functions.as_slice(),
        functions,
    )
}

/// The functions of source texts, in order.
fn all_functions<'a>(
    alloc: Global,
    sources: &[NumberedSource<'a>],
) -> Result<Vec<PlacedFunction<'a>>, NoMemory>
    ensures { IfOk result (λ functions. functions_of functions.items ≡ flat_map spec.functions_in (sources_of sources.now)) }
{
    let mut functions = Vec::new(alloc);
    for source in sources {
        push_functions(*source, &mut functions)?;
    }
    Ok(functions)
}

/// The functions of a component's own scripts, in order.
///
/// Source: SceneGraph XML Guide, "script".
pub fn own_functions<'a>(
    alloc: Global,
    table: &SourceTable<'a>,
    component: &PathedComponent,
) -> Result<Vec<PlacedFunction<'a>>, NoMemory>
    requires { IsIndexed table.now }
    ensures { IfOk result (λ functions. functions_of functions.items ≡ spec.own_functions (all_sources table.now) component.now) }
{
    let sources = component_sources(alloc, table, component)?;
    all_functions(alloc, sources.as_slice())
}

/// Whether a source text is a file under `source`.
fn is_in_source(source: NumberedSource<'_>) -> bool
    ensures { result ≡ spec.is_in_source source.entry.text.now }
{
    !source.text.inline && strip(b"source/", source.text.path.as_str().as_bytes()).is_some()
}

/// Adds the functions of a source text, where it is a file under `source`.
fn push_source_functions<'a>(
    source: NumberedSource<'a>,
    functions: &mut Vec<PlacedFunction<'a>>,
) -> Result<(), NoMemory>
    ensures { OnOk result (functions_of functions.new.items ≡ functions_of functions.old.items ++ spec.source_functions (source_of source.entry ∷ [])) }
{
    if is_in_source(source) {
        push_functions(source, functions)
    } else {
        Ok(())
    }
}

/// The functions of those source texts that are files under `source`, in order.
fn functions_in_source<'a>(
    alloc: Global,
    sources: &[NumberedSource<'a>],
) -> Result<Vec<PlacedFunction<'a>>, NoMemory>
    ensures { IfOk result (λ functions. functions_of functions.items ≡ spec.source_functions (sources_of sources.now)) }
{
    let mut functions = Vec::new(alloc);
    for source in sources {
        push_source_functions(*source, &mut functions)?;
    }
    Ok(functions)
}

/// The functions of all files under `source`, in order.
pub fn source_functions<'a>(
    alloc: Global,
    table: &SourceTable<'a>,
) -> Result<Vec<PlacedFunction<'a>>, NoMemory>
    ensures { IfOk result (λ functions. functions_of functions.items ≡ spec.source_functions (all_sources table.now)) }
{
    functions_in_source(alloc, table.all.as_slice())
}
