//! The source texts of a component's scripts.
ghost use Rattle.std.specs.Prelude.{◌≡◌, ℕ, [], ◌∷◌, ◌++◌, ◌||◌, List, filter, OnOk, IfOk};
ghost use Rattle.folder_rules.specs.Names.{is_known};
ghost use Rattle.folder_rules.specs.Scripts as spec;
ghost use Rattle.script_faults.specs.Scripts.{kept};
ghost use Rattle.script_faults.specs.Sources.{all_sources, source_of, sources_of, IsIndexed};

use crate::{NumberedSource, SourceTable, path_of_uri};
use chan_values::{NoMemory, Text, copy_text};
use component_files::ScriptElement;
use folder_rules::{NameTable, PathedComponent};
use std::alloc::Global;

/// Adds a source text.
fn push_source<'a>(
    source: NumberedSource<'a>,
    found: &mut Vec<NumberedSource<'a>>,
) -> Result<(), NoMemory>
    ensures { OnOk result (sources_of found.new.items ≡ sources_of found.old.items ++ source_of source.entry ∷ []) }
{
    match found.push(source) {
        Ok(()) => Ok(()),
        Err(_) => Err(NoMemory),
    }
}

/// Adds source texts.
fn push_sources<'a>(
    sources: &[NumberedSource<'a>],
    found: &mut Vec<NumberedSource<'a>>,
) -> Result<(), NoMemory>
    ensures { OnOk result (sources_of found.new.items ≡ sources_of found.old.items ++ sources_of sources.now) }
{
    for source in sources {
        push_source(*source, found)?;
    }
    Ok(())
}

/// Adds the file that a script names.
fn push_file<'a>(
    alloc: Global,
    table: &SourceTable<'a>,
    path: &Text,
    script: &ScriptElement,
    found: &mut Vec<NumberedSource<'a>>,
) -> Result<(), NoMemory>
    requires { IsIndexed table.now }
    ensures { OnOk result (sources_of found.new.items ≡ sources_of found.old.items ++ spec.uri_source (all_sources table.now) path.now script.now.uri) }
{
    let Some(uri) = &script.uri else {
        return Ok(());
    };
    let file = path_of_uri(alloc, path.as_str(), uri.as_str())?;
    match table.files.get(file.as_str()) {
        Some(sources) => push_sources(sources, found),
        None => Ok(()),
    }
}

/// The source texts of scripts in order, of each script the file that it names and then its inline script, which is the next of `inline`.
fn sources_with<'a>(
    alloc: Global,
    table: &SourceTable<'a>,
    path: &Text,
    scripts: &[ScriptElement],
    mut inline: &[NumberedSource<'a>],
) -> Result<Vec<NumberedSource<'a>>, NoMemory>
    requires { IsIndexed table.now }
    ensures { IfOk result (λ found. sources_of found.items ≡ spec.script_sources (all_sources table.now) path.now (sources_of inline.entry.now) scripts.now) }
{
    let mut found = Vec::new(alloc);
    for script in scripts {
        push_file(alloc, table, path, script, &mut found)?;
        if script.inline.is_some()
            && let [next, rest @ ..] = inline
        {
            push_source(*next, &mut found)?;
            inline = rest;
        }
    }
    Ok(found)
}

/// The source texts of scripts in order.
fn script_sources<'a>(
    alloc: Global,
    table: &SourceTable<'a>,
    path: &Text,
    scripts: &[ScriptElement],
) -> Result<Vec<NumberedSource<'a>>, NoMemory>
    requires { IsIndexed table.now }
    ensures { IfOk result (λ found. sources_of found.items ≡ spec.script_sources (all_sources table.now) path.now (filter (spec.is_inline_in path.now) (all_sources table.now)) scripts.now) }
{
    match table.inline.get(path.as_str()) {
        Some(inline) => sources_with(alloc, table, path, scripts, inline),
        None => {
            let none = Vec::new(alloc);
            sources_with(alloc, table, path, scripts, none.as_slice())
        }
    }
}

/// Adds a source text, unless it is a file that was added before. `named` has the paths of the files that were.
fn keep<'a>(
    alloc: Global,
    source: NumberedSource<'a>,
    named: &mut NameTable,
    found: &mut Vec<NumberedSource<'a>>,
) -> Result<(), NoMemory>
    ensures found { OnOk result (sources_of found.new.items ≡ sources_of found.old.items ++ kept (is_known named.old source.entry.text.now.path) (source_of source.entry)) }
    ensures named { OnOk result ((path : List ℕ) → is_known named.new path ≡ (is_known named.old path || spec.is_file path (source_of source.entry))) }
{
    if !source.text.inline {
        if named.get(source.text.path.as_str()).is_some() {
            return Ok(());
        }
        named.add(copy_text(alloc, &source.text.path)?, 0)?;
    }
    push_source(source, found)
}

/// The same source texts, of those that are one file only the first.
fn each_once<'a>(
    alloc: Global,
    sources: &[NumberedSource<'a>],
) -> Result<Vec<NumberedSource<'a>>, NoMemory>
    ensures { IfOk result (λ found. sources_of found.items ≡ spec.each_once [] (sources_of sources.now)) }
{
    let mut named = NameTable::new(alloc);
    let mut found = Vec::new(alloc);
    for source in sources {
        keep(alloc, *source, &mut named, &mut found)?;
    }
    Ok(found)
}

/// The source texts of a component's scripts in order. A file that several of them name counts once, for the first of them.
///
/// Source: SceneGraph XML Guide, "script".
pub fn component_sources<'a>(
    alloc: Global,
    table: &SourceTable<'a>,
    component: &PathedComponent,
) -> Result<Vec<NumberedSource<'a>>, NoMemory>
    requires { IsIndexed table.now }
    ensures { IfOk result (λ found. sources_of found.items ≡ spec.component_sources (all_sources table.now) component.now) }
{
    let scripts = component.file.scripts.as_slice();
    let sources = script_sources(alloc, table, &component.path, scripts)?;
    each_once(alloc, sources.as_slice())
}
