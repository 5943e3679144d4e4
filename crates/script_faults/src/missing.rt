//! Scripts whose uri names no source file.
ghost use Rattle.std.specs.Prelude.{◌≡◌};
ghost use Rattle.std.specs.List.{flat_map, list_any};
ghost use Rattle.folder_rules.specs.Answers.{Finds};
ghost use Rattle.folder_rules.specs.Faults.{first};
ghost use Rattle.folder_rules.specs.ScriptFaults.{missing_script, missing_scripts};
ghost use Rattle.folder_rules.specs.Scripts.{is_file};
ghost use Rattle.script_faults.specs.Scripts.{missing_in};
ghost use Rattle.script_faults.specs.Sources.{all_sources, IsIndexed};

use crate::{SourceTable, path_of_uri};
use chan_values::{Text, copy_text};
use component_files::ScriptElement;
use folder_rules::{PathedComponent, TablesAnswer, refusal};
use std::alloc::Global;

/// Whether a source file of this path was read.
fn has_file(table: &SourceTable<'_>, path: &str) -> bool
    requires { IsIndexed table.now }
    ensures { result ≡ list_any (is_file path.now) (all_sources table.now) }
{
    match table.files.get(path) {
        Some(sources) => !sources.is_empty(),
        None => false,
    }
}

fn check_script(
    alloc: Global,
    table: &SourceTable<'_>,
    path: &Text,
    script: &ScriptElement,
) -> Result<(), TablesAnswer>
    requires { IsIndexed table.now }
    ensures { Finds (λ found. found ≡ first (missing_script (all_sources table.now) path.now script.now)) result }
{
    let Some(uri) = &script.uri else {
        return Ok(());
    };
    let file = path_of_uri(alloc, path.as_str(), uri.as_str())?;
    if !has_file(table, file.as_str()) {
        return Err(refusal(alloc, 12, path, script.line, copy_text(alloc, uri)?));
    }
    Ok(())
}

fn check_each_script(
    alloc: Global,
    table: &SourceTable<'_>,
    path: &Text,
    scripts: &[ScriptElement],
) -> Result<(), TablesAnswer>
    requires { IsIndexed table.now }
    ensures { Finds (λ found. found ≡ first (flat_map (missing_script (all_sources table.now) path.now) scripts.now)) result }
{
    for script in scripts {
        check_script(alloc, table, path, script)?;
    }
    Ok(())
}

fn check_component(
    alloc: Global,
    table: &SourceTable<'_>,
    component: &PathedComponent,
) -> Result<(), TablesAnswer>
    requires { IsIndexed table.now }
    ensures { Finds (λ found. found ≡ first (missing_in (all_sources table.now) component.now)) result }
{
    let scripts = component.file.scripts.as_slice();
    check_each_script(alloc, table, &component.path, scripts)
}

/// Refuses the first script, by path and then in the order of the file, whose uri names no source file that was read. A script without a uri is
/// good.
///
/// Source: SceneGraph XML Guide, "script", its attribute uri.
pub fn check_scripts(
    alloc: Global,
    table: &SourceTable<'_>,
    components: &[PathedComponent],
) -> Result<(), TablesAnswer>
    requires { IsIndexed table.now }
    ensures { Finds (λ found. found ≡ first (missing_scripts (all_sources table.now) components.now)) result }
{
    for component in components {
        check_component(alloc, table, component)?;
    }
    Ok(())
}
