//! The tables of a channel without a fault.
ghost use Rattle.std.specs.Prelude.{◌<◌, IfOk};
ghost use Rattle.folder_rules.specs.Answers.{Finds};
ghost use Rattle.folder_rules.specs.FirstFault.{IsFirstFault};
ghost use Rattle.kind_tables.specs.Tables.{AreTablesOf};
ghost use Rattle.script_faults.specs.Sources.{function_count};

use crate::order::check_named;
use component_faults::kind_table;
use folder_rules::{PathedComponent, SourceFunctions, TablesAnswer};
use kind_tables::{Tables, kind_tables};
use std::alloc::Global;

/// The tables of a channel's kinds, exactly where the channel has no fault, else the first fault: that which `first_fault` gives. The components
/// stand in order of path, and so do the sources, the inline scripts of a component in their order in it. There are fewer than 2^32 functions in
/// all, and they are numbered over all sources.
///
/// Source: SceneGraph XML Guide, "component", "interface", "script" and "children".
pub fn tables(
    alloc: Global,
    components: &[PathedComponent],
    sources: &[SourceFunctions],
) -> Result<Tables, TablesAnswer>
    requires { function_count sources.now < 4294967296 }
    ensures fault { Finds (IsFirstFault components.now sources.now) result }
    ensures tables { IfOk result (AreTablesOf components.now sources.now) }
{
    let names = kind_table(alloc, components)?;
    check_named(alloc, &names, components, sources)?;
    Ok(kind_tables(alloc, &names, components, sources)?)
}
