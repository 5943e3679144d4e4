//! The first fault of a channel, kind by kind.
ghost use Rattle.std.specs.Prelude.{◌≡◌, ◌<◌, None};
ghost use Rattle.folder_rules.specs.Answers.{Finds};
ghost use Rattle.folder_rules.specs.Faults.{first};
ghost use Rattle.component_scopes.specs.Groups.{from_bases, from_fields, from_functions, from_scripts};
ghost use Rattle.folder_rules.specs.FirstFault.{IsFirstFault, IsFirstOfKinds};
ghost use Rattle.folder_rules.specs.KindFaults.{duplicate_components};
ghost use Rattle.folder_rules.specs.Kinds.{kind_names};
ghost use Rattle.folder_rules.specs.Names.{HasPlaces};
ghost use Rattle.folder_rules.specs.Scripts.{numbered};
ghost use Rattle.script_faults.specs.Sources.{function_count, IsTableOf};

use component_cycles::check_cycles;
use component_faults::{check_bases, check_children, check_main, check_types, kind_table};
use field_faults::{check_duplicate_fields, check_values};
use folder_rules::{NameTable, PathedComponent, SourceFunctions, TablesAnswer};
use script_faults::{
    SourceTable, check_duplicate_functions, check_functions, check_scripts, source_table,
};
use std::alloc::Global;

/// The first fault of the functions and children that components name, or that no function starts the channel.
fn check_uses(
    alloc: Global,
    names: &NameTable,
    table: &SourceTable<'_>,
    components: &[PathedComponent],
    sources: &[SourceFunctions],
) -> Result<(), TablesAnswer>
    requires places { HasPlaces names.now (kind_names components.now) }
    requires distinct { None ≡ first (duplicate_components components.now) }
    requires sources { IsTableOf table.now (numbered 0 sources.now) }
    ensures { Finds (IsFirstOfKinds components.now sources.now from_functions) result }
{
    check_functions(alloc, table, names, components)?;
    check_children(alloc, names, components)?;
    check_main(alloc, sources)
}

/// The first fault of fields, or of the kinds behind.
fn check_fields(
    alloc: Global,
    names: &NameTable,
    table: &SourceTable<'_>,
    components: &[PathedComponent],
    sources: &[SourceFunctions],
) -> Result<(), TablesAnswer>
    requires places { HasPlaces names.now (kind_names components.now) }
    requires distinct { None ≡ first (duplicate_components components.now) }
    requires sources { IsTableOf table.now (numbered 0 sources.now) }
    ensures { Finds (IsFirstOfKinds components.now sources.now from_fields) result }
{
    check_duplicate_fields(alloc, names, components)?;
    check_types(alloc, components)?;
    check_values(alloc, names, components)?;
    check_uses(alloc, names, table, components, sources)
}

/// The first fault of scripts, or of the kinds behind.
fn check_sources(
    alloc: Global,
    names: &NameTable,
    table: &SourceTable<'_>,
    components: &[PathedComponent],
    sources: &[SourceFunctions],
) -> Result<(), TablesAnswer>
    requires places { HasPlaces names.now (kind_names components.now) }
    requires distinct { None ≡ first (duplicate_components components.now) }
    requires sources { IsTableOf table.now (numbered 0 sources.now) }
    ensures { Finds (IsFirstOfKinds components.now sources.now from_scripts) result }
{
    check_scripts(alloc, table, components)?;
    check_duplicate_functions(alloc, table, components)?;
    check_fields(alloc, names, table, components, sources)
}

/// The first fault of bases, or of the kinds behind.
pub(crate) fn check_named(
    alloc: Global,
    names: &NameTable,
    components: &[PathedComponent],
    sources: &[SourceFunctions],
) -> Result<(), TablesAnswer>
    requires places { HasPlaces names.now (kind_names components.now) }
    requires distinct { None ≡ first (duplicate_components components.now) }
    requires few { function_count sources.now < 4294967296 }
    ensures { Finds (IsFirstOfKinds components.now sources.now from_bases) result }
{
    check_bases(alloc, names, components)?;
    check_cycles(alloc, names, components)?;
    let table = source_table(alloc, sources)?;
    check_sources(alloc, names, &table, components, sources)
}

/// Refuses the first fault of a channel's components, kind by kind: a kind of fault is looked at only where no earlier kind has a fault, and within
/// a kind the first is that by path, line and column. The components stand in order of path, and so do the sources, the inline scripts of a
/// component in their order in it. There are fewer than 2^32 functions in all.
///
/// Source: SceneGraph XML Guide, "component", "interface", "script" and "children".
pub fn first_fault(
    alloc: Global,
    components: &[PathedComponent],
    sources: &[SourceFunctions],
) -> Result<(), TablesAnswer>
    requires { function_count sources.now < 4294967296 }
    ensures { Finds (IsFirstFault components.now sources.now) result }
{
    let names = kind_table(alloc, components)?;
    check_named(alloc, &names, components, sources)
}
