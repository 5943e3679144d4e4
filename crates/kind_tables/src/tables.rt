//! The tables of a channel's kinds.
ghost use Rattle.std.specs.Prelude.{◌≡◌, ℕ, ◌<◌, List, None, map, IfOk};
ghost use Rattle.std.specs.Option.{option_copied};
ghost use Rattle.chan_values.specs.Folded.{folded};
ghost use Rattle.folder_rules.specs.Faults.{first};
ghost use Rattle.folder_rules.specs.KindFaults.{duplicate_components};
ghost use Rattle.folder_rules.specs.Kinds.{kind_names};
ghost use Rattle.folder_rules.specs.Names.{HasPlaces};
ghost use Rattle.folder_rules.specs.Scripts.{source_functions};
ghost use Rattle.ordered_names.specs.Values.{value_of};
ghost use Rattle.script_faults.specs.Sources.{all_sources, function_count};
ghost use Rattle.kind_tables.specs.Ascending.{name_at};
ghost use Rattle.kind_tables.specs.Rows as rows;
ghost use Rattle.kind_tables.specs.Rows.{names_along};
ghost use Rattle.kind_tables.specs.Tables as spec;

use crate::ancestry::{Ancestry, row_at};
use crate::kinds::{component_names, kind_places, kind_rows};
use crate::own::function_names;
use crate::rows::KindRow;
use crate::scopes::{first_along, function_along, handler_along, has_interface_along};
use chan_values::{NoMemory, Text};
use folder_rules::{NameTable, PathedComponent, SourceFunctions};
use ordered_names::OrderedNames;
use script_faults::{SourceTable, source_functions, source_table};
use std::alloc::Global;

/// What the kinds of a channel are. No call takes memory. Kinds, functions and fields are named in any case of their ASCII letters.
#[derive(Drop)]
pub struct Tables {
    /// The place of each kind's row.
    places: OrderedNames<usize>,
    rows: Vec<KindRow>,
    /// The components.
    components: OrderedNames<()>,
    /// The functions of all files under `source` with their numbers.
    source: OrderedNames<u32>,
}

impl Tables {
    /// The row of a kind.
    fn row(&self, kind: &[u8]) -> Option<&KindRow>
        ensures { option_copied result ≡ spec.row_of self.now (folded kind.now) }
    {
        row_at(self.rows.as_slice(), self.places.get(kind).copied())
    }

    /// A kind and its bases.
    fn ancestry(&self, kind: &[u8]) -> Ancestry<'_>
        ensures { result ≡ spec.rows_of self.now (folded kind.now) }
    {
        Ancestry::new(self.rows.as_slice(), self.places.get(kind).copied())
    }

    /// The name of a kind's base, folded; `None` exactly where there is no such kind or it has no base.
    ///
    /// Source: SceneGraph XML Guide, "component", its attribute extends.
    pub fn base(&self, kind: &[u8]) -> Option<&Text>
        ensures { option_copied result ≡ spec.base_in self.now kind.now }
    {
        match self.row(kind) {
            Some(row) => row.base_name.as_ref(),
            None => None,
        }
    }

    /// The number of the function `init` of a kind's own scripts; `None` exactly where they have none. Those of its bases don't count.
    ///
    /// Source: SceneGraph XML Guide, "script", its section on init.
    pub fn own_init(&self, kind: &[u8]) -> Option<u32>
        ensures { result ≡ spec.own_init_in self.now kind.now }
    {
        match self.row(kind) {
            Some(row) => row.functions.get(b"init").copied(),
            None => None,
        }
    }

    /// The number of the function that a name reads as in the scope of a kind: that of its own scripts, else that of its base's scope. The empty
    /// kind stands for the functions of all files under `source`, which are in no other scope. `None` exactly where there is no such function.
    ///
    /// Source: SceneGraph XML Guide, "script".
    pub fn function(&self, kind: &[u8], name: &[u8]) -> Option<u32>
        ensures { result ≡ spec.function_in self.now kind.now name.now }
    {
        match kind {
            [] => self.source.get(name).copied(),
            [_, ..] => function_along(self.ancestry(kind), name),
        }
    }

    /// The function, folded, that a field of a kind or of its bases calls at its change; `None` exactly where there is no such field or it calls
    /// none.
    ///
    /// Source: SceneGraph XML Guide, "interface", its attribute onChange.
    pub fn on_change(&self, kind: &[u8], field: &[u8]) -> Option<&Text>
        ensures { option_copied result ≡ spec.on_change_in self.now kind.now field.now }
    {
        match handler_along(self.ancestry(kind), field) {
            Some(handler) => handler.as_ref(),
            None => None,
        }
    }

    /// Whether the interface of a kind, or of one of its bases, has a function.
    ///
    /// Source: SceneGraph XML Guide, "interface", its element function.
    pub fn has_interface(&self, kind: &[u8], name: &[u8]) -> bool
        ensures { result ≡ spec.has_interface_in self.now kind.now name.now }
    {
        has_interface_along(self.ancestry(kind), name)
    }

    /// The name, folded, of the component at a place, counted from 0, in ascending byte order; `None` exactly behind the last one.
    pub fn kind_at(&self, at: usize) -> Option<&Text>
        ensures { option_copied result ≡ spec.kind_at_in self.now at }
    {
        self.components.name_at(at)
    }

    /// The name, folded, at a place, counted from 0, of the functions in the scope of a kind, in ascending byte order; `None` exactly behind the
    /// last one. The empty kind stands for the functions of all files under `source`.
    pub fn name_at(&self, kind: &[u8], at: usize) -> Option<&Text>
        ensures { option_copied result ≡ spec.scope_name_in self.now kind.now at }
    {
        match kind {
            [] => self.source.name_at(at),
            [_, ..] => self.name_along(kind, at),
        }
    }

    /// The name at a place of the functions of a kind and its bases.
    fn name_along(&self, kind: &[u8], at: usize) -> Option<&Text>
        ensures { option_copied result ≡ name_at at (names_along (spec.rows_of self.now (folded kind.now))) }
    {
        let mut name = first_along(self.ancestry(kind), None);
        let mut left = at;
        while left > 0 {
            left -= 1;
            let Some(last) = name else {
                return None;
            };
            name = first_along(self.ancestry(kind), Some(last.as_str()));
        }
        name
    }
}

/// The functions of all files under `source`.
fn source_names(alloc: Global, table: &SourceTable<'_>) -> Result<OrderedNames<u32>, NoMemory>
    requires { rows.AreFew (all_sources table.now) }
    ensures { IfOk result (λ names. (name : List ℕ) → value_of names name ≡ value_of (map rows.named_number (source_functions (all_sources table.now))) name) }
{
    let functions = source_functions(alloc, table)?;
    function_names(alloc, functions.as_slice())
}

/// The tables of a channel whose components have names of their own. `names` is the table that `kind_table` gives. The components stand in order
/// of path, and so do the sources, the inline scripts of a component behind it in their order in it. Functions are numbered over all sources.
pub fn kind_tables(
    alloc: Global,
    names: &NameTable,
    components: &[PathedComponent],
    sources: &[SourceFunctions],
) -> Result<Tables, NoMemory>
    requires few { function_count sources.now < 4294967296 }
    requires places { HasPlaces names.now (kind_names components.now) }
    requires distinct { None ≡ first (duplicate_components components.now) }
    ensures { IfOk result (spec.AreTablesOf components.now sources.now) }
{
    let table = source_table(alloc, sources)?;
    let rows = kind_rows(alloc, &table, names, components)?;
    let places = kind_places(alloc, components)?;
    let components = component_names(alloc, components)?;
    let source = source_names(alloc, &table)?;
    Ok(Tables {
        places,
        rows,
        components,
        source,
    })
}
