//! The kinds of a channel: those that are built in, and its components.
ghost use Rattle.std.specs.Prelude.{◌≡◌, ℕ, ◌<◌, List, [], ◌∷◌, ◌++◌, None, is_some, map, IfOk, OnOk};
ghost use Rattle.folder_rules.specs.Faults.{first};
ghost use Rattle.folder_rules.specs.KindFaults.{duplicate_components};
ghost use Rattle.folder_rules.specs.Kinds.{all_kinds, base_name, built_in_names, component_name, kind_names};
ghost use Rattle.folder_rules.specs.Names.{is_among, number_in, place_of, HasPlaces};
ghost use Rattle.ordered_names.specs.Values.{value_in, value_of};
ghost use Rattle.folder_rules.specs.Scripts as scripts;
ghost use Rattle.script_faults.specs.Rows.{Each};
ghost use Rattle.script_faults.specs.Sources.{all_sources, IsIndexed};
ghost use Rattle.kind_tables.specs.Rows as spec;

use crate::own::{function_names, handlers, interface_names};
use crate::rows::KindRow;
use chan_values::{NoMemory, Text, fold_name};
use folder_rules::{NameTable, PathedComponent};
use ordered_names::{NameDraft, OrderedNames};
use script_faults::{SourceTable, own_functions};
use std::alloc::Global;

/// The names of the kinds that every channel has, folded.
const BUILT_IN: [&str; 9] = [
    "node",
    "group",
    "layoutgroup",
    "scene",
    "label",
    "rectangle",
    "poster",
    "contentnode",
    "task",
];

/// The place and the name of the base of each built-in kind, in the order of their places.
const BASES: [Option<(usize, &str)>; 9] = [
    None,
    Some((0, "node")),
    Some((1, "group")),
    Some((1, "group")),
    Some((1, "group")),
    Some((1, "group")),
    Some((1, "group")),
    Some((0, "node")),
    Some((0, "node")),
];

fn text_of(alloc: Global, word: &str) -> Result<Text, NoMemory>
    ensures { IfOk result (λ text. text ≡ word.now) }
{
    let mut text = Text::new(alloc);
    text.push_str(word)?;
    Ok(text)
}

/// A kind with nothing of its own, and its base. Takes no memory.
fn bare_row(alloc: Global, base: Option<usize>, base_name: Option<Text>) -> KindRow
    ensures { spec.IsBare base base_name result }
{
    KindRow {
        base,
        base_name,
        functions: OrderedNames::empty(alloc),
        handlers: OrderedNames::empty(alloc),
        interface: OrderedNames::empty(alloc),
    }
}

/// A built-in kind.
fn built_in_row(alloc: Global, base: Option<(usize, &str)>) -> Result<KindRow, NoMemory>
    ensures { IfOk result (λ row. spec.IsOfBase row (spec.base_of base.entry)) }
{
    match base {
        Some((place, name)) => {
            let name = text_of(alloc, name)?;
            Ok(bare_row(alloc, Some(place), Some(name)))
        }
        None => Ok(bare_row(alloc, None, None)),
    }
}

/// Adds the row of a kind.
fn push_row(rows: &mut Vec<KindRow>, row: KindRow) -> Result<(), NoMemory>
    ensures { OnOk result (rows.new.items ≡ rows.old.items ++ row ∷ []) }
{
    match rows.push(row) {
        Ok(()) => Ok(()),
        Err(_) => Err(NoMemory),
    }
}

fn rows_of(alloc: Global, bases: &[Option<(usize, &str)>]) -> Result<Vec<KindRow>, NoMemory>
    ensures { IfOk result (λ rows. Each spec.IsOfBase rows.items (map spec.base_of bases.now)) }
{
    let mut rows = Vec::new(alloc);
    for base in bases {
        let row = built_in_row(alloc, *base)?;
        push_row(&mut rows, row)?;
    }
    Ok(rows)
}

fn built_in_rows(alloc: Global) -> Result<Vec<KindRow>, NoMemory>
    ensures { IfOk result (λ rows. Each spec.IsOfBase rows.items spec.built_in_bases) }
{
    rows_of(alloc, &BASES)
}

/// The numbers of the functions of a component's own scripts.
fn own_numbers(
    alloc: Global,
    table: &SourceTable<'_>,
    component: &PathedComponent,
) -> Result<OrderedNames<u32>, NoMemory>
    requires indexed { IsIndexed table.now }
    requires few { spec.AreFew (all_sources table.now) }
    ensures { IfOk result (λ names. (name : List ℕ) → value_of names name ≡ value_of (map spec.named_number (scripts.own_functions (all_sources table.now) component.now)) name) }
{
    let functions = own_functions(alloc, table, component)?;
    function_names(alloc, functions.as_slice())
}

/// The row of a component.
fn row_of(
    alloc: Global,
    table: &SourceTable<'_>,
    names: &NameTable,
    component: &PathedComponent,
) -> Result<KindRow, NoMemory>
    requires indexed { IsIndexed table.now }
    requires few { spec.AreFew (all_sources table.now) }
    ensures { IfOk result (spec.IsOfComponent (all_sources table.now) names.now component.now) }
{
    let base = fold_name(alloc, component.file.extends.as_str().as_bytes())?;
    let functions = own_numbers(alloc, table, component)?;
    let handlers = handlers(alloc, component.file.fields.as_slice())?;
    let interface = interface_names(alloc, component.file.functions.as_slice())?;
    Ok(KindRow {
        base: names.get(base.as_str()),
        base_name: Some(base),
        functions,
        handlers,
        interface,
    })
}

/// The rows of all kinds, those of the built-in kinds and then those of the components. `names` is the table that `kind_table` gives.
pub(crate) fn kind_rows(
    alloc: Global,
    table: &SourceTable<'_>,
    names: &NameTable,
    components: &[PathedComponent],
) -> Result<Vec<KindRow>, NoMemory>
    requires indexed { IsIndexed table.now }
    requires few { spec.AreFew (all_sources table.now) }
    requires places { HasPlaces names.now (kind_names components.now) }
    requires distinct { None ≡ first (duplicate_components components.now) }
    ensures { IfOk result (λ rows. Each (spec.IsRow (all_sources table.now) components.now (kind_names components.now)) rows.items (all_kinds components.now)) }
{
    let mut rows = built_in_rows(alloc)?;
    for component in components {
        let row = row_of(alloc, table, names, component)?;
        push_row(&mut rows, row)?;
    }
    Ok(rows)
}

/// The names of components, in order.
pub(crate) fn component_names(
    alloc: Global,
    components: &[PathedComponent],
) -> Result<OrderedNames<()>, NoMemory>
    ensures { IfOk result (λ names. (name : List ℕ) → is_some (value_of names name) ≡ is_among (map component_name components.now) name) }
{
    let mut names = NameDraft::new(alloc);
    for component in components {
        names.add_folded(alloc, &component.file.name, ())?;
    }
    names.into_ordered(alloc)
}

/// Words, each with its place.
fn word_places(alloc: Global, words: &[&str]) -> Result<NameDraft<usize>, NoMemory>
    ensures { IfOk result (λ names. (name : List ℕ) → value_in names name ≡ place_of (map (λ word. word.now) words.now) name) }
{
    let mut names = NameDraft::new(alloc);
    for (place, word) in words.iter().enumerate() {
        let name = text_of(alloc, word)?;
        names.add(name, place)?;
    }
    Ok(names)
}

#[tactic(auto, unfolding(folder_rules::specs::Kinds::built_in_names))]
fn built_in_places(alloc: Global) -> Result<NameDraft<usize>, NoMemory>
    ensures { IfOk result (λ names. (name : List ℕ) → value_in names name ≡ place_of built_in_names name) }
{
    word_places(alloc, &BUILT_IN)
}

/// The place of the row of each kind.
pub(crate) fn kind_places(
    alloc: Global,
    components: &[PathedComponent],
) -> Result<OrderedNames<usize>, NoMemory>
    ensures { IfOk result (λ names. (name : List ℕ) → value_of names name ≡ place_of (kind_names components.now) name) }
{
    let mut names = built_in_places(alloc)?;
    for (i, component) in components.iter().enumerate() {
        names.add_folded(alloc, &component.file.name, BUILT_IN.len() + i)?;
    }
    names.into_ordered(alloc)
}
