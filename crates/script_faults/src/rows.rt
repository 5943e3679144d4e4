//! The functions of each kind's own scripts, and where its base stands.
ghost use Rattle.std.specs.Prelude.{◌≡◌, ℕ, List, [], ◌∷◌, ◌||◌, ◌++◌, length, map, None, IfOk, OnOk};
ghost use Rattle.std.specs.Option.{option_copied};
ghost use Rattle.std.specs.Str.{bytes_eq};
ghost use Rattle.folder_rules.specs.Faults.{first};
ghost use Rattle.folder_rules.specs.KindFaults.{duplicate_components};
ghost use Rattle.folder_rules.specs.Kinds.{all_kinds, base_name, kind_names};
ghost use Rattle.folder_rules.specs.Names.{is_among, is_known, number_in, HasPlaces};
ghost use Rattle.folder_rules.specs.Scripts as scripts;
ghost use Rattle.script_faults.specs.Functions.{functions_of};
ghost use Rattle.script_faults.specs.Rows as spec;
ghost use Rattle.script_faults.specs.Sources.{all_sources, IsIndexed};

use crate::{PlacedFunction, SourceTable, own_functions};
use chan_values::{NoMemory, copy_text, fold_name};
use folder_rules::{NameTable, PathedComponent};
use std::alloc::Global;

/// A kind: the names of the functions of its own scripts, and the place of its base.
#[derive(Drop)]
pub struct KindFunctions {
    pub names: NameTable,
    /// `None` where there is no base, or no kind of its name.
    pub base: Option<usize>,
}

/// The place of the base of each built-in kind, in the order of their places.
const BASES: [Option<usize>; 9] = [
    None,
    Some(0),
    Some(1),
    Some(1),
    Some(1),
    Some(1),
    Some(1),
    Some(0),
    Some(0),
];

fn row_at(rows: &[KindFunctions], place: Option<usize>) -> Option<&KindFunctions>
    ensures { option_copied result ≡ spec.row_at rows.now place }
{
    match place {
        Some(place) => rows.get(place),
        None => None,
    }
}

/// Whether the scripts of the kind at a place, or of one that it leads to by bases, have a function of this name. Looks at each of these kinds once.
#[tactic(auto, using(crate::proofs::Walks::walk_more))]
pub fn has_function(rows: &[KindFunctions], from: Option<usize>, name: &str) -> bool
    ensures { result ≡ spec.has_function (length rows.now) rows.now from name.now }
{
    let mut place = from;
    let mut left = rows.len();
    while left > 0 {
        left -= 1;
        let Some(row) = row_at(rows, place) else {
            return false;
        };
        if row.names.get(name).is_some() {
            return true;
        }
        place = row.base;
    }
    false
}

/// Adds the row of a kind.
fn push_row(rows: &mut Vec<KindFunctions>, row: KindFunctions) -> Result<(), NoMemory>
    ensures { OnOk result (rows.new.items ≡ rows.old.items ++ row ∷ []) }
{
    match rows.push(row) {
        Ok(()) => Ok(()),
        Err(_) => Err(NoMemory),
    }
}

/// The rows of kinds without scripts, with these bases.
fn rows_of(alloc: Global, bases: &[Option<usize>]) -> Result<Vec<KindFunctions>, NoMemory>
    ensures { IfOk result (λ rows. spec.Each spec.IsOfBase rows.items bases.now) }
{
    let mut rows = Vec::new(alloc);
    for base in bases {
        let row = KindFunctions {
            names: NameTable::new(alloc),
            base: *base,
        };
        push_row(&mut rows, row)?;
    }
    Ok(rows)
}

fn built_in_rows(alloc: Global) -> Result<Vec<KindFunctions>, NoMemory>
    ensures { IfOk result (λ rows. spec.Each spec.IsOfBase rows.items spec.built_in_bases) }
{
    rows_of(alloc, &BASES)
}

/// Adds the name of a function.
fn add_name(
    alloc: Global,
    names: &mut NameTable,
    function: PlacedFunction<'_>,
) -> Result<(), NoMemory>
    ensures { OnOk result ((name : List ℕ) → is_known names.new name ≡ (is_known names.old name || bytes_eq function.entry.declared.now.name name)) }
{
    names.add(copy_text(alloc, &function.declared.name)?, 0)
}

fn names_of(alloc: Global, functions: &[PlacedFunction<'_>]) -> Result<NameTable, NoMemory>
    ensures { IfOk result (λ names. (name : List ℕ) → is_known names name ≡ is_among (map (λ f. f.name) (functions_of functions.now)) name) }
{
    let mut names = NameTable::new(alloc);
    for function in functions {
        add_name(alloc, &mut names, *function)?;
    }
    Ok(names)
}

/// The names of the functions of a component's own scripts.
fn own_names(
    alloc: Global,
    table: &SourceTable<'_>,
    component: &PathedComponent,
) -> Result<NameTable, NoMemory>
    requires { IsIndexed table.now }
    ensures { IfOk result (λ names. (name : List ℕ) → is_known names name ≡ is_among (map (λ f. f.name) (scripts.own_functions (all_sources table.now) component.now)) name) }
{
    let own = own_functions(alloc, table, component)?;
    names_of(alloc, own.as_slice())
}

/// The place that a table of names has for a component's base.
fn base_of(
    alloc: Global,
    names: &NameTable,
    component: &PathedComponent,
) -> Result<Option<usize>, NoMemory>
    ensures { IfOk result (λ base. base ≡ number_in names.now (base_name component.now)) }
{
    let base = fold_name(alloc, component.file.extends.as_str().as_bytes())?;
    Ok(names.get(base.as_str()))
}

/// The row of a component.
fn row_of(
    alloc: Global,
    table: &SourceTable<'_>,
    names: &NameTable,
    component: &PathedComponent,
) -> Result<KindFunctions, NoMemory>
    requires { IsIndexed table.now }
    ensures { IfOk result (spec.IsOfComponent (all_sources table.now) names.now component.now) }
{
    let base = base_of(alloc, names, component)?;
    let names = own_names(alloc, table, component)?;
    Ok(KindFunctions { names, base })
}

/// The rows of all kinds, those of the built-in kinds and then those of the components. `names` is the table that `kind_table` gives.
pub fn kind_rows(
    alloc: Global,
    table: &SourceTable<'_>,
    names: &NameTable,
    components: &[PathedComponent],
) -> Result<Vec<KindFunctions>, NoMemory>
    requires indexed { IsIndexed table.now }
    requires places { HasPlaces names.now (kind_names components.now) }
    requires distinct { None ≡ first (duplicate_components components.now) }
    ensures { IfOk result (λ rows. spec.AreRows (all_sources table.now) components.now (kind_names components.now) rows.items (all_kinds components.now)) }
{
    let mut rows = built_in_rows(alloc)?;
    for component in components {
        let row = row_of(alloc, table, names, component)?;
        push_row(&mut rows, row)?;
    }
    Ok(rows)
}
