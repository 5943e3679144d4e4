//! The fields of each kind, and where its base stands.
ghost use Rattle.std.specs.Prelude.{◌≡◌, ℕ, List, [], ◌∷◌, ◌++◌, map, IfOk, OnOk};
ghost use Rattle.std.specs.Option.{option_copied};
ghost use Rattle.field_faults.specs.Rows as spec;
ghost use Rattle.folder_rules.specs.Kinds as k;
ghost use Rattle.folder_rules.specs.Kinds.{all_kinds, base_name, built_in_kinds, built_in_names, declared_field, kind_names};
ghost use Rattle.folder_rules.specs.Names.{number_in, HasPlaces};

use chan_values::{NoMemory, Text, fold_name};
use component_files::FieldElement;
use field_types::{FieldType, field_type};
use folder_rules::{NameTable, PathedComponent};
use std::alloc::Global;

/// A kind: the fields of its own, and the place of its base.
#[derive(Drop)]
pub(crate) struct KindFields {
    /// The id of each field with its place, of those with one id the first.
    ids: NameTable,
    /// What each field holds, `None` where its word is no type.
    types: Vec<Option<FieldType>>,
    /// `None` where there is no base, or no kind of its name.
    base: Option<usize>,
}

/// The base and the fields of each built-in kind, in the order of their places.
const BUILT_IN: [(Option<usize>, &[(&str, FieldType)]); 9] = [
    (
        None,
        &[
            ("id", FieldType::String),
            ("focusable", FieldType::Boolean),
            ("focusedchild", FieldType::Node),
        ],
    ),
    (Some(0), &[("visible", FieldType::Boolean)]),
    (Some(1), &[]),
    (Some(1), &[]),
    (
        Some(1),
        &[("text", FieldType::String), ("color", FieldType::String)],
    ),
    (
        Some(1),
        &[
            ("width", FieldType::Integer),
            ("height", FieldType::Integer),
            ("color", FieldType::String),
        ],
    ),
    (
        Some(1),
        &[
            ("uri", FieldType::String),
            ("width", FieldType::Integer),
            ("height", FieldType::Integer),
        ],
    ),
    (
        Some(0),
        &[
            ("title", FieldType::String),
            ("description", FieldType::String),
            ("url", FieldType::String),
        ],
    ),
    (
        Some(0),
        &[
            ("functionname", FieldType::String),
            ("control", FieldType::String),
            ("state", FieldType::String),
        ],
    ),
];

impl KindFields {
    /// A kind without fields of its own. Takes no memory.
    fn new(alloc: Global, base: Option<usize>) -> KindFields
        ensures { spec.IsOf base [] result }
    {
        KindFields {
            ids: NameTable::new(alloc),
            types: Vec::new(alloc),
            base,
        }
    }

    /// Adds a field at the end.
    fn add(&mut self, id: Text, holds: Option<FieldType>) -> Result<(), NoMemory>
        ensures { OnOk result (spec.HasFieldsMore self.old self.new (record { id = id; holds = holds } ∷ [])) }
    {
        self.ids.add(id, self.types.len())?;
        match self.types.push(holds) {
            Ok(()) => Ok(()),
            Err(_) => Err(NoMemory),
        }
    }

    /// What the first field of an id holds. Takes no memory.
    fn field(&self, id: &str) -> Option<Option<FieldType>>
        ensures { result ≡ spec.own_field self.now id.now }
    {
        match self.ids.get(id) {
            Some(place) => self.types.get(place).copied(),
            None => None,
        }
    }
}

fn row_at(rows: &[KindFields], place: Option<usize>) -> Option<&KindFields>
    ensures { option_copied result ≡ spec.item_at rows.now place }
{
    match place {
        Some(place) => rows.get(place),
        None => None,
    }
}

/// What the field of an id holds that the kind at a place has, bases included; a base's comes before that of the kind. Looks at each of these kinds
/// once, and takes no memory.
#[tactic(auto, using(crate::proofs::Walks::walk_steps))]
pub(crate) fn field_at(
    rows: &[KindFields],
    from: Option<usize>,
    id: &str,
) -> Option<Option<FieldType>>
    ensures { result ≡ spec.field_at rows.now from id.now }
{
    let mut found = None;
    let mut place = from;
    let mut left = rows.len();
    while left > 0 {
        left -= 1;
        let Some(row) = row_at(rows, place) else {
            return found;
        };
        found = row.field(id).or(found);
        place = row.base;
    }
    found
}

/// Adds the fields of a built-in kind.
fn add_words(
    alloc: Global,
    row: &mut KindFields,
    words: &[(&str, FieldType)],
) -> Result<(), NoMemory>
    ensures { OnOk result (spec.HasFieldsMore row.old row.new (map (λ word. k.field word.0.now word.1) words.now)) }
{
    for word in words {
        let mut id = Text::new(alloc);
        id.push_str(word.0)?;
        row.add(id, Some(word.1))?;
    }
    Ok(())
}

/// Adds the row of a built-in kind.
fn push_words(
    alloc: Global,
    rows: &mut Vec<KindFields>,
    base: Option<usize>,
    words: &[(&str, FieldType)],
) -> Result<(), NoMemory>
    ensures { OnOk result (spec.HasOneMore rows.old.items rows.new.items (spec.IsOf base (map (λ word. k.field word.0.now word.1) words.now))) }
{
    let mut row = KindFields::new(alloc, base);
    add_words(alloc, &mut row, words)?;
    match rows.push(row) {
        Ok(()) => Ok(()),
        Err(_) => Err(NoMemory),
    }
}

fn rows_of(
    alloc: Global,
    table: &[(Option<usize>, &[(&str, FieldType)])],
) -> Result<Vec<KindFields>, NoMemory>
    ensures { IfOk result (λ rows. spec.Each spec.IsOfWords rows.items (map (λ row. (row.0, map (λ word. k.field word.0.now word.1) row.1.now)) table.now)) }
{
    let mut rows = Vec::new(alloc);
    for row in table {
        push_words(alloc, &mut rows, row.0, row.1)?;
    }
    Ok(rows)
}

fn built_in_rows(alloc: Global) -> Result<Vec<KindFields>, NoMemory>
    ensures { IfOk result (λ rows. (names : List (List ℕ)) → spec.AreRows (built_in_names ++ names) rows.items built_in_kinds) }
{
    rows_of(alloc, &BUILT_IN)
}

/// Adds the fields of an interface.
fn add_fields(alloc: Global, row: &mut KindFields, fields: &[FieldElement]) -> Result<(), NoMemory>
    ensures { OnOk result (spec.HasFieldsMore row.old row.new (map declared_field fields.now)) }
{
    for field in fields {
        let id = fold_name(alloc, field.id.as_str().as_bytes())?;
        row.add(id, field_type(field.word.as_str().as_bytes()))?;
    }
    Ok(())
}

/// Adds the row of a component.
fn push_component(
    alloc: Global,
    rows: &mut Vec<KindFields>,
    names: &NameTable,
    component: &PathedComponent,
) -> Result<(), NoMemory>
    ensures { OnOk result (spec.HasOneMore rows.old.items rows.new.items (spec.IsOf (number_in names.now (base_name component.now)) (map declared_field component.now.file.fields))) }
{
    let base = fold_name(alloc, component.file.extends.as_str().as_bytes())?;
    let mut row = KindFields::new(alloc, names.get(base.as_str()));
    add_fields(alloc, &mut row, component.file.fields.as_slice())?;
    match rows.push(row) {
        Ok(()) => Ok(()),
        Err(_) => Err(NoMemory),
    }
}

/// The rows of all kinds, those of the built-in kinds and then those of the components. `names` is the table that `kind_table` gives.
pub(crate) fn kind_rows(
    alloc: Global,
    names: &NameTable,
    components: &[PathedComponent],
) -> Result<Vec<KindFields>, NoMemory>
    requires { HasPlaces names.now (kind_names components.now) }
    ensures { IfOk result (λ rows. spec.AreRows (kind_names components.now) rows.items (all_kinds components.now)) }
{
    let mut rows = built_in_rows(alloc)?;
    for component in components {
        push_component(alloc, &mut rows, names, component)?;
    }
    Ok(rows)
}
