//! What the fields of a channel's kinds hold.
ghost use Rattle.std.specs.Prelude.{◌≡◌, IfOk};
ghost use Rattle.folder_rules.specs.FieldFaults.{type_of};
ghost use Rattle.folder_rules.specs.Kinds.{all_kinds, field_named, field_table, kind_names};
ghost use Rattle.folder_rules.specs.Names.{HasPlaces};

use crate::rows::{KindFields, field_at, kind_rows};
use crate::values::type_there;
use chan_values::NoMemory;
use field_types::FieldType;
use folder_rules::{NameTable, PathedComponent};
use std::alloc::Global;
use std::marker::Model;

/// The types of the fields of all kinds of a channel. Contracts see the list of the kinds.
#[derive(Drop)]
pub struct FieldTable<'a> {
    names: &'a NameTable,
    rows: Vec<KindFields>,
    components: &'a [PathedComponent],
}

impl<'a> Model for FieldTable<'a> {
    ghost use Rattle.std.specs.Prelude.{List};
    ghost use Rattle.folder_rules.specs.Kinds.{Kind, all_kinds};
    ghost use Rattle.field_faults.specs.Rows.{HasRowsOf};

    ghost Value = { List Kind };

    ghost view = { λ t. all_kinds t.components.now };

    ghost invariant = { λ t. HasRowsOf t.names.now t.rows.items t.components.now };
}

impl<'a> FieldTable<'a> {
    /// The table of a channel's components. `names` is the table that `kind_table` gives.
    pub fn new(
        alloc: Global,
        names: &'a NameTable,
        components: &'a [PathedComponent],
    ) -> Result<FieldTable<'a>, NoMemory>
        requires { HasPlaces names.now (kind_names components.now) }
        ensures { IfOk result (λ table. table ≡ all_kinds components.now) }
    {
        let rows = kind_rows(alloc, names, components)?;
        Ok(FieldTable {
            names,
            rows,
            components,
        })
    }

    /// The components. Takes no memory.
    pub fn components(&self) -> &'a [PathedComponent]
        ensures { all_kinds result.now ≡ self.now }
    {
        self.components
    }

    /// What the field of an id holds that a kind has, bases included; a base's comes before that of the kind. Both names stand folded. `None`
    /// exactly where there is no such kind or no such field, or the field's word is no type. Looks at each base once, and takes no memory.
    ///
    /// Source: SceneGraph XML Guide, "interface".
    pub fn holds(&self, kind: &str, id: &str) -> Option<FieldType>
        ensures { result ≡ type_of (field_named (field_table self.now kind.now) id.now) }
    {
        type_there(field_at(self.rows.as_slice(), self.names.get(kind), id))
    }
}
