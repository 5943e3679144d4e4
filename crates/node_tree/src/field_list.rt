//! The fields of a node, in order, found by their names in any case of the letters.
ghost use Rattle.std.specs.Prelude.{◌≡◌, [], ◌∷◌, ◌++◌, position, option_copied, IfOk, IfErr, OnOk, OnErr};
ghost use Rattle.chan_values.specs.Folded.{folded};
ghost use Rattle.field_types.specs.Words.{is_alike};
ghost use Rattle.node_tree.specs.Fields.{field_named, with_value};
ghost use Rattle.node_tree.specs.NameOrder.{names_of, IsNameOrder, IsNamedAt, IsNameGap};

use crate::field::Field;
use crate::held::Held;
use crate::names::compare_folded;
use chan_values::NoMemory;
use std::alloc::Global;
use std::cmp::Ordering;
use std::marker::Model;

/// The fields of a node. A field is found by a binary search for its name, whose letters are folded while they are compared, so that
/// a search takes no memory.
#[derive(Drop)]
pub struct FieldList {
    items: Vec<Field>,
    /// The place of the first field of each name, in the order of the folded names.
    order: Vec<usize>,
}

impl Model for FieldList {
    ghost use Rattle.std.specs.Prelude.{List};
    ghost use Rattle.std.specs.Coded.{codes};
    ghost use Rattle.chan_values.specs.Codes.{tree_code};
    ghost use Rattle.node_tree.specs.declared.field.Field.{Field as One};

    ghost Value = { List One };

    ghost coded = { Prim.hlevel (codes, tree_code) };

    ghost view = { λ l. l.items.items };

    ghost use Rattle.node_tree.specs.NameOrder.{names_of, IsNameOrder};

    ghost invariant = { λ l. IsNameOrder (names_of l.items.items) l.order.items };
}

/// The place at which the order leads to a field of this name, or else the one at which it would.
fn search(items: &[Field], order: &[usize], name: &[u8]) -> Result<usize, usize>
    requires { IsNameOrder (names_of items.now) order.now }
    ensures found { IfOk result (λ at. IsNamedAt (names_of items.now) order.now (folded name.now) at) }
    ensures gap { IfErr result (λ at. IsNameGap (names_of items.now) order.now (folded name.now) at) }
{
    let mut low = 0;
    let mut high = order.len();
    while low < high {
        let middle = low + (high - low) / 2;
        match compare_folded(name, items[order[middle]].id.as_str().as_bytes()) {
            Ordering::Less => high = middle,
            Ordering::Greater => low = middle + 1,
            Ordering::Equal => return Ok(middle),
        }
    }
    Err(low)
}

impl FieldList {
    pub fn new(alloc: Global) -> FieldList
        ensures { result ≡ [] }
    {
        FieldList {
            items: Vec::new(alloc),
            order: Vec::new(alloc),
        }
    }

    /// Adds a field at the end. After an `Err` nothing has changed.
    pub fn push(&mut self, field: Field) -> Result<(), NoMemory>
        ensures ok { OnOk result (self.new ≡ self.old ++ field ∷ []) }
        ensures err { OnErr result (self.new ≡ self.old) }
    {
        let at = self.items.len();
        let place = search(
            self.items.as_slice(),
            self.order.as_slice(),
            field.id.as_str().as_bytes(),
        );
        if self.items.push(field).is_err() {
            return Err(NoMemory);
        }
        match place {
            Ok(_) => Ok(()),
            Err(place) => match self.order.insert(place, at) {
                Ok(()) => Ok(()),
                Err(_) => {
                    self.items.truncate(at);
                    Err(NoMemory)
                }
            },
        }
    }

    pub fn as_slice(&self) -> &[Field]
        ensures { result.now ≡ self.now }
    {
        self.items.as_slice()
    }

    /// The field of this name.
    pub fn named(&self, name: &[u8]) -> Option<&Field>
        ensures { option_copied result ≡ field_named name.now self.now }
    {
        match self.place_of(name) {
            Some(at) => Some(&self.items[at]),
            None => None,
        }
    }

    fn place_of(&self, name: &[u8]) -> Option<usize>
        ensures { result ≡ position (λ f. is_alike f.id name.now) self.now }
    {
        match search(self.items.as_slice(), self.order.as_slice(), name) {
            Ok(at) => Some(self.order[at]),
            Err(_) => None,
        }
    }

    /// Gives the field of this name a value.
    pub fn set(&mut self, name: &[u8], value: Held)
        ensures { self.new ≡ with_value name.now value self.old }
    {
        if let Some(at) = self.place_of(name) {
            self.items[at].value = value;
        }
    }
}
