//! Reads, sets and additions of fields.
ghost use Rattle.std.specs.Prelude.{◌≡◌, not, IsUtf8, IfOk, OnOk, OnErr};
ghost use Rattle.std.specs.Option.{option_copied, option_map};
ghost use Rattle.chan_values.specs.View.{tree_of};
ghost use Rattle.node_tree.specs.Nodes.{IsNode};
ghost use Rattle.node_tree.specs.Fields.{value_of, field_of, has_field, set_answer, after_set, after_add, Line, line_at};

use crate::answers::{FieldLine, SetResult};
use crate::closed::stays_closed;
use crate::field::Field;
use crate::held::Held;
use crate::nodes::Nodes;
use chan_values::{NoMemory, Portable, fold_name};
use field_types::{FieldType, convert, opening};

impl Nodes {
    /// The value of a field, whose name is in any case of its letters, `None` exactly where the node has no such field.
    /// Takes no memory.
    ///
    /// Source: SceneGraph Reference, "ifSGNodeField", "getField".
    pub fn get_field(&self, node: u32, field: &[u8]) -> Option<&Portable>
        requires { IsNode self.now node }
        ensures { option_map tree_of (option_copied result) ≡ value_of self.now node field.now }
    {
        match self.node(node).fields.named(field) {
            None => None,
            Some(field) => Some(field.value.get()),
        }
    }

    /// Sets a field. A value that fits is held as the field's type says, and the set counts as a change where the field counts each set
    /// or the value differs. After an `Err` nothing has changed.
    ///
    /// Source: SceneGraph Reference, "ifSGNodeField", "setField", and SceneGraph XML Guide, "interface", on `alwaysNotify`.
    pub fn set_field(
        &mut self,
        node: u32,
        field: &[u8],
        p: &Portable,
    ) -> Result<SetResult, NoMemory>
        requires { IsNode self.old node }
        ensures answer { IfOk result (λ r. r ≡ set_answer (field_of self.old node field.now) (tree_of p.now)) }
        ensures after { OnOk result (self.new ≡ after_set self.old node field.now (tree_of p.now)) }
        ensures err { OnErr result (self.new ≡ self.old) }
    {
        let Some(old) = self.node(node).fields.named(field) else {
            return Ok(SetResult::NoField);
        };
        let Some(value) = convert(self.alloc, old.kind, p)? else {
            return Ok(SetResult::NoFit);
        };
        if !old.always && old.value.is(&value) {
            return Ok(SetResult::Same);
        }
        let closed = stays_closed(
            self.alloc,
            self.nodes.as_slice(),
            self.closed,
            self.owner(node),
            &value,
        )?;
        self.nodes[node as usize - 1]
            .fields
            .set(field, Held::new(value));
        self.closed = closed;
        Ok(SetResult::Changed)
    }

    /// Adds a field that holds its type's opening value, and answers whether it did: false exactly where the node has a field
    /// of this name, in any case of its letters. After an `Err` nothing has changed.
    ///
    /// Source: SceneGraph Reference, "ifSGNodeField", "addField".
    pub fn add_field(
        &mut self,
        node: u32,
        field: &[u8],
        t: FieldType,
        always: bool,
    ) -> Result<bool, NoMemory>
        requires node { IsNode self.old node }
        requires text { IsUtf8 field.now }
        ensures answer { IfOk result (λ added. added ≡ not (has_field self.old node field.now)) }
        ensures after { OnOk result (self.new ≡ after_add self.old node field.now t always) }
        ensures err { OnErr result (self.new ≡ self.old) }
    {
        if self.node(node).fields.named(field).is_some() {
            return Ok(false);
        }
        let added = Field {
            id: fold_name(self.alloc, field)?,
            kind: t,
            always,
            value: Held::new(opening(self.alloc, t)),
            opening: Held::new(opening(self.alloc, t)),
        };
        self.nodes[node as usize - 1].fields.push(added)?;
        Ok(true)
    }

    /// The field at a place of the report, counted from 0: first those of the node's kind, in the order of the kind's table, then those
    /// that were added. `None` exactly past the end. Takes no memory.
    pub fn field_at(&self, node: u32, at: usize) -> Option<FieldLine<'_>>
        requires { IsNode self.now node }
        ensures { option_map (λ l. let shown : Line = record { id = l.id.now; value = tree_of l.value.now; opening = l.opening } in shown) result ≡ line_at self.now node at }
    {
        match self.node(node).fields.as_slice().get(at) {
            None => None,
            Some(field) => Some(FieldLine {
                id: &field.id,
                value: field.value.get(),
                opening: field.opening.is(field.value.get()),
            }),
        }
    }
}
