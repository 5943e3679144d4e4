//! The search for a descendant by its id.
ghost use Rattle.std.specs.Prelude.{◌≡◌, ◌∷◌, ◌++◌, map, reverse, IfOk, OnOk};
ghost use Rattle.std.specs.Option.{option_copied};
ghost use Rattle.node_tree.specs.Nodes.{IsNode, node_at, children_of};
ghost use Rattle.node_tree.specs.Search.{has_id, found};
ghost use Rattle.node_tree.specs.Pending.{pending_at};

use crate::closed::node_of;
use crate::node::Node;
use crate::nodes::Nodes;
use chan_values::{NoMemory, Portable};

/// A node to look at, and how many levels there may be from it downward, its own included.
#[derive(Clone, Copy, Debug)]
pub struct Pending {
    pub node: u32,
    pub levels: usize,
}

impl Nodes {
    fn at(&self, node: u32) -> Option<&Node>
        ensures { option_copied result ≡ node_at self.now node }
    {
        node_of(self.nodes.as_slice(), node)
    }

    /// Whether the id of a node is this one, byte for byte.
    fn has_id(&self, node: u32, id: &[u8]) -> bool
        ensures { result ≡ has_id self.now id.now node }
    {
        let Some(node) = self.at(node) else {
            return false
        };
        let Some(field) = node.fields.named(b"id") else {
            return false;
        };
        match field.value.get() {
            Portable::Words(text) => text.as_str().as_bytes() == id,
            _ => false,
        }
    }

    /// Adds the children of a node to those to look at, the first one at the end. After an `Err` some may be there.
    fn push_children(
        &self,
        pending: &mut Vec<Pending>,
        node: u32,
        levels: usize,
    ) -> Result<(), NoMemory>
        ensures { OnOk result (pending.new.items ≡ pending.old.items ++ map (pending_at levels) (reverse (children_of self.now node))) }
    {
        let Some(node) = self.at(node) else {
            return Ok(());
        };
        for child in node.children.as_slice().iter().rev() {
            let Ok(()) = pending.push(Pending {
                node: *child,
                levels,
            }) else {
                return Err(NoMemory);
            };
        }
        Ok(())
    }

    /// The first descendant of a node, each before its own children, whose field `id` is this text, byte for byte; `None` exactly where
    /// there is none.
    ///
    /// Source: SceneGraph Reference, "ifSGNodeDict", "findNode".
    pub fn find(&self, node: u32, id: &[u8]) -> Result<Option<u32>, NoMemory>
        requires { IsNode self.now node }
        ensures { IfOk result (λ descendant. descendant ≡ found self.now node id.now) }
    {
        let mut pending = Vec::new(self.alloc);
        self.push_children(&mut pending, node, self.nodes.len())?;
        while let Some(next) = pending.pop() {
            let Some(levels) = next.levels.checked_sub(1) else {
                continue;
            };
            if self.has_id(next.node, id) {
                return Ok(Some(next.node));
            }
            self.push_children(&mut pending, next.node, levels)?;
        }
        Ok(None)
    }
}
