//! The nodes of a run, and what each has.
ghost use Rattle.std.specs.Prelude.{◌≡◌, ◌≤◌, length, Some};
ghost use Rattle.std.specs.Option.{option_copied};
ghost use Rattle.node_tree.specs.Nodes.{IsNode, node_at, kind_of, owner_of, parent_of, children_of};
ghost use Rattle.node_tree.specs.Family.{IsSound, child_at};

use crate::node::Node;
use chan_values::Text;
use std::alloc::Global;
use std::marker::Model;

/// The most nodes that a run can have.
pub const MAX_NODES: u32 = 1_048_576;

/// The nodes of a run, numbered from 1 in the order of making. No node is ever taken away.
///
/// Source: SceneGraph Reference, "Node".
#[derive(Drop)]
pub struct Nodes {
    pub(crate) alloc: Global,
    pub(crate) nodes: Vec<Node>,
    /// Whether links from nodes of render are known to lead to nodes of render alone, so that no search has to go to these.
    pub(crate) closed: bool,
}

impl Model for Nodes {
    ghost use Rattle.std.specs.Prelude.{List};
    ghost use Rattle.std.specs.Coded.{codes};
    ghost use Rattle.chan_values.specs.Codes.{tree_code};
    ghost use Rattle.node_tree.specs.declared.node.Node.{Node as One};

    ghost Value = { List One };

    ghost coded = { Prim.hlevel (codes, tree_code) };

    ghost use Rattle.node_tree.specs.Closed.{IsKept};

    ghost view = { λ t. t.nodes.items };

    ghost invariant = { λ t. IsKept t.nodes.items t.closed };
}

impl Nodes {
    /// How many nodes were made. Takes no memory.
    pub fn count(&self) -> u32
        ensures is { result ≡ length self.now }
        ensures most { result ≤ 1048576 }
        ensures sound { IsSound self.now }
    {
        self.nodes.len() as u32
    }

    pub(crate) fn node(&self, node: u32) -> &Node
        requires { IsNode self.now node }
        ensures is { node_at self.now node ≡ Some result.now }
        ensures sound { IsSound self.now }
    {
        &self.nodes[node as usize - 1]
    }

    /// The name of a node's kind, as declared. Takes no memory.
    ///
    /// Source: SceneGraph Reference, "ifSGNodeDict", "subtype".
    pub fn kind(&self, node: u32) -> &Text
        requires { IsNode self.now node }
        ensures { kind_of self.now node ≡ Some result.now }
    {
        &self.node(node).kind
    }

    /// The actor to which a node belongs, 0 for render. Takes no memory.
    pub fn owner(&self, node: u32) -> u32
        requires { IsNode self.now node }
        ensures { owner_of self.now node ≡ Some result }
    {
        self.node(node).owner
    }

    /// The parent of a node, `None` exactly where it has none. Takes no memory.
    ///
    /// Source: SceneGraph Reference, "ifSGNodeChildren", "getParent".
    pub fn parent(&self, node: u32) -> Option<u32>
        requires { IsNode self.now node }
        ensures { result ≡ parent_of self.now node }
    {
        self.node(node).parent
    }

    /// How many children a node has. Takes no memory.
    ///
    /// Source: SceneGraph Reference, "ifSGNodeChildren", "getChildCount".
    pub fn child_count(&self, node: u32) -> u32
        requires { IsNode self.now node }
        ensures { result ≡ length (children_of self.now node) }
    {
        self.node(node).children.as_slice().len() as u32
    }

    /// The child at a place, counted from 0, `None` exactly where there is none. Takes no memory.
    ///
    /// Source: SceneGraph Reference, "ifSGNodeChildren", "getChild".
    pub fn child(&self, node: u32, at: i64) -> Option<u32>
        requires { IsNode self.now node }
        ensures { result ≡ child_at self.now node at }
    {
        match usize::try_from(at) {
            Ok(at) => self.node(node).children.as_slice().get(at).copied(),
            Err(_) => None,
        }
    }
}
