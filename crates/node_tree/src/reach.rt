//! What a node reaches, and gifts to render.
ghost use Rattle.std.specs.Prelude.{◌≡◌, ◌≤◌, [], ◌∷◌, length, IfOk, OnOk, OnErr};
ghost use Rattle.node_tree.specs.Nodes.{IsNode, with_node};
ghost use Rattle.node_tree.specs.Family.{has};
ghost use Rattle.node_tree.specs.Reach.{parent_and, kin, named_by, changed_where, render_owned, given};
ghost use Rattle.node_tree.specs.Visited.{is_open, linked_from, IsVisited, IsReach};

use crate::closed::node_of;
use crate::field::Field;
use crate::named::push_named;
use crate::node::Node;
use crate::nodes::Nodes;
use chan_values::NoMemory;
use indexmap::IndexSet;
use std::alloc::Global;

/// Whether a search goes to a node: a number that is no node's leads nowhere, and where links from nodes of render lead to
/// nodes of render alone, nothing is to be found behind these.
fn is_open(nodes: &[Node], closed: bool, node: u32) -> bool
    ensures { result ≡ is_open nodes.now closed node }
{
    match node_of(nodes, node) {
        None => false,
        Some(node) => !closed || node.owner != 0,
    }
}

/// Adds a node to those that were found.
fn visit(nodes: &[Node], closed: bool, found: &mut IndexSet<u32>, node: u32) -> Result<(), NoMemory>
    ensures { OnOk result (IsVisited (is_open nodes.now closed) found.old.keys found.new.keys (node ∷ [])) }
{
    if !is_open(nodes, closed, node) {
        return Ok(());
    }
    match found.insert(node) {
        Ok(_) => Ok(()),
        Err(_) => Err(NoMemory),
    }
}

/// Adds nodes to those that were found.
fn visit_all(
    nodes: &[Node],
    closed: bool,
    found: &mut IndexSet<u32>,
    more: &[u32],
) -> Result<(), NoMemory>
    ensures { OnOk result (IsVisited (is_open nodes.now closed) found.old.keys found.new.keys more.now) }
{
    for node in more {
        visit(nodes, closed, found, *node)?;
    }
    Ok(())
}

/// Adds a parent, if there is one.
fn visit_parent(
    nodes: &[Node],
    closed: bool,
    found: &mut IndexSet<u32>,
    parent: Option<u32>,
) -> Result<(), NoMemory>
    ensures { OnOk result (IsVisited (is_open nodes.now closed) found.old.keys found.new.keys (parent_and parent [])) }
{
    match parent {
        None => Ok(()),
        Some(parent) => visit(nodes, closed, found, parent),
    }
}

/// Adds the parent and the children of a node.
fn visit_kin(
    nodes: &[Node],
    closed: bool,
    found: &mut IndexSet<u32>,
    node: &Node,
) -> Result<(), NoMemory>
    ensures { OnOk result (IsVisited (is_open nodes.now closed) found.old.keys found.new.keys (kin node.now)) }
{
    visit_parent(nodes, closed, found, node.parent)?;
    visit_all(nodes, closed, found, node.children.as_slice())?;
    Ok(())
}

/// Adds the nodes that fields name.
fn visit_named(
    alloc: Global,
    nodes: &[Node],
    closed: bool,
    found: &mut IndexSet<u32>,
    fields: &[Field],
) -> Result<(), NoMemory>
    ensures { OnOk result (IsVisited (is_open nodes.now closed) found.old.keys found.new.keys (named_by fields.now)) }
{
    for field in fields {
        let mut named = Vec::new(alloc);
        push_named(&mut named, field.value.get())?;
        visit_all(nodes, closed, found, named.as_slice())?;
    }
    Ok(())
}

/// Adds what links lead to from a node.
fn visit_linked(
    alloc: Global,
    nodes: &[Node],
    closed: bool,
    found: &mut IndexSet<u32>,
    node: u32,
) -> Result<(), NoMemory>
    ensures { OnOk result (IsVisited (is_open nodes.now closed) found.old.keys found.new.keys (linked_from nodes.now node)) }
{
    let Some(node) = node_of(nodes, node) else {
        return Ok(());
    };
    visit_kin(nodes, closed, found, node)?;
    visit_named(alloc, nodes, closed, found, node.fields.as_slice())?;
    Ok(())
}

/// The nodes that a node reaches, but where links from nodes of render lead to nodes of render alone, without those behind such nodes.
fn reach(alloc: Global, nodes: &[Node], closed: bool, node: u32) -> Result<IndexSet<u32>, NoMemory>
    requires { length nodes.now ≤ 1048576 }
    ensures { IfOk result (λ found. IsReach nodes.now closed node found.keys) }
{
    let mut found = IndexSet::new(alloc);
    visit(nodes, closed, &mut found, node)?;
    let mut at = 0;
    while let Some(next) = found.get_index(at).copied() {
        visit_linked(alloc, nodes, closed, &mut found, next)?;
        at += 1;
    }
    Ok(found)
}

/// Gives a node to render, if the number is a node's.
fn give_one(nodes: &mut Vec<Node>, node: u32)
    ensures { nodes.new.items ≡ with_node render_owned nodes.old.items node }
{
    let Some(place) = node.checked_sub(1) else {
        return;
    };
    if (place as usize) < nodes.len() {
        nodes[place as usize].owner = 0;
    }
}

/// Gives nodes to render.
fn give_each(nodes: &mut Vec<Node>, found: &[u32])
    ensures { nodes.new.items ≡ changed_where (λ n. has n found.now) render_owned 1 nodes.old.items }
{
    for node in found {
        give_one(nodes, *node);
    }
}

impl Nodes {
    /// Gives a node to render, with all that it reaches over links between parent and child in both directions and over the values
    /// of fields. No other node changes. After an `Err` nothing has changed.
    ///
    /// Source: SceneGraph, "Task node", on the nodes that a task hands to the render thread.
    pub fn give_to_render(&mut self, node: u32) -> Result<(), NoMemory>
        requires { IsNode self.old node }
        ensures after { OnOk result (self.new ≡ given self.old (node ∷ [])) }
        ensures err { OnErr result (self.new ≡ self.old) }
    {
        let found = reach(self.alloc, self.nodes.as_slice(), self.closed, node)?;
        give_each(&mut self.nodes, found.as_slice());
        Ok(())
    }
}
