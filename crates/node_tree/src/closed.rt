//! Whether links from nodes of render lead to nodes of render alone.
ghost use Rattle.std.specs.Prelude.{◌≡◌, IfOk};
ghost use Rattle.std.specs.List.{list_all};
ghost use Rattle.std.specs.Option.{option_copied};
ghost use Rattle.chan_values.specs.View.{tree_of};
ghost use Rattle.node_tree.specs.Nodes.{node_at};
ghost use Rattle.node_tree.specs.Closed.{may_lead, stays_closed};

use crate::named::push_named;
use crate::node::Node;
use chan_values::{NoMemory, Portable};
use std::alloc::Global;

/// The node of a number.
pub fn node_of(nodes: &[Node], node: u32) -> Option<&Node>
    ensures { option_copied result ≡ node_at nodes.now node }
{
    match node.checked_sub(1) {
        None => None,
        Some(place) => nodes.get(place as usize),
    }
}

/// Whether a link from a node of this owner may lead to a node, so that nodes of render lead to nodes of render alone.
fn may_lead(nodes: &[Node], owner: u32, node: u32) -> bool
    ensures { result ≡ may_lead owner (node_at nodes.now node) }
{
    match node_of(nodes, node) {
        None => false,
        Some(node) => owner != 0 || node.owner == 0,
    }
}

fn may_lead_to_all(nodes: &[Node], owner: u32, named: &[u32]) -> bool
    ensures { result ≡ list_all (λ n. may_lead owner (node_at nodes.now n)) named.now }
{
    named.iter().all(|node| may_lead(nodes, owner, *node))
}

/// Whether links from nodes of render are known to lead to nodes of render alone, once a field of a node of this owner holds a value.
pub fn stays_closed(
    alloc: Global,
    nodes: &[Node],
    closed: bool,
    owner: u32,
    value: &Portable,
) -> Result<bool, NoMemory>
    ensures { IfOk result (λ stays. stays ≡ stays_closed nodes.now closed owner (tree_of value.now)) }
{
    if !closed {
        return Ok(false);
    }
    let mut named = Vec::new(alloc);
    push_named(&mut named, value)?;
    Ok(may_lead_to_all(nodes, owner, named.as_slice()))
}
