//! Calls on nodes whose conditions are tested first, and what nodes show.
ghost use Rattle.node_tree.specs.Nodes.{IsNode};

use crate::kinds::{LABEL, core_kinds};
use crate::plans::text_of;
use chan_values::{NoMemory, Portable, Text, text_of_value};
use field_types::{FieldType, PlanTable};
use node_tree::{MakeFault, Nodes, SetResult};
use std::alloc::Global;
use std::process::Abort;
use std::test::Fail;

/// The actor that owns the nodes of most tests.
pub const ACTOR: u32 = 3;

pub fn check_node(rt: &impl Abort, nodes: &Nodes, node: u32)
    ensures { IsNode nodes.now node }
{
    assert!(rt; node >= 1);
    assert!(rt; node <= nodes.count());
}

pub fn make(
    rt: &impl Abort,
    nodes: &mut Nodes,
    plans: &PlanTable,
    place: u32,
    owner: u32,
) -> Result<u32, MakeFault> {
    assert!(rt; (place as usize) < plans.len());
    nodes.make(plans, place, owner)
}

/// The global node alone.
pub fn first_node(rt: &impl Abort, alloc: Global, plans: &PlanTable) -> Result<Nodes, NoMemory> {
    assert!(rt; plans.len() > 0);
    Nodes::new(alloc, plans)
}

/// The global node and so many nodes of the kind Label, numbered from 2.
pub fn labels(rt: &impl Abort, alloc: Global, count: u32) -> Result<Nodes, Fail> {
    let plans = core_kinds(alloc)?;
    let mut nodes = first_node(rt, alloc, &plans)?;
    for _ in 0..count {
        if make(rt, &mut nodes, &plans, LABEL, ACTOR).is_err() {
            return Err("no node")?;
        }
    }
    Ok(nodes)
}

pub fn set(
    rt: &impl Abort,
    nodes: &mut Nodes,
    node: u32,
    field: &str,
    p: &Portable,
) -> Result<SetResult, NoMemory> {
    check_node(rt, nodes, node);
    nodes.set_field(node, field.as_bytes(), p)
}

pub fn set_words(
    rt: &impl Abort,
    alloc: Global,
    nodes: &mut Nodes,
    node: u32,
    field: &str,
    words: &str,
) -> Result<SetResult, NoMemory> {
    let value = Portable::Words(text_of(alloc, words)?);
    set(rt, nodes, node, field, &value)
}

pub fn add(
    rt: &impl Abort,
    nodes: &mut Nodes,
    node: u32,
    field: &str,
    t: FieldType,
    always: bool,
) -> Result<bool, NoMemory> {
    check_node(rt, nodes, node);
    nodes.add_field(node, field.as_bytes(), t, always)
}

pub fn append(rt: &impl Abort, nodes: &mut Nodes, node: u32, child: u32) -> Result<bool, NoMemory> {
    check_node(rt, nodes, node);
    check_node(rt, nodes, child);
    nodes.append_child(node, child)
}

pub fn insert(
    rt: &impl Abort,
    nodes: &mut Nodes,
    node: u32,
    child: u32,
    at: i64,
) -> Result<bool, NoMemory> {
    check_node(rt, nodes, node);
    check_node(rt, nodes, child);
    nodes.insert_child(node, child, at)
}

pub fn remove(rt: &impl Abort, nodes: &mut Nodes, node: u32, child: u32) -> bool {
    check_node(rt, nodes, node);
    check_node(rt, nodes, child);
    nodes.remove_child(node, child)
}

pub fn give(rt: &impl Abort, nodes: &mut Nodes, node: u32) -> Result<(), NoMemory> {
    check_node(rt, nodes, node);
    nodes.give_to_render(node)
}

pub fn find(rt: &impl Abort, nodes: &Nodes, node: u32, id: &str) -> Result<Option<u32>, NoMemory> {
    check_node(rt, nodes, node);
    nodes.find(node, id.as_bytes())
}

fn push_value(alloc: Global, out: &mut Text, p: &Portable) -> Result<(), NoMemory> {
    out.push_str(text_of_value(alloc, p)?.as_str())
}

/// The lines of a node's report: each field with its value, and `*` where it is the opening value.
pub fn report(rt: &impl Abort, alloc: Global, nodes: &Nodes, node: u32) -> Result<Text, NoMemory> {
    check_node(rt, nodes, node);
    let mut out = Text::new(alloc);
    for at in 0..16 {
        if let Some(line) = nodes.field_at(node, at) {
            out.push_str(line.id.as_str())?;
            out.push_str(if line.opening { "* " } else { " " })?;
            push_value(alloc, &mut out, line.value)?;
            out.push_str(" ")?;
        }
    }
    Ok(out)
}

/// The numbers of a node's children, as nodes are written.
pub fn children(
    rt: &impl Abort,
    alloc: Global,
    nodes: &Nodes,
    node: u32,
) -> Result<Text, NoMemory> {
    check_node(rt, nodes, node);
    let mut out = Text::new(alloc);
    for at in 0..i64::from(nodes.child_count(node)) {
        if let Some(child) = nodes.child(node, at) {
            push_value(alloc, &mut out, &Portable::Node(child))?;
            out.push_str(" ")?;
        }
    }
    Ok(out)
}

/// Checks the owners of the nodes from node 1 on.
pub fn check_owners(rt: &impl Abort, nodes: &Nodes, owners: &[u32]) {
    let mut node = 0;
    for owner in owners {
        assert!(rt; node < nodes.count());
        node += 1;
        check_node(rt, nodes, node);
        assert_eq!(rt; nodes.owner(node), *owner, "node {node}");
    }
}
