//! Gifts to render.
use crate::nodes::{add, append, check_owners, give, labels, set};
use chan_values::Portable;
use field_types::FieldType;
use node_tree::Nodes;
use std::process::Abort;
use std::test::Fail;

/// Gives a node a field that names another.
fn link(rt: &impl Abort, nodes: &mut Nodes, node: u32, other: u32) -> Result<(), Fail> {
    add(rt, nodes, node, "next", FieldType::Node, false)?;
    set(rt, nodes, node, "next", &Portable::Node(other))?;
    Ok(())
}

#[test]
fn gifts_go_along_parents_children_and_fields(rt: HostRuntime) -> Result<(), Fail> {
    let mut nodes = labels(&rt, rt.alloc(), 6)?;
    assert!(rt; append(&rt, &mut nodes, 2, 3)?);
    assert!(rt; append(&rt, &mut nodes, 2, 4)?);
    link(&rt, &mut nodes, 4, 5)?;
    link(&rt, &mut nodes, 6, 3)?;
    check_owners(&rt, &nodes, &[0, 3, 3, 3, 3, 3, 3]);
    give(&rt, &mut nodes, 3)?;
    check_owners(&rt, &nodes, &[0, 0, 0, 0, 0, 3, 3]);
    give(&rt, &mut nodes, 6)?;
    check_owners(&rt, &nodes, &[0, 0, 0, 0, 0, 0, 3]);
    Ok(())
}

#[test]
fn gifts_go_round_cycles(rt: HostRuntime) -> Result<(), Fail> {
    let mut nodes = labels(&rt, rt.alloc(), 5)?;
    link(&rt, &mut nodes, 2, 3)?;
    link(&rt, &mut nodes, 3, 4)?;
    link(&rt, &mut nodes, 4, 2)?;
    assert!(rt; append(&rt, &mut nodes, 3, 5)?);
    give(&rt, &mut nodes, 4)?;
    check_owners(&rt, &nodes, &[0, 0, 0, 0, 0, 3]);
    give(&rt, &mut nodes, 6)?;
    check_owners(&rt, &nodes, &[0, 0, 0, 0, 0, 0]);
    Ok(())
}

/// A node of render that names a node of an actor: a search may not stop there.
#[test]
fn gifts_go_on_behind_nodes_of_render(rt: HostRuntime) -> Result<(), Fail> {
    let mut nodes = labels(&rt, rt.alloc(), 5)?;
    give(&rt, &mut nodes, 2)?;
    link(&rt, &mut nodes, 2, 3)?;
    link(&rt, &mut nodes, 4, 2)?;
    check_owners(&rt, &nodes, &[0, 0, 3, 3, 3, 3]);
    give(&rt, &mut nodes, 4)?;
    check_owners(&rt, &nodes, &[0, 0, 0, 0, 3, 3]);
    assert!(rt; append(&rt, &mut nodes, 4, 5)?);
    give(&rt, &mut nodes, 2)?;
    check_owners(&rt, &nodes, &[0, 0, 0, 0, 3, 3]);
    give(&rt, &mut nodes, 4)?;
    check_owners(&rt, &nodes, &[0, 0, 0, 0, 0, 3]);
    Ok(())
}
