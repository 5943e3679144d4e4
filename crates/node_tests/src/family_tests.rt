//! Parents and children, and the search by an id.
use crate::nodes::{append, check_node, children, find, insert, labels, remove, set_words};
use chan_values::NoMemory;
use node_tree::{Nodes, SetResult};
use std::alloc::Global;
use std::process::Abort;
use std::test::Fail;

fn check_children(
    rt: &impl Abort,
    alloc: Global,
    nodes: &Nodes,
    node: u32,
    wanted: &str,
) -> Result<(), NoMemory> {
    let shown = children(rt, alloc, nodes, node)?;
    assert_eq!(rt; shown.as_str(), wanted, "children of {node}");
    Ok(())
}

#[test]
fn a_child_leaves_its_parent_before_its_place_is_cut(rt: HostRuntime) -> Result<(), Fail> {
    let alloc = rt.alloc();
    let mut nodes = labels(&rt, alloc, 4)?;
    for child in [3, 4, 5] {
        assert!(rt; append(&rt, &mut nodes, 2, child)?);
    }
    for (child, at, wanted) in [
        (4, 2, "node 3 node 5 node 4 "),
        (4, 9, "node 3 node 5 node 4 "),
        (4, 0, "node 4 node 3 node 5 "),
        (3, 1, "node 4 node 3 node 5 "),
        (4, 1, "node 3 node 4 node 5 "),
    ] {
        assert!(rt; insert(&rt, &mut nodes, 2, child, at)?);
        check_children(&rt, alloc, &nodes, 2, wanted)?;
    }
    assert!(rt; append(&rt, &mut nodes, 2, 3)?);
    check_children(&rt, alloc, &nodes, 2, "node 4 node 5 node 3 ")?;
    Ok(())
}

#[test]
fn no_node_stands_below_itself(rt: HostRuntime) -> Result<(), Fail> {
    let alloc = rt.alloc();
    let mut nodes = labels(&rt, alloc, 4)?;
    assert!(rt; append(&rt, &mut nodes, 2, 3)?);
    assert!(rt; append(&rt, &mut nodes, 3, 4)?);
    for (node, child) in [(2, 2), (3, 2), (4, 2), (4, 3), (4, 4)] {
        assert!(rt;
            !append(&rt, &mut nodes, node, child)?,
            "{child} below {node}"
        );
        assert!(rt; !insert(&rt, &mut nodes, node, child, 0)?);
    }
    assert!(rt; !insert(&rt, &mut nodes, 2, 5, -1)?);
    check_children(&rt, alloc, &nodes, 2, "node 3 ")?;
    assert!(rt; append(&rt, &mut nodes, 5, 3)?);
    check_children(&rt, alloc, &nodes, 2, "")?;
    check_children(&rt, alloc, &nodes, 5, "node 3 ")?;
    Ok(())
}

#[test]
fn a_removed_child_has_no_parent(rt: HostRuntime) -> Result<(), Fail> {
    let alloc = rt.alloc();
    let mut nodes = labels(&rt, alloc, 3)?;
    assert!(rt; append(&rt, &mut nodes, 2, 3)?);
    assert!(rt; append(&rt, &mut nodes, 3, 4)?);
    assert!(rt; !remove(&rt, &mut nodes, 2, 4));
    assert!(rt; remove(&rt, &mut nodes, 2, 3));
    assert!(rt; !remove(&rt, &mut nodes, 2, 3));
    check_children(&rt, alloc, &nodes, 2, "")?;
    for (node, parent, below) in [(2, None, 0), (3, None, 1), (4, Some(3), 0)] {
        check_node(&rt, &nodes, node);
        assert_eq!(rt; nodes.parent(node), parent);
        assert_eq!(rt; nodes.child_count(node), below);
        assert_eq!(rt; nodes.child(node, 1), None);
        assert_eq!(rt; nodes.child(node, -1), None);
    }
    Ok(())
}

#[test]
fn a_search_answers_the_first_descendant_with_an_id(rt: HostRuntime) -> Result<(), Fail> {
    let alloc = rt.alloc();
    let mut nodes = labels(&rt, alloc, 5)?;
    for (node, child) in [(2, 3), (3, 4), (2, 5), (5, 6)] {
        assert!(rt; append(&rt, &mut nodes, node, child)?);
    }
    for (node, id) in [(2, "top"), (3, "a"), (4, "b"), (5, "b"), (6, "c")] {
        let answer = set_words(&rt, alloc, &mut nodes, node, "ID", id)?;
        assert_eq!(rt; answer, SetResult::Changed);
    }
    for (node, id, wanted) in [
        (2, "b", Some(4)),
        (2, "c", Some(6)),
        (3, "b", Some(4)),
        (5, "b", None),
        (2, "top", None),
        (2, "B", None),
        (2, "", None),
        (1, "", None),
        (4, "b", None),
    ] {
        assert_eq!(rt; find(&rt, &nodes, node, id)?, wanted, "{id} below {node}");
    }
    Ok(())
}
