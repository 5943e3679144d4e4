//! The focus, its chain and the texts of keys.
use crate::kinds::NODE;
use crate::nodes::{append, check_node, first_node, make};
use crate::plans::{add_kind, no_children};
use chan_values::{Key, NoMemory};
use field_types::{FieldPlanList, PlanTable};
use focus_keys::{ChainList, Focus, key_text};
use node_tree::Nodes;
use std::alloc::Global;
use std::process::Abort;
use std::test::Fail;

/// Whether a key's text is this one.
fn is_text(key: Key, want: &[u8]) -> bool {
    let mut out = [b'#'; 16];
    let length = key_text(&key, &mut out);
    &out[..length] == want
}

#[test]
fn each_key_has_its_text(rt: HostRuntime) {
    assert!(rt; is_text(Key::Up, b"up") && is_text(Key::Down, b"down"));
    assert!(rt; is_text(Key::Left, b"left") && is_text(Key::Right, b"right"));
    assert!(rt; is_text(Key::Back, b"back") && is_text(Key::Play, b"play"));
    assert!(rt; is_text(Key::Ok, b"OK") && is_text(Key::Rewind, b"rewind"));
    assert!(rt; is_text(Key::FastForward, b"fastforward") && is_text(Key::Replay, b"replay"));
    assert!(rt; is_text(Key::Options, b"options") && is_text(Key::Literal('%'), b"Lit_%"));
    assert!(rt; is_text(Key::Literal('é'), b"Lit_\xc3\xa9"));
    assert!(rt; is_text(Key::Literal('\u{10FFFF}'), b"Lit_\xf4\x8f\xbf\xbf"));
}

#[test]
fn the_focus_is_taken_from_the_node_that_has_it_alone(rt: HostRuntime) {
    let mut focus = Focus::new();
    assert!(rt; focus.focused() == None);
    for (node, on, want) in [
        (3, false, None),
        (3, true, Some(3)),
        (4, false, Some(3)),
        (4, true, Some(4)),
        (4, true, Some(4)),
        (4, false, None),
    ] {
        focus.set(node, on);
        assert!(rt; focus.focused() == want);
    }
}

/// So many nodes, each of them the parent of the next.
fn row(rt: &impl Abort, alloc: Global, count: u32) -> Result<Nodes, Fail> {
    let mut plans = PlanTable::new(alloc);
    let fields = FieldPlanList::new(alloc);
    let children = no_children(alloc);
    add_kind(alloc, &mut plans, "Node", None, fields, children)?;
    let mut nodes = first_node(rt, alloc, &plans)?;
    for _ in 1..count {
        if make(rt, &mut nodes, &plans, NODE, 0).is_err() {
            return Err("no node")?;
        }
    }
    for step in 1..count {
        let node = count - step;
        assert!(rt; append(rt, &mut nodes, node, node + 1)?);
    }
    Ok(nodes)
}

fn chain_of(
    rt: &impl Abort,
    alloc: Global,
    nodes: &Nodes,
    node: u32,
) -> Result<ChainList, NoMemory> {
    let mut focus = Focus::new();
    check_node(rt, nodes, node);
    focus.set(node, true);
    focus.chain(alloc, nodes)
}

#[test]
fn a_chain_goes_up_to_a_node_without_a_parent(rt: HostRuntime) -> Result<(), Fail> {
    let alloc = rt.alloc();
    let nodes = row(&rt, alloc, 10_000)?;
    assert!(rt; Focus::new().chain(alloc, &nodes)?.is_empty());
    for (node, length) in [(1, 1), (2, 2), (10_000, 10_000)] {
        let chain = chain_of(&rt, alloc, &nodes, node)?;
        assert_eq!(rt; chain.len(), length);
        assert!(rt; chain.get(0).copied() == Some(node));
        assert!(rt; chain.get(length - 1).copied() == Some(1));
        assert!(rt; chain.get(length).is_none());
    }
    Ok(())
}
