//! Makings of components: numbers in preorder, children in children, and attributes.
use crate::kinds::{GROUP, LABEL, NODE, POSTER, core_kinds};
use crate::nodes::{ACTOR, check_node, children, first_node, make, report, set_words};
use crate::plans::{Children, add_child, add_kind, add_own, add_value, no_children};
use chan_values::Text;
use field_types::{AttributeList, FieldPlanList, FieldType, PlanTable};
use node_tree::{MakeFault, Nodes, SetResult};
use std::alloc::Global;
use std::process::Abort;
use std::test::Fail;

const BASE: u32 = 9;

const MIDDLE: u32 = 10;

const TOP: u32 = 11;

/// A component of nodes of the kind Group, which has a Label.
fn add_base(alloc: Global, plans: &mut PlanTable) -> Result<(), Fail> {
    let mut values = AttributeList::new(alloc);
    add_value(alloc, &mut values, "TEXT", FieldType::String, "hello")?;
    let mut list = no_children(alloc);
    let inner = no_children(alloc);
    add_child(plans, &mut list, LABEL, values, inner)?;
    let fields = FieldPlanList::new(alloc);
    add_kind(alloc, plans, "Base", Some(GROUP), fields, list)
}

/// A component that extends it, and has one of these with a Poster in it.
fn add_middle(alloc: Global, plans: &mut PlanTable) -> Result<(), Fail> {
    let mut inner = no_children(alloc);
    add_child(
        plans,
        &mut inner,
        POSTER,
        AttributeList::new(alloc),
        no_children(alloc),
    )?;
    let mut list = no_children(alloc);
    add_child(plans, &mut list, BASE, AttributeList::new(alloc), inner)?;
    let mut fields = FieldPlanList::new(alloc);
    add_own(alloc, &mut fields, "Title", FieldType::String, true, "m")?;
    add_kind(alloc, plans, "Middle", Some(BASE), fields, list)
}

/// A component that extends that, and has one of those with a Label in it, and a Poster.
fn add_top(alloc: Global, plans: &mut PlanTable) -> Result<(), Fail> {
    let mut inner = no_children(alloc);
    add_child(
        plans,
        &mut inner,
        LABEL,
        AttributeList::new(alloc),
        no_children(alloc),
    )?;
    let mut values = AttributeList::new(alloc);
    add_value(alloc, &mut values, "title", FieldType::String, "t")?;
    add_value(alloc, &mut values, "id", FieldType::String, "first")?;
    let mut list = no_children(alloc);
    add_child(plans, &mut list, MIDDLE, values, inner)?;
    add_child(
        plans,
        &mut list,
        POSTER,
        AttributeList::new(alloc),
        no_children(alloc),
    )?;
    let fields = FieldPlanList::new(alloc);
    add_kind(alloc, plans, "Top", Some(MIDDLE), fields, list)
}

/// The nodes of one Top, numbered from 2.
fn one_top(rt: &impl Abort, alloc: Global) -> Result<Nodes, Fail> {
    let mut plans = core_kinds(alloc)?;
    add_base(alloc, &mut plans)?;
    add_middle(alloc, &mut plans)?;
    add_top(alloc, &mut plans)?;
    let mut nodes = first_node(rt, alloc, &plans)?;
    match make(rt, &mut nodes, &plans, TOP, ACTOR) {
        Ok(node) => assert_eq!(rt; node, 2),
        Err(_) => return Err("no node")?,
    }
    Ok(nodes)
}

#[test]
fn children_of_bases_and_of_kinds_come_first(rt: HostRuntime) -> Result<(), Fail> {
    let alloc = rt.alloc();
    let nodes = one_top(&rt, alloc)?;
    assert_eq!(rt; nodes.count(), 13);
    for (node, kind, parent, below) in [
        (1, "Node", None, ""),
        (2, "Top", None, "node 3 node 4 node 7 node 13 "),
        (3, "Label", Some(2), ""),
        (4, "Base", Some(2), "node 5 node 6 "),
        (5, "Label", Some(4), ""),
        (6, "Poster", Some(4), ""),
        (7, "Middle", Some(2), "node 8 node 9 node 12 "),
        (8, "Label", Some(7), ""),
        (9, "Base", Some(7), "node 10 node 11 "),
        (10, "Label", Some(9), ""),
        (11, "Poster", Some(9), ""),
        (12, "Label", Some(7), ""),
        (13, "Poster", Some(2), ""),
    ] {
        check_node(&rt, &nodes, node);
        assert_eq!(rt; nodes.kind(node).as_str(), kind, "node {node}");
        assert_eq!(rt; nodes.parent(node), parent, "node {node}");
        assert_eq!(rt; nodes.owner(node), if node == 1 { 0 } else { ACTOR });
        let shown = children(&rt, alloc, &nodes, node)?;
        assert_eq!(rt; shown.as_str(), below, "node {node}");
    }
    Ok(())
}

fn check_report(
    rt: &impl Abort,
    alloc: Global,
    nodes: &Nodes,
    node: u32,
    wanted: &str,
) -> Result<(), Fail> {
    let shown = report(rt, alloc, nodes, node)?;
    assert_eq!(rt; shown.as_str(), wanted, "node {node}");
    Ok(())
}

#[test]
fn attributes_give_fields_their_first_values(rt: HostRuntime) -> Result<(), Fail> {
    let alloc = rt.alloc();
    let mut nodes = one_top(&rt, alloc)?;
    let front = "focusable* false focusedchild* invalid visible* true";
    for (node, id, own) in [
        (2, "id* \"\"", "title* \"m\" "),
        (3, "id* \"\"", "text \"hello\" color* \"\" "),
        (4, "id* \"\"", ""),
        (7, "id \"first\"", "title \"t\" "),
        (12, "id* \"\"", "text* \"\" color* \"\" "),
    ] {
        let mut wanted = Text::new(alloc);
        for part in [id, " ", front, " ", own] {
            wanted.push_str(part)?;
        }
        check_report(&rt, alloc, &nodes, node, wanted.as_str())?;
    }
    for (node, field, words, wanted) in [
        (7, "TITLE", "t", SetResult::Changed),
        (7, "title", "m", SetResult::Changed),
        (7, "id", "", SetResult::Changed),
        (7, "id", "", SetResult::Same),
    ] {
        let answer = set_words(&rt, alloc, &mut nodes, node, field, words)?;
        assert_eq!(rt; answer, wanted);
    }
    check_report(
        &rt,
        alloc,
        &nodes,
        7,
        "id* \"\" focusable* false focusedchild* invalid visible* true title* \"m\" ",
    )
}

/// Adds a kind whose nodes have two nodes of the kind at a place below them.
fn add_double(alloc: Global, plans: &mut PlanTable, place: u32) -> Result<(), Fail> {
    let mut list = no_children(alloc);
    for _ in 0..2 {
        let inner: Children = no_children(alloc);
        add_child(plans, &mut list, place, AttributeList::new(alloc), inner)?;
    }
    let fields = FieldPlanList::new(alloc);
    add_kind(alloc, plans, "Double", Some(NODE), fields, list)
}

#[test]
fn a_making_past_the_most_nodes_makes_none(rt: HostRuntime) -> Result<(), Fail> {
    let alloc = rt.alloc();
    let mut plans = PlanTable::new(alloc);
    let none = FieldPlanList::new(alloc);
    let children = no_children(alloc);
    add_kind(alloc, &mut plans, "Node", None, none, children)?;
    for place in 0..20 {
        add_double(alloc, &mut plans, place)?;
    }
    let mut nodes = first_node(&rt, alloc, &plans)?;
    for (place, count, full) in [
        (20, 1, true),
        (3, 16, false),
        (20, 16, true),
        (19, 16, true),
        (14, 32_783, false),
    ] {
        let answer = make(&rt, &mut nodes, &plans, place, ACTOR);
        assert_eq!(rt; answer == Err(MakeFault::TooManyNodes), full);
        assert_eq!(rt; nodes.count(), count);
    }
    Ok(())
}
