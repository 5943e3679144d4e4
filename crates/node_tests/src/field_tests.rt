//! Fields: their openings, sets, additions and reads.
use crate::kinds::core_kinds;
use crate::nodes::{ACTOR, add, check_node, first_node, labels, make, report, set, set_words};
use chan_values::{ItemList, NoMemory, PairList, Portable, Text};
use field_types::FieldType;
use node_tree::{Nodes, SetResult};
use std::alloc::Global;
use std::process::Abort;
use std::test::Fail;

#[test]
fn each_kind_has_its_fields_in_order(rt: HostRuntime) -> Result<(), Fail> {
    let alloc = rt.alloc();
    let plans = core_kinds(alloc)?;
    let mut nodes = first_node(&rt, alloc, &plans)?;
    for (place, kind, fields) in [
        (0, "Node", ""),
        (1, "Group", "visible* true "),
        (2, "LayoutGroup", "visible* true "),
        (3, "Scene", "visible* true "),
        (4, "Label", "visible* true text* \"\" color* \"\" "),
        (
            5,
            "Rectangle",
            "visible* true width* 0 height* 0 color* \"\" ",
        ),
        (6, "Poster", "visible* true uri* \"\" width* 0 height* 0 "),
        (7, "ContentNode", "title* \"\" description* \"\" url* \"\" "),
        (
            8,
            "Task",
            "functionname* \"\" control* \"\" state* \"init\" ",
        ),
    ] {
        let Ok(node) = make(&rt, &mut nodes, &plans, place, ACTOR) else {
            return Err("no node")?;
        };
        check_node(&rt, &nodes, node);
        assert_eq!(rt; nodes.kind(node).as_str(), kind);
        let shown = report(&rt, alloc, &nodes, node)?;
        let own = shown
            .as_str()
            .strip_prefix("id* \"\" focusable* false focusedchild* invalid ");
        assert_eq!(rt; own, Some(fields));
    }
    Ok(())
}

fn check_report(
    rt: &impl Abort,
    alloc: Global,
    nodes: &Nodes,
    node: u32,
    wanted: &str,
) -> Result<(), NoMemory> {
    let shown = report(rt, alloc, nodes, node)?;
    let own = shown.as_str().strip_prefix(
        "id* \"\" focusable* false focusedchild* invalid visible* true ",
    );
    assert_eq!(rt; own, Some(wanted));
    Ok(())
}

#[test]
fn fields_are_set_and_added_by_names_in_any_case(rt: HostRuntime) -> Result<(), Fail> {
    let alloc = rt.alloc();
    let mut nodes = labels(&rt, alloc, 1)?;
    for (field, words, wanted, shown) in [
        ("TEXT", "a", SetResult::Changed, "text \"a\" color* \"\" "),
        ("tExt", "a", SetResult::Same, "text \"a\" color* \"\" "),
        ("other", "a", SetResult::NoField, "text \"a\" color* \"\" "),
        ("text", "", SetResult::Changed, "text* \"\" color* \"\" "),
        ("color", "A", SetResult::Changed, "text* \"\" color \"A\" "),
    ] {
        let answer = set_words(&rt, alloc, &mut nodes, 2, field, words)?;
        assert_eq!(rt; answer, wanted);
        check_report(&rt, alloc, &nodes, 2, shown)?;
    }
    assert!(rt; add(&rt, &mut nodes, 2, "Count", FieldType::LongInteger, true)?);
    assert!(rt; !add(&rt, &mut nodes, 2, "cOUNT", FieldType::String, false)?);
    assert!(rt; !add(&rt, &mut nodes, 2, "Visible", FieldType::String, false)?);
    check_report(&rt, alloc, &nodes, 2, "text* \"\" color \"A\" count* 0& ")?;
    check_node(&rt, &nodes, 2);
    assert!(rt; nodes.get_field(2, b"COUNT").is_some());
    assert!(rt; nodes.get_field(2, b"counts").is_none());
    Ok(())
}

#[test]
fn each_of_many_fields_is_found_in_any_case_of_its_name(rt: HostRuntime) -> Result<(), Fail> {
    let alloc = rt.alloc();
    let mut nodes = labels(&rt, alloc, 1)?;
    for number in 0..200 {
        let name = format!(in alloc; "Field{}", (number + 100) % 200)?;
        assert!(rt; add(&rt, &mut nodes, 2, name.as_str(), FieldType::Integer, false)?);
    }
    for number in 0..200 {
        let name = format!(in alloc; "fIELD{number}")?;
        let answer = set(
            &rt,
            &mut nodes,
            2,
            name.as_str(),
            &Portable::Small(number + 1),
        )?;
        assert_eq!(rt; answer, SetResult::Changed);
    }
    check_node(&rt, &nodes, 2);
    for number in 0..200 {
        let name = format!(in alloc; "FIELD{number}")?;
        let Some(Portable::Small(held)) = nodes.get_field(2, name.as_bytes()) else {
            return Err("no number")?;
        };
        assert_eq!(rt; *held, number + 1);
    }
    for other in ["field200", "field", "fiel", "field00", "", "zoom"] {
        assert!(rt; nodes.get_field(2, other.as_bytes()).is_none());
    }
    Ok(())
}

fn array_of(alloc: Global, items: [Portable; 2]) -> Result<Portable, NoMemory> {
    let mut list = ItemList::new(alloc);
    for item in items {
        if list.has_room(&item) {
            list.push(item)?;
        }
    }
    Ok(Portable::Items(list))
}

/// A value for each number below 13.
fn value(alloc: Global, number: usize) -> Result<Portable, NoMemory> {
    match number {
        0 => Ok(Portable::Nothing),
        1 => Ok(Portable::Truth(true)),
        2 => Ok(Portable::Small(-7)),
        3 => Ok(Portable::Big(-7)),
        4 => Ok(Portable::Big(2_147_483_648)),
        5 => Ok(Portable::Words(Text::new(alloc))),
        6 => Ok(Portable::Node(2)),
        7 => Ok(Portable::Port(3)),
        8 => Ok(Portable::Pairs(PairList::new(alloc))),
        9 => Ok(Portable::Items(ItemList::new(alloc))),
        10 => array_of(alloc, [Portable::Small(1), Portable::Big(2)]),
        11 => array_of(alloc, [Portable::Node(3), Portable::Nothing]),
        _ => array_of(alloc, [Portable::Truth(true), Portable::Small(1)]),
    }
}

/// Sets a field to each value twice: `c` where the first set counts and the second doesn't, `n` where both count, `s` where none does, `-` where the
/// value doesn't fit.
fn answers(
    rt: &impl Abort,
    alloc: Global,
    nodes: &mut Nodes,
    field: &str,
) -> Result<Text, NoMemory> {
    let mut out = Text::new(alloc);
    for number in 0..13 {
        let value = value(alloc, number)?;
        let first = set(rt, nodes, 2, field, &value)?;
        let second = set(rt, nodes, 2, field, &value)?;
        out.push_str(match (first, second) {
            (SetResult::Changed, SetResult::Same) => "c",
            (SetResult::Changed, SetResult::Changed) => "n",
            (SetResult::Same, SetResult::Same) => "s",
            (SetResult::NoFit, SetResult::NoFit) => "-",
            _ => "?",
        })?;
    }
    Ok(out)
}

#[test]
fn a_set_counts_where_the_value_differs_or_each_set_does(rt: HostRuntime) -> Result<(), Fail> {
    let alloc = rt.alloc();
    for (t, counted, always) in [
        (FieldType::Integer, "--cs---------", "--nn---------"),
        (FieldType::LongInteger, "--csc--------", "--nnn--------"),
        (FieldType::Boolean, "-c-----------", "-n-----------"),
        (FieldType::String, "-----s-------", "-----n-------"),
        (FieldType::Node, "s-----c------", "n-----n------"),
        (FieldType::AssocArray, "s-------c----", "n-------n----"),
        (FieldType::Array, "c--------cccc", "n--------nnnn"),
        (FieldType::StringArray, "c--------c---", "n--------n---"),
        (FieldType::IntArray, "c--------cc--", "n--------nn--"),
        (FieldType::BoolArray, "c--------c---", "n--------n---"),
        (FieldType::NodeArray, "c--------c-c-", "n--------n-n-"),
    ] {
        let mut nodes = labels(&rt, alloc, 2)?;
        assert!(rt; add(&rt, &mut nodes, 2, "counted", t, false)?);
        assert!(rt; add(&rt, &mut nodes, 2, "always", t, true)?);
        assert_eq!(rt;
            answers(&rt, alloc, &mut nodes, "Counted")?.as_str(),
            counted
        );
        assert_eq!(rt; answers(&rt, alloc, &mut nodes, "Always")?.as_str(), always);
    }
    Ok(())
}
