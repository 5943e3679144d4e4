//! What no clause says: with ample memory the order of components is found.
use crate::channels::add_kind;
use component_cycles::check_cycles;
use component_faults::kind_table;
use folder_rules::{PathedComponent, TablesAnswer};
use kind_order::kind_order;
use std::alloc::Global;

fn order(alloc: Global, components: &[PathedComponent]) -> Result<Vec<usize>, TablesAnswer> {
    let names = kind_table(alloc, components)?;
    check_cycles(alloc, &names, components)?;
    Ok(kind_order(alloc, &names, components)?)
}

/// Whether these components, each with a base and child elements, stand in this order.
fn stand(alloc: Global, kinds: [(&str, &str, &str); 4], found: [usize; 4]) -> Option<bool> {
    let mut components = Vec::new(alloc);
    for (name, base, children) in kinds {
        add_kind(alloc, &mut components, name, base, children)?;
    }
    let order = order(alloc, components.as_slice()).ok()?;
    Some(order.as_slice() == found.as_slice())
}

#[test]
fn components_stand_behind_their_bases_and_child_kinds(rt: HostRuntime) {
    for (kinds, found) in [
        (
            [
                ("A", "Group", ""),
                ("B", "Node", "<Label/>"),
                ("C", "Scene", ""),
                ("D", "Task", ""),
            ],
            [0, 1, 2, 3],
        ),
        (
            [
                ("A", "Group", "<b/><C/>"),
                ("B", "C", "<Label/>"),
                ("C", "Node", "<D/>"),
                ("D", "Scene", ""),
            ],
            [3, 2, 1, 0],
        ),
        (
            [
                ("A", "d", "<B/>"),
                ("B", "Node", ""),
                ("C", "Node", ""),
                ("D", "Node", "<C/>"),
            ],
            [2, 3, 1, 0],
        ),
        (
            [
                ("A", "Node", "<Label><C/></Label><B/>"),
                ("B", "Node", ""),
                ("C", "Node", ""),
                ("D", "A", "<A/><A/>"),
            ],
            [2, 1, 0, 3],
        ),
    ] {
        assert!(rt; stand(rt.alloc(), kinds, found) == Some(true));
    }
}

/// Adds components of which each extends the one behind it, and the last extends Group.
fn add_bases(alloc: Global, components: &mut Vec<PathedComponent>, count: u32) -> Option<()> {
    for k in 1..count {
        let name = format!(in alloc; "C{k}").ok()?;
        let base = format!(in alloc; "C{}", k + 1).ok()?;
        add_kind(alloc, components, name.as_str(), base.as_str(), "")?;
    }
    let name = format!(in alloc; "C{count}").ok()?;
    add_kind(alloc, components, name.as_str(), "Group", "")
}

/// The first and the last of the order of so many components, each of which extends the one behind it.
fn ends_of_bases(alloc: Global, count: u32) -> Option<(usize, usize)> {
    let mut components = Vec::new(alloc);
    add_bases(alloc, &mut components, count)?;
    let order = order(alloc, components.as_slice()).ok()?;
    Some((*order.first()?, *order.last()?))
}

#[test]
fn long_chains_of_bases_are_put_in_order(rt: HostRuntime) {
    assert!(rt; ends_of_bases(rt.alloc(), 4000) == Some((3999, 0)));
}
