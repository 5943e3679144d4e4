//! What no clause says: with ample memory components that are reached from themselves are found, and no others.
use crate::channels::{Found, add_chain, add_kind, is_answer};
use component_cycles::check_cycles;
use component_faults::kind_table;
use folder_rules::{PathedComponent, TablesAnswer};
use std::alloc::Global;

fn check(alloc: Global, components: &[PathedComponent]) -> Result<(), TablesAnswer> {
    let names = kind_table(alloc, components)?;
    check_cycles(alloc, &names, components)
}

/// Whether a channel of these components, each with a base and child elements, is answered so.
fn turns(alloc: Global, kinds: [(&str, &str, &str); 4], found: Option<Found>) -> Option<bool> {
    let mut components = Vec::new(alloc);
    for (name, base, children) in kinds {
        add_kind(alloc, &mut components, name, base, children)?;
    }
    let answer = check(alloc, components.as_slice());
    Some(is_answer(&answer, found))
}

#[test]
fn components_are_not_reached_from_themselves(rt: HostRuntime) {
    for (kinds, found) in [
        (
            [
                ("A", "Group", "<b/><C/>"),
                ("B", "C", "<Label/>"),
                ("C", "Node", "<D/>"),
                ("D", "Scene", ""),
            ],
            None,
        ),
        (
            [
                ("A", "a", ""),
                ("B", "Node", ""),
                ("C", "Node", ""),
                ("D", "Node", ""),
            ],
            Some((11, "A", 1, "a")),
        ),
        (
            [
                ("A", "Node", "<Label><A/></Label>"),
                ("B", "b", ""),
                ("C", "Node", ""),
                ("D", "Node", ""),
            ],
            Some((11, "A", 1, "a")),
        ),
        (
            [
                ("A", "B", ""),
                ("B", "c", ""),
                ("C", "D", ""),
                ("D", "Node", "<C/>"),
            ],
            Some((11, "C", 1, "c")),
        ),
        (
            [
                ("A", "Node", "<C/>"),
                ("B", "Node", "<D/><A/>"),
                ("C", "Node", "<D/>"),
                ("D", "Node", "<B/>"),
            ],
            Some((11, "A", 1, "a")),
        ),
        (
            [
                ("D", "D", "<A/>"),
                ("A", "Node", "<B/>"),
                ("B", "Node", "<C/>"),
                ("C", "C", ""),
            ],
            Some((11, "D", 1, "d")),
        ),
        (
            [
                ("A", "Node", "<B/><C/>"),
                ("B", "Node", "<C/>"),
                ("C", "Node", "<D/>"),
                ("D", "Node", "<c/>"),
            ],
            Some((11, "C", 1, "c")),
        ),
    ] {
        assert!(rt; turns(rt.alloc(), kinds, found) == Some(true));
    }
}

/// Whether a chain of so many components, of which the first extends this kind, is answered so.
fn chain_turns(alloc: Global, count: u32, first: &str, found: Option<Found>) -> Option<bool> {
    let mut components = Vec::new(alloc);
    add_chain(alloc, &mut components, count, first)?;
    let answer = check(alloc, components.as_slice());
    Some(is_answer(&answer, found))
}

#[test]
fn long_chains_are_searched(rt: HostRuntime) {
    for (count, first, found) in [
        (4000, "Group", None),
        (4000, "C3999", Some((11, "C0", 1, "c0"))),
        (4000, "C2000", Some((11, "C0", 1, "c0"))),
    ] {
        assert!(rt;
            chain_turns(rt.alloc(), count, first, found) == Some(true),
            "{first}"
        );
    }
}
