//! What no clause says: with ample memory the tables of a channel are made, and each call on them answers.
use crate::checks::are_few;
use crate::folders::{ComponentRow, Refusal, SourceRow, components, is_refusal, sources};
use chan_values::Text;
use component_scopes::tables;
use folder_rules::TablesAnswer;
use kind_tables::Tables;
use std::alloc::Global;

/// A base, and a component that is derived from it, names one file twice and has an inline script.
const COMPONENTS: [ComponentRow<'static>; 2] = [
    (
        "components/a.xml",
        "<component name='Base' extends='Group'><script uri='base.brs'/><interface><field id='Size' type='integer' onChange='Resized'/><field id='plain' type='string'/><function name='Show'/></interface></component>",
    ),
    (
        "components/b.xml",
        "<component name='Derived' extends='BASE'><script uri='shared.brs'/><script uri='pkg:/components/shared.brs'/><script><![CDATA[ ]]></script><interface><field id='own' type='string' onChange='Late'/></interface></component>",
    ),
];

const SOURCES: [SourceRow; 4] = [
    ("components/b.xml", true, &["late", "resized"]),
    ("components/base.brs", false, &["init", "show", "resized"]),
    ("components/shared.brs", false, &["shared"]),
    ("source/main.brs", false, &["main", "helper"]),
];

fn make_tables(alloc: Global, rows: &[ComponentRow<'_>]) -> Option<Result<Tables, TablesAnswer>> {
    let components = components(alloc, rows)?;
    let sources = sources(alloc, &SOURCES)?;
    if !are_few(sources.as_slice()) {
        return None;
    }
    Some(tables(alloc, components.as_slice(), sources.as_slice()))
}

fn good_tables(alloc: Global) -> Option<Tables> {
    make_tables(alloc, &COMPONENTS)?.ok()
}

fn is_text(found: Option<&Text>, text: Option<&str>) -> bool {
    match (found, text) {
        (Some(found), Some(text)) => found.as_str() == text,
        (None, None) => true,
        _ => false,
    }
}

#[test]
fn names_read_as_the_derived_function_in_any_case(rt: HostRuntime) {
    let tables = good_tables(rt.alloc());
    assert!(rt; tables.is_some());
    if let Some(tables) = tables {
        for (kind, name, number) in [
            ("Base", "resized", Some(4)),
            ("derived", "Resized", Some(1)),
            ("DERIVED", "SHOW", Some(3)),
            ("Derived", "late", Some(0)),
            ("Derived", "shared", Some(5)),
            ("Base", "late", None),
            ("Derived", "main", None),
            ("Group", "show", None),
            ("Nothing", "show", None),
            ("", "Main", Some(6)),
            ("", "helper", Some(7)),
            ("", "show", None),
        ] {
            assert!(rt; tables.function(kind.as_bytes(), name.as_bytes()) == number);
        }
    }
}

#[test]
fn bases_and_own_init_functions_are_found(rt: HostRuntime) {
    let tables = good_tables(rt.alloc());
    assert!(rt; tables.is_some());
    if let Some(tables) = tables {
        for (kind, base, init) in [
            ("DERIVED", Some("base"), None),
            ("Base", Some("group"), Some(2)),
            ("Group", Some("node"), None),
            ("Node", None, None),
            ("Nothing", None, None),
            ("", None, None),
        ] {
            assert!(rt; is_text(tables.base(kind.as_bytes()), base));
            assert!(rt; tables.own_init(kind.as_bytes()) == init);
        }
    }
}

#[test]
fn fields_and_interfaces_include_those_of_bases(rt: HostRuntime) {
    let tables = good_tables(rt.alloc());
    assert!(rt; tables.is_some());
    if let Some(tables) = tables {
        for (kind, field, handler) in [
            ("Derived", "SIZE", Some("resized")),
            ("Derived", "Own", Some("late")),
            ("Derived", "plain", None),
            ("Base", "own", None),
            ("Group", "visible", None),
        ] {
            assert!(rt; is_text(tables.on_change(kind.as_bytes(), field.as_bytes()), handler));
        }
        for (kind, name, is_there) in [
            ("Derived", "SHOW", true),
            ("Base", "show", true),
            ("Base", "resized", false),
            ("Group", "show", false),
        ] {
            assert!(rt; tables.has_interface(kind.as_bytes(), name.as_bytes()) == is_there);
        }
    }
}

#[test]
fn components_and_scopes_are_listed_in_order(rt: HostRuntime) {
    let tables = good_tables(rt.alloc());
    assert!(rt; tables.is_some());
    if let Some(tables) = tables {
        for (at, name) in [(0, Some("base")), (1, Some("derived")), (2, None)] {
            assert!(rt; is_text(tables.kind_at(at), name));
        }
        for (kind, at, name) in [
            ("Derived", 0, Some("init")),
            ("Derived", 1, Some("late")),
            ("Derived", 2, Some("resized")),
            ("Derived", 3, Some("shared")),
            ("Derived", 4, Some("show")),
            ("Derived", 5, None),
            ("Derived", 9, None),
            ("", 0, Some("helper")),
            ("", 1, Some("main")),
            ("", 2, None),
            ("Nothing", 0, None),
        ] {
            assert!(rt; is_text(tables.name_at(kind.as_bytes(), at), name));
        }
    }
}

#[test]
fn a_channel_with_a_fault_has_no_tables(rt: HostRuntime) {
    let rows = [(
        "components/a.xml",
        "<component name='A' extends='Nothing'/>",
    )];
    let answer = make_tables(rt.alloc(), &rows);
    assert!(rt; answer.is_some());
    if let Some(answer) = answer {
        let refusal = Some(Refusal(10, "components/a.xml", 1, 0, "nothing"));
        assert!(rt; is_refusal(answer.map(|_| ()), refusal));
    }
}
