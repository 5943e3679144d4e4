//! What no clause says: with ample memory names, bases, type words, child kinds and Main are checked, and the first fault is told apart from the
//! others.
use crate::channels::{Found, channel, is_answer};
use chan_values::Text;
use component_faults::{check_bases, check_children, check_main, check_types, kind_table};
use folder_rules::{DeclaredFunction, PathedComponent, SourceFunctions, TablesAnswer};
use sqlite_items::Items;
use std::alloc::Global;

/// A kind of fault.
#[derive(Clone, Copy)]
enum Kind {
    Names,
    Bases,
    Types,
    Children,
}

fn check(alloc: Global, kind: Kind, components: &[PathedComponent]) -> Result<(), TablesAnswer> {
    let names = kind_table(alloc, components)?;
    match kind {
        Kind::Names => Ok(()),
        Kind::Bases => check_bases(alloc, &names, components),
        Kind::Types => check_types(alloc, components),
        Kind::Children => check_children(alloc, &names, components),
    }
}

/// Whether a channel of two component files is answered so.
fn finds(alloc: Global, kind: Kind, a: &str, b: &str, found: Option<Found>) -> Option<bool> {
    let components = channel(alloc, a, b)?;
    let answer = check(alloc, kind, components.as_slice());
    Some(is_answer(&answer, found))
}

#[test]
fn names_stand_once(rt: HostRuntime) {
    for (a, b, found) in [
        ("<component name='A'/>", "<component name='B'/>", None),
        (
            "<component name='A'/>",
            "<component name='A'/>",
            Some((9, "b.xml", 1, "a")),
        ),
        (
            "<component name='A'/>",
            "\n<component name='a'/>",
            Some((9, "b.xml", 2, "a")),
        ),
        (
            "<component name='LABEL'/>",
            "<component name='label'/>",
            Some((9, "a.xml", 1, "label")),
        ),
        (
            "<component name='Labels'/>",
            "<component name='Node'/>",
            Some((9, "b.xml", 1, "node")),
        ),
    ] {
        assert!(rt;
            finds(rt.alloc(), Kind::Names, a, b, found) == Some(true),
            "{a} {b}"
        );
    }
}

#[test]
fn bases_are_known(rt: HostRuntime) {
    for (a, b, found) in [
        (
            "<component name='A'/>",
            "<component name='B' extends='a'/>",
            None,
        ),
        (
            "<component name='A' extends='B'/>",
            "<component name='B' extends='TASK'/>",
            None,
        ),
        (
            "<component name='A' extends='Nope'/>",
            "<component name='B' extends=''/>",
            Some((10, "a.xml", 1, "nope")),
        ),
        (
            "<component name='A' extends='Task'/>",
            "\n\n<component name='B' extends=''/>",
            Some((10, "b.xml", 3, "")),
        ),
    ] {
        assert!(rt;
            finds(rt.alloc(), Kind::Bases, a, b, found) == Some(true),
            "{a} {b}"
        );
    }
}

#[test]
fn words_are_types(rt: HostRuntime) {
    for (a, b, found) in [
        (
            "<component name='A'><interface><field id='F' type='Int'/></interface></component>",
            "<component name='B'><interface><field id='F' type='ASSOCARRAY'/></interface></component>",
            None,
        ),
        (
            "<component name='A'><interface><field id='F' type='float'/></interface></component>",
            "<component name='B'><interface><field id='G' type='time'/></interface></component>",
            Some((15, "a.xml", 1, "f")),
        ),
        (
            "<component name='A'/>",
            "<component name='B'><interface>\n<field id='F' type='float'/><field id='G' type=' int'/></interface></component>",
            Some((15, "b.xml", 2, "f")),
        ),
        (
            "<component name='A'/>",
            "<component name='B'><interface>\n<field id='F' type='int'/>\n<field id='G' type=' int'/></interface></component>",
            Some((15, "b.xml", 3, "g")),
        ),
    ] {
        assert!(rt;
            finds(rt.alloc(), Kind::Types, a, b, found) == Some(true),
            "{a} {b}"
        );
    }
}

#[test]
fn children_have_known_kinds(rt: HostRuntime) {
    for (a, b, found) in [
        (
            "<component name='A'><children><Group><b/><LABEL/></Group></children></component>",
            "<component name='B'><children><A/></children></component>",
            None,
        ),
        (
            "<component name='A'><children><Nope/></children></component>",
            "<component name='B'><children><Never/></children></component>",
            Some((18, "a.xml", 1, "nope")),
        ),
        (
            "<component name='A'><children><Group>\n<B/><b><Nope/></b></Group><Never/></children></component>",
            "<component name='B'/>",
            Some((18, "a.xml", 2, "nope")),
        ),
        (
            "<component name='A'><children><Group><B/></Group></children></component>",
            "<component name='B'><children>\n<script/>\n<Never/></children></component>",
            Some((18, "b.xml", 2, "script")),
        ),
    ] {
        assert!(rt;
            finds(rt.alloc(), Kind::Children, a, b, found) == Some(true),
            "{a} {b}"
        );
    }
}

/// Whether a channel with one function in one source text is answered so.
fn starts(
    alloc: Global,
    path: &str,
    inline: bool,
    name: &str,
    found: Option<Found>,
) -> Option<bool> {
    let mut function = DeclaredFunction {
        name: Text::new(alloc),
        line: 1,
        column: 5,
    };
    function.name.push_str(name).ok()?;
    let mut functions = Items::new(alloc);
    functions.push(function).ok()?;
    let mut source = SourceFunctions {
        path: Text::new(alloc),
        inline,
        functions,
    };
    source.path.push_str(path).ok()?;
    let answer = check_main(alloc, &[source]);
    Some(is_answer(&answer, found))
}

#[test]
fn channels_start_with_main(rt: HostRuntime) {
    for (path, inline, name, found) in [
        ("source/a.brs", false, "main", None),
        ("source/b/c.brs", false, "runuserinterface", None),
        ("source/a.brs", false, "mains", Some((19, "", 0, ""))),
        ("components/a.brs", false, "main", Some((19, "", 0, ""))),
        ("components/a.xml", true, "main", Some((19, "", 0, ""))),
    ] {
        assert!(rt;
            starts(rt.alloc(), path, inline, name, found) == Some(true),
            "{path} {name}"
        );
    }
}
