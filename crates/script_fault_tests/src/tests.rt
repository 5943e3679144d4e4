//! What no clause says: with ample memory each check answers, with the fault that the folder has.
use crate::checks::{are_few, check_all};
use crate::folders::{ComponentRow, Refusal, SourceRow, components, is_refusal, sources};
use chan_values::Text;
use std::alloc::Global;

/// Whether a folder has this first fault of scripts and functions, or none.
fn is_answered(
    alloc: Global,
    component_rows: &[ComponentRow<'_>],
    source_rows: &[SourceRow],
    refusal: Option<Refusal<'_>>,
) -> Option<bool> {
    let components = components(alloc, component_rows)?;
    let sources = sources(alloc, source_rows)?;
    if !are_few(sources.as_slice()) {
        return None;
    }
    let answer = check_all(alloc, components.as_slice(), sources.as_slice());
    Some(is_refusal(answer, refusal))
}

#[test]
fn scripts_name_source_files(rt: HostRuntime) {
    for (component, refusal) in [
        ("<component name='A'/>", None),
        (
            "<component name='A'><script uri='b.brs'/></component>",
            None,
        ),
        (
            "<component name='A'><script uri='pkg:/components/b.brs'/></component>",
            None,
        ),
        (
            "<component name='A'><script uri='pkg:/source/main.brs'/></component>",
            None,
        ),
        (
            "<component name='A'><script><![CDATA[ ]]></script></component>",
            None,
        ),
        (
            "<component name='A'>\n<script uri=''/></component>",
            Some(Refusal(12, "components/a.xml", 2, 0, "")),
        ),
        (
            "<component name='A'><script uri='B.brs'/></component>",
            Some(Refusal(12, "components/a.xml", 1, 0, "B.brs")),
        ),
        (
            "<component name='A'><script uri='../components/b.brs'/></component>",
            Some(Refusal(12, "components/a.xml", 1, 0, "../components/b.brs")),
        ),
        (
            "<component name='A'><script uri='pkg:components/b.brs'/></component>",
            Some(Refusal(12, "components/a.xml", 1, 0, "pkg:components/b.brs")),
        ),
        (
            "<component name='A'><script uri='a.xml'/></component>",
            Some(Refusal(12, "components/a.xml", 1, 0, "a.xml")),
        ),
        (
            "<component name='A'><script uri='b.brs'/>\n<script uri='c.brs'/>\n<script uri='d.brs'/></component>",
            Some(Refusal(12, "components/a.xml", 2, 0, "c.brs")),
        ),
    ] {
        let sources: [SourceRow; 3] = [
            ("components/a.xml", true, &["one"]),
            ("components/b.brs", false, &["two"]),
            ("source/main.brs", false, &["main"]),
        ];
        assert!(rt;
            is_answered(
                rt.alloc(),
                &[("components/a.xml", component)],
                &sources,
                refusal
            ) == Some(true),
            "{component}"
        );
    }
}

#[test]
fn the_first_component_without_its_script_is_refused(rt: HostRuntime) {
    for (first, second, refusal) in [
        (
            "<component name='A'><script uri='x.brs'/></component>",
            "<component name='B'><script uri='y.brs'/></component>",
            Some(Refusal(12, "components/a.xml", 1, 0, "x.brs")),
        ),
        (
            "<component name='A'><script uri='b.brs'/></component>",
            "<component name='B'><script uri='b.brs'/></component>",
            Some(Refusal(12, "components/c/b.xml", 1, 0, "b.brs")),
        ),
        (
            "<component name='A'><script uri='b.brs'/></component>",
            "<component name='B'><script uri='b/.././e.brs'/></component>",
            None,
        ),
    ] {
        let sources: [SourceRow; 2] = [
            ("components/b.brs", false, &[]),
            ("components/c/b/.././e.brs", false, &[]),
        ];
        let components: [ComponentRow<'_>; 2] = [
            ("components/a.xml", first),
            ("components/c/b.xml", second),
        ];
        assert!(rt;
            is_answered(rt.alloc(), &components, &sources, refusal) == Some(true),
            "{second}"
        );
    }
}

/// Two scripts of one component, of which the later one stands earlier by path, and the repeats among their functions.
#[test]
fn names_stand_once_in_a_scope_level(rt: HostRuntime) {
    for (component, refusal) in [
        (
            "<component name='A'><script uri='b.brs'/></component>",
            None,
        ),
        (
            "<component name='A'><script uri='b.brs'/><script uri='c.brs'/></component>",
            None,
        ),
        (
            "<component name='A'><script uri='c.brs'/><script uri='b.brs'/><script uri='pkg:/components/c.brs'/></component>",
            None,
        ),
        (
            "<component name='A'><script uri='d.brs'/><script uri='b.brs'/></component>",
            Some(Refusal(13, "components/b.brs", 2, 5, "who")),
        ),
        (
            "<component name='A'><script uri='b.brs'/><script uri='d.brs'/></component>",
            Some(Refusal(13, "components/d.brs", 1, 5, "who")),
        ),
        (
            "<component name='A'><script uri='d.brs'/><script uri='e.brs'/><script uri='b.brs'/></component>",
            Some(Refusal(13, "components/b.brs", 2, 5, "who")),
        ),
        (
            "<component name='A'><script uri='e.brs'/></component>",
            Some(Refusal(13, "components/e.brs", 3, 5, "tell")),
        ),
        (
            "<component name='A'><script uri='d.brs'><![CDATA[ ]]></script><script><![CDATA[ ]]></script></component>",
            Some(Refusal(13, "components/a.xml", 2, 5, "who")),
        ),
        (
            "<component name='A'><script><![CDATA[ ]]></script><script uri='d.brs'/></component>",
            Some(Refusal(13, "components/d.brs", 1, 5, "who")),
        ),
    ] {
        let sources: [SourceRow; 6] = [
            ("components/a.xml", true, &["init", "who"]),
            ("components/b.brs", false, &["one", "who"]),
            ("components/c.brs", false, &["two"]),
            ("components/d.brs", false, &["who"]),
            ("components/e.brs", false, &["tell", "main", "tell"]),
            ("source/main.brs", false, &["main", "who"]),
        ];
        assert!(rt;
            is_answered(
                rt.alloc(),
                &[("components/a.xml", component)],
                &sources,
                refusal
            ) == Some(true),
            "{component}"
        );
    }
}

#[test]
fn a_folder_has_one_level_for_all_of_source(rt: HostRuntime) {
    let base = "<component name='A'><script uri='pkg:/components/z.brs'/></component>";
    let derived =
        "<component name='B' extends='a'><script uri='pkg:/components/y.brs'/></component>";
    let components: [ComponentRow<'_>; 2] = [
        ("components/a.xml", base),
        ("components/b.xml", derived),
    ];
    let rows: [(
        &'static [&'static str],
        &'static [&'static str],
        Option<Refusal<'_>>,
    ); 5] = [
        (&["one"], &["two"], None),
        (
            &["main"],
            &["two"],
            Some(Refusal(13, "source/b.brs", 1, 5, "main")),
        ),
        (
            &["two"],
            &["main"],
            Some(Refusal(13, "source/c/d.brs", 1, 5, "main")),
        ),
        (
            &["one"],
            &["one"],
            Some(Refusal(13, "source/c/d.brs", 1, 5, "one")),
        ),
        (&["init"], &["who"], None),
    ];
    for (second, third, refusal) in rows {
        let sources: [SourceRow; 5] = [
            ("components/y.brs", false, &["init", "who"]),
            ("components/z.brs", false, &["init", "who"]),
            ("source/a.brs", false, &["main"]),
            ("source/b.brs", false, second),
            ("source/c/d.brs", false, third),
        ];
        assert!(rt;
            is_answered(rt.alloc(), &components, &sources, refusal) == Some(true),
            "{second:?}"
        );
    }
}

#[test]
fn the_first_repeat_goes_by_path_and_not_by_component(rt: HostRuntime) {
    let components: [ComponentRow<'_>; 2] = [
        (
            "components/a.xml",
            "<component name='A'><script uri='z.brs'/></component>",
        ),
        (
            "components/b.xml",
            "<component name='B'><script uri='y.brs'/></component>",
        ),
    ];
    let sources: [SourceRow; 3] = [
        ("components/y.brs", false, &["two", "one", "two", "one"]),
        ("components/z.brs", false, &["one", "one"]),
        ("source/a.brs", false, &["main", "main"]),
    ];
    let refusal = Some(Refusal(13, "components/y.brs", 3, 5, "two"));
    assert!(rt; is_answered(rt.alloc(), &components, &sources, refusal) == Some(true));
}

/// The named functions of a derived component, whose base has `init` and `who`, and whose own script has `init` and `tell`.
#[test]
fn named_functions_are_in_scope(rt: HostRuntime) {
    for (interface, refusal) in [
        ("", None),
        ("<field id='a' type='int'/><function name='tell'/>", None),
        (
            "<field id='a' type='int' onChange='TELL'/><function name='Init'/>",
            None,
        ),
        (
            "<field id='a' type='int' onChange='who'/><function name='WHO'/>",
            None,
        ),
        (
            "<field id='a' type='int' onChange='Main'/>",
            Some(Refusal(17, "components/derived.xml", 1, 0, "main")),
        ),
        (
            "<function name='tell'/>\n<function name='Later'/>",
            Some(Refusal(17, "components/derived.xml", 2, 0, "later")),
        ),
        (
            "<function name='Later'/>",
            Some(Refusal(17, "components/derived.xml", 1, 0, "later")),
        ),
        (
            "<function name='one'/><field id='a' type='int' onChange='two'/>",
            Some(Refusal(17, "components/derived.xml", 1, 0, "one")),
        ),
        (
            "<field id='a' type='int' onChange='two'/><function name='one'/>",
            Some(Refusal(17, "components/derived.xml", 1, 0, "two")),
        ),
        (
            "\n<function name='one'/>\n<field id='a' type='int' onChange='two'/>",
            Some(Refusal(17, "components/derived.xml", 2, 0, "one")),
        ),
        (
            "<field id='a' type='int' onChange='createObject'/>",
            Some(Refusal(17, "components/derived.xml", 1, 0, "createobject")),
        ),
    ] {
        assert!(rt;
            is_interface_answered(rt.alloc(), interface, refusal) == Some(true),
            "{interface}"
        );
    }
}

fn is_interface_answered(
    alloc: Global,
    interface: &str,
    refusal: Option<Refusal<'_>>,
) -> Option<bool> {
    let mut derived = Text::new(alloc);
    derived
        .push_str("<component name='Derived' extends='BASE'><script uri='derived.brs'/><interface>")
        .ok()?;
    derived.push_str(interface).ok()?;
    derived.push_str("</interface></component>").ok()?;
    let rows: [ComponentRow<'_>; 2] = [
        (
            "components/base.xml",
            "<component name='Base' extends='Group'><script uri='base.brs'/></component>",
        ),
        ("components/derived.xml", derived.as_str()),
    ];
    let sources: [SourceRow; 3] = [
        ("components/base.brs", false, &["init", "who"]),
        ("components/derived.brs", false, &["init", "tell"]),
        ("source/main.brs", false, &["main"]),
    ];
    is_answered(alloc, &rows, &sources, refusal)
}

#[test]
fn a_base_has_no_function_of_its_derived_component(rt: HostRuntime) {
    for (first, second, refusal) in [
        (
            "<component name='A' extends='B'><script uri='a.brs'/></component>",
            "<component name='B'><interface><function name='a'/></interface></component>",
            Some(Refusal(17, "components/b.xml", 1, 0, "a")),
        ),
        (
            "<component name='A'><interface><function name='b'/></interface></component>",
            "<component name='B' extends='A'><script uri='b.brs'/><interface><function name='never'/></interface></component>",
            Some(Refusal(17, "components/a.xml", 1, 0, "b")),
        ),
        (
            "<component name='A' extends='Nope'><interface><function name='b'/></interface></component>",
            "<component name='B'><script uri='b.brs'/></component>",
            Some(Refusal(17, "components/a.xml", 1, 0, "b")),
        ),
        (
            "<component name='A' extends='B'><interface><function name='never'/></interface></component>",
            "<component name='B' extends='A'/>",
            Some(Refusal(17, "components/a.xml", 1, 0, "never")),
        ),
        (
            "<component name='A' extends='B'><interface><function name='B'/></interface></component>",
            "<component name='B' extends='A'><script uri='b.brs'/></component>",
            None,
        ),
    ] {
        let components: [ComponentRow<'_>; 2] = [
            ("components/a.xml", first),
            ("components/b.xml", second),
        ];
        let sources: [SourceRow; 2] = [
            ("components/a.brs", false, &["a"]),
            ("components/b.brs", false, &["b"]),
        ];
        assert!(rt;
            is_answered(rt.alloc(), &components, &sources, refusal) == Some(true),
            "{first}"
        );
    }
}
