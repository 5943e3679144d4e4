//! The examples of `docs/FORMATS.md`: a small folder for each kind of fault behind those of sizes, and its line.
use crate::folders::{Row, is_answered};
use std::alloc::Global;
use std::test::Fail;
use std::thread::Threads;

const MANIFEST: Row = ("manifest", "title=a\n");

const MAIN: Row = ("source/main.brs", "sub main()\nend sub\n");

/// Whether a folder of a manifest and a `source/main.brs` of these lines is refused so.
fn is_refused_source<R: Threads>(
    rt: &R,
    alloc: Global,
    source: &'static str,
    want: &str,
) -> Result<bool, Fail> {
    is_answered(rt, alloc, &[MANIFEST, ("source/main.brs", source)], want)
}

#[test]
fn a_source_file_has_the_line_of_its_fault(rt: HostRuntime) -> Result<(), Fail> {
    let rows = [
        (
            "sub main()\nx = 1.5\nend sub\n",
            "refused F5 source/main.brs:2:5 FloatLiteral",
        ),
        (
            "sub main()\na.b\nend sub\n",
            "refused F6 source/main.brs:2:4",
        ),
        (
            "sub main()\nexit for\nend sub\n",
            "refused F7 source/main.brs:2:1 ExitOutsideLoop",
        ),
        ("sub start()\nend sub\n", "refused F19"),
    ];
    for (source, want) in rows {
        assert!(rt; is_refused_source(&rt, rt.alloc(), source, want)?, "{want}");
    }
    Ok(())
}

/// Whether a folder with this component file is refused so.
fn is_refused_component<R: Threads>(
    rt: &R,
    alloc: Global,
    component: &'static str,
    want: &str,
) -> Result<bool, Fail> {
    is_answered(
        rt,
        alloc,
        &[("components/a.xml", component), MANIFEST, MAIN],
        want,
    )
}

#[test]
fn a_component_has_the_line_of_its_fault(rt: HostRuntime) -> Result<(), Fail> {
    let rows = [
        (
            "<component name=\"A\">\n<label/>\n</component>\n",
            "refused F8 components/a.xml:2",
        ),
        (
            "<component name=\"Group\"></component>\n",
            "refused F9 components/a.xml:1 group",
        ),
        (
            "<component name=\"A\" extends=\"Nope\"></component>\n",
            "refused F10 components/a.xml:1 nope",
        ),
        (
            "<component name=\"A\" extends=\"A\"></component>\n",
            "refused F11 components/a.xml:1 a",
        ),
        (
            "<component name=\"A\">\n<script uri=\"a.brs\"/>\n</component>\n",
            "refused F12 components/a.xml:2 a.brs",
        ),
        (
            "<component name=\"A\">\n<interface>\n<field id=\"n\" type=\"integer\"/>\n<field id=\"N\" type=\"string\"/>\n</interface>\n</component>\n",
            "refused F14 components/a.xml:4 n",
        ),
        (
            "<component name=\"A\">\n<interface>\n<field id=\"n\" type=\"number\"/>\n</interface>\n</component>\n",
            "refused F15 components/a.xml:3 n",
        ),
        (
            "<component name=\"A\">\n<interface>\n<field id=\"n\" type=\"integer\" value=\"one\"/>\n</interface>\n</component>\n",
            "refused F16 components/a.xml:3 n",
        ),
        (
            "<component name=\"A\">\n<interface>\n<function name=\"go\"/>\n</interface>\n</component>\n",
            "refused F17 components/a.xml:3 go",
        ),
        (
            "<component name=\"A\">\n<children>\n<Nope/>\n</children>\n</component>\n",
            "refused F18 components/a.xml:3 nope",
        ),
    ];
    for (component, want) in rows {
        assert!(rt;
            is_refused_component(&rt, rt.alloc(), component, want)?,
            "{want}"
        );
    }
    Ok(())
}

#[test]
fn the_files_of_a_folder_have_the_line_of_their_fault(rt: HostRuntime) -> Result<(), Fail> {
    let rows: [(&[Row], &str); 3] = [
        (&[MAIN], "refused F3"),
        (
            &[("manifest", "title=a\nversion\n"), MAIN],
            "refused F4 manifest:2",
        ),
        (
            &[
                MANIFEST,
                ("source/a.brs", "sub go()\nend sub\n"),
                ("source/b.brs", "sub Go()\nend sub\n"),
                MAIN,
            ],
            "refused F13 source/b.brs:1:5 go",
        ),
    ];
    for (files, want) in rows {
        assert!(rt; is_answered(&rt, rt.alloc(), files, want)?, "{want}");
    }
    Ok(())
}
