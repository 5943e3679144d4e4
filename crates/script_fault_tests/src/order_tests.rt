//! What no clause says: with ample memory the first fault of a channel is found, and each kind of fault hides the kinds behind it.
use crate::checks::are_few;
use crate::folders::{Refusal, components, functions, is_refusal, text};
use component_scopes::first_fault;
use folder_rules::SourceFunctions;
use std::alloc::Global;

/// Adds a file with one function.
fn push_source(
    alloc: Global,
    sources: &mut Vec<SourceFunctions>,
    path: &str,
    function: &str,
) -> Option<()> {
    let source = SourceFunctions {
        path: text(alloc, path)?,
        inline: false,
        functions: functions(alloc, &[function])?,
    };
    sources.push(source).ok()
}

/// Whether a channel of two component files and of two files under `source`, each with one function, has this first fault, or none.
fn is_answered(
    alloc: Global,
    files: (&str, &str),
    names: (&str, &str),
    refusal: Option<Refusal<'_>>,
) -> Option<bool> {
    let rows = [("components/a.xml", files.0), ("components/b.xml", files.1)];
    let components = components(alloc, &rows)?;
    let mut sources = Vec::new(alloc);
    push_source(alloc, &mut sources, "source/a.brs", names.0)?;
    push_source(alloc, &mut sources, "source/b.brs", names.1)?;
    if !are_few(sources.as_slice()) {
        return None;
    }
    let answer = first_fault(alloc, components.as_slice(), sources.as_slice());
    Some(is_refusal(answer, refusal))
}

#[test]
fn a_kind_of_fault_hides_the_kinds_behind_it(rt: HostRuntime) {
    for (a, b, first, second, refusal) in [
        (
            "<component name='A'/>",
            "<component name='B' extends='a'/>",
            "main",
            "other",
            None,
        ),
        (
            "<component name='A' extends='Nope'/>",
            "<component name='a'/>",
            "main",
            "other",
            Some(Refusal(9, "components/b.xml", 1, 0, "a")),
        ),
        (
            "<component name='A' extends='A'/>",
            "<component name='B' extends='Nope'/>",
            "main",
            "other",
            Some(Refusal(10, "components/b.xml", 1, 0, "nope")),
        ),
        (
            "<component name='A'><script uri='no.brs'/></component>",
            "<component name='B' extends='B'/>",
            "main",
            "other",
            Some(Refusal(11, "components/b.xml", 1, 0, "b")),
        ),
        (
            "<component name='A'/>",
            "<component name='B'><script uri='no.brs'/></component>",
            "main",
            "main",
            Some(Refusal(12, "components/b.xml", 1, 0, "no.brs")),
        ),
        (
            "<component name='A'><interface><field id='Visible' type='int'/></interface></component>",
            "<component name='B'/>",
            "main",
            "main",
            Some(Refusal(13, "source/b.brs", 1, 5, "main")),
        ),
        (
            "<component name='A'><interface><field id='F' type='float'/></interface></component>",
            "<component name='B'><interface><field id='Visible' type='int'/></interface></component>",
            "main",
            "other",
            Some(Refusal(14, "components/b.xml", 1, 0, "visible")),
        ),
        (
            "<component name='A'><children><Label visible='x'/></children></component>",
            "<component name='B'><interface><field id='F' type='float'/></interface></component>",
            "main",
            "other",
            Some(Refusal(15, "components/b.xml", 1, 0, "f")),
        ),
        (
            "<component name='A'><interface><function name='Nope'/></interface></component>",
            "<component name='B'><children><Label visible='x'/></children></component>",
            "main",
            "other",
            Some(Refusal(16, "components/b.xml", 1, 0, "visible")),
        ),
        (
            "<component name='A'><children><Nope/></children></component>",
            "<component name='B'><interface><function name='Nope'/></interface></component>",
            "main",
            "other",
            Some(Refusal(17, "components/b.xml", 1, 0, "nope")),
        ),
        (
            "<component name='A'><children><Nope/></children></component>",
            "<component name='B'/>",
            "more",
            "other",
            Some(Refusal(18, "components/a.xml", 1, 0, "nope")),
        ),
        (
            "<component name='A'/>",
            "<component name='B'/>",
            "more",
            "other",
            Some(Refusal(19, "", 0, 0, "")),
        ),
    ] {
        assert!(rt;
            is_answered(rt.alloc(), (a, b), (first, second), refusal) == Some(true),
            "{a} {b}"
        );
    }
}
