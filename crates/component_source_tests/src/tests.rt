//! What no clause says: with ample memory a component file is read, and so is its first fault.
use brs_parser::SyntaxFault;
use brs_tokens::{LexFault, LexKind};
use component_files::ComponentSyntax;
use component_sources::{ComponentFault, ComponentFileAnswer, read_component_file};
use file_faults::SourceFault;
use static_faults::{StaticFault, StaticKind};
use std::alloc::Global;
use std::test::Fail;

/// What a component file is: good with so many inline scripts, or of a first fault; nothing where it isn't read.
fn read(alloc: Global, src: &str) -> Option<Result<usize, ComponentFault>> {
    if src.len() >= 1000 {
        return None;
    }
    match read_component_file(alloc, src.as_bytes()) {
        Ok(component) => Some(Ok(component.scripts.len())),
        Err(ComponentFileAnswer::Fault(fault)) => Some(Err(fault)),
        Err(ComponentFileAnswer::NoMemory) => None,
    }
}

fn lexical(kind: LexKind, line: u32, column: u32) -> SourceFault {
    SourceFault::Lexical(LexFault { kind, line, column })
}

fn syntax(token: u32, line: u32, column: u32) -> SourceFault {
    SourceFault::Syntax(SyntaxFault {
        token,
        line,
        column,
    })
}

fn of_static(kind: StaticKind, line: u32, column: u32) -> SourceFault {
    SourceFault::Static(StaticFault { kind, line, column })
}

fn element(line: u32) -> ComponentFault {
    ComponentFault::Element(ComponentSyntax { line })
}

#[test]
fn a_component_file_is_looked_at_before_its_inline_scripts(rt: HostRuntime) -> Result<(), Fail> {
    for (src, want) in [
        (
            "<component name='a'><script uri='b.brs'/></component>",
            Ok(0),
        ),
        (
            "<component name='a'><script><![CDATA[sub init()\nend sub\n]]></script></component>",
            Ok(1),
        ),
        (
            "<component name='a'>\n<script><![CDATA[sub init()\na.b\nend sub]]></script></component>",
            Err(ComponentFault::Script(syntax(8, 3, 4))),
        ),
        (
            "<component name='a'>\n<script><![CDATA[/]]></script><script><![CDATA[*]]></script></component>",
            Err(ComponentFault::Script(lexical(LexKind::Slash, 2, 1))),
        ),
        (
            "<component name='a'><script><![CDATA[]]></script>\n<script><![CDATA[\nsub m()\nend sub]]></script></component>",
            Err(ComponentFault::Script(of_static(StaticKind::ReservedName, 3, 5))),
        ),
        (
            "<component name='a'>\n<script><![CDATA[/]]></script>\n<b/></component>",
            Err(element(3)),
        ),
        ("<component name='a'>\n", Err(element(2))),
        ("", Err(element(1))),
    ] {
        assert_eq!(rt; read(rt.alloc(), src), Some(want));
    }
    Ok(())
}
