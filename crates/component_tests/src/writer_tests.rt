//! What no clause says: with ample memory component files are written, and how.
use chan_values::Bytes;
use component_files::read_component;
use component_writer::write_component;
use std::alloc::Global;

/// The component file that the bytes are, as it is written.
#[tactic(auto, using(component_writer::proofs::Whole::was_read))]
fn written(alloc: Global, bytes: &[u8]) -> Option<Vec<u8>> {
    if bytes.len() >= 10000 {
        return None;
    }
    match read_component(alloc, bytes) {
        Ok(file) => write_component(alloc, &file).ok(),
        Err(_) => None,
    }
}

/// Whether the component file is written so.
fn gives(alloc: Global, bytes: &[u8], want: &[u8]) -> bool {
    match written(alloc, bytes) {
        Some(text) => text.as_slice() == want,
        None => false,
    }
}

/// Whether the component file is written so, and what is written is written the same.
fn is_written(alloc: Global, bytes: &[u8], want: &[u8]) -> bool {
    gives(alloc, bytes, want) && gives(alloc, want, want)
}

static FILES: [(&[u8], &[u8]); 9] = [
    (
        b"<component name='x'/>",
        b"<component name=\"x\" extends=\"Group\"><interface></interface><children></children></component>",
    ),
    (
        b"\xef\xbb\xbf<?xml version='1.0'?>\r\n<!-- -->\n<component name = 'x' other='y' extends='' >\n</component>\n",
        b"<component name=\"x\" extends=\"\"><interface></interface><children></children></component>",
    ),
    (
        b"<?xml version=\"1.0\" encoding=\"utf-8\" ?>\n<component name=\"HomeScene\" extends=\"Scene\">\n  <script type=\"text/brightscript\" uri=\"pkg:/components/HomeScene.brs\" />\n  <children>\n    <Rectangle id=\"bg\" width=\"1280\" height=\"720\" opacity=\"0.5\" />\n    <Label id=\"title\" text=\"Loading\" />\n  </children>\n</component>\n",
        b"<component name=\"HomeScene\" extends=\"Scene\"><interface></interface><script uri=\"pkg:/components/HomeScene.brs\"></script><children><Rectangle id=\"bg\" width=\"1280\" height=\"720\" opacity=\"0.5\"></Rectangle><Label id=\"title\" text=\"Loading\"></Label></children></component>",
    ),
    (
        b"<component name=\"Feed\" extends=\"Task\"><interface><field id=\"content\" type=\"node\" /></interface><script uri=\"Feed.brs\" /></component>",
        b"<component name=\"Feed\" extends=\"Task\"><interface><field id=\"content\" type=\"node\" alwaysNotify=\"false\"/></interface><script uri=\"Feed.brs\"></script><children></children></component>",
    ),
    (
        b"<component name=\"Base\" extends=\"Group\"><script uri=\"base.brs\"/></component>",
        b"<component name=\"Base\" extends=\"Group\"><interface></interface><script uri=\"base.brs\"></script><children></children></component>",
    ),
    (
        b"<component name=\"Derived\" extends=\"Base\"><script uri=\"derived.brs\"/></component>",
        b"<component name=\"Derived\" extends=\"Base\"><interface></interface><script uri=\"derived.brs\"></script><children></children></component>",
    ),
    (
        b"<component name=\"Worker\" extends=\"Task\"><interface><field id=\"n\" type=\"integer\"/></interface><script uri=\"worker.brs\"/></component>",
        b"<component name=\"Worker\" extends=\"Task\"><interface><field id=\"n\" type=\"integer\" alwaysNotify=\"false\"/></interface><script uri=\"worker.brs\"></script><children></children></component>",
    ),
    (
        b"<component name='Obs' extends='Node'><interface><field id='n' type='integer'/></interface><script><![CDATA[\nsub init()\n  m.top.observeField(\"n\", \"one\")\nend sub\n]]></script></component>",
        b"<component name=\"Obs\" extends=\"Node\"><interface><field id=\"n\" type=\"integer\" alwaysNotify=\"false\"/></interface><script><![CDATA[\nsub init()\n  m.top.observeField(\"n\", \"one\")\nend sub\n]]></script><children></children></component>",
    ),
    (
        b"<component name='Two' extends='Node'><interface><field id='a' type='integer' onChange='hit'/><field id='b' type='integer' onChange='hit' alwaysNotify='true'/></interface><script uri='two.brs'/></component>",
        b"<component name=\"Two\" extends=\"Node\"><interface><field id=\"a\" type=\"integer\" alwaysNotify=\"false\" onChange=\"hit\"/><field id=\"b\" type=\"integer\" alwaysNotify=\"true\" onChange=\"hit\"/></interface><script uri=\"two.brs\"></script><children></children></component>",
    ),
];

#[test]
fn component_files_are_written(rt: HostRuntime) {
    for (text, want) in &FILES {
        assert!(rt; is_written(rt.alloc(), *text, *want), "{text:?}");
    }
}

/// Texts one after another.
fn joined(alloc: Global, texts: &[&str]) -> Option<Bytes> {
    let mut bytes = Bytes::new(alloc);
    for text in texts {
        bytes.push_slice(text.as_bytes()).ok()?;
    }
    Some(bytes)
}

/// Whether a component with these parts is written with this interface, these scripts and these children.
fn parts_are_written(alloc: Global, parts: &str, want: (&str, &str, &str)) -> bool {
    let bytes = joined(alloc, &["<component name='x'>", parts, "</component>"]);
    let wanted = joined(
        alloc,
        &[
            "<component name=\"x\" extends=\"Group\"><interface>",
            want.0,
            "</interface>",
            want.1,
            "<children>",
            want.2,
            "</children></component>",
        ],
    );
    match (bytes, wanted) {
        (Some(bytes), Some(wanted)) => is_written(alloc, bytes.as_slice(), wanted.as_slice()),
        _ => false,
    }
}

#[test]
fn parts_are_written_in_their_order(rt: HostRuntime) {
    for (parts, want) in [
        (
            "<interface><function name='f'/><field id='a' type='b' c='d' value='' onChange='g' alwaysNotify='true'></field></interface><interface><field id='h' type='i' value='&lt;&amp;&quot;&apos;&gt;&#9;' alwaysNotify='false'/></interface>",
            (
                "<field id=\"a\" type=\"b\" alwaysNotify=\"true\" value=\"\" onChange=\"g\"/><field id=\"h\" type=\"i\" alwaysNotify=\"false\" value=\"&lt;&amp;&quot;'>\t\"/><function name=\"f\"/>",
                "",
                "",
            ),
        ),
        (
            "<script uri=''/><script type='t' uri='a&#x26;b'> <![CDATA[\n]] ]>&lt;<]]> </script><script><![CDATA[]]></script>",
            (
                "",
                "<script uri=\"\"></script><script uri=\"a&amp;b\"><![CDATA[\n]] ]>&lt;<]]></script><script><![CDATA[]]></script>",
                "",
            ),
        ),
        (
            "<children><Label text='\"&#233;' x:y=''> <!-- --><a.b-1_><c/></A.B-1_></label></children><script uri='u'/><children/><children><d e=''/></children>",
            (
                "",
                "<script uri=\"u\"></script>",
                "<Label text=\"&quot;é\"><a.b-1_><c></c></a.b-1_></Label><d e=\"\"></d>",
            ),
        ),
    ] {
        assert!(rt; parts_are_written(rt.alloc(), parts, want), "{parts}");
    }
}

/// So many child elements inside one another.
fn nested(alloc: Global, depth: u8) -> Option<String> {
    let mut text = String::new(alloc);
    for _level in 0..depth {
        text.push_str("<a>").ok()?;
    }
    for _level in 0..depth {
        text.push_str("</a>").ok()?;
    }
    Some(text)
}

/// Whether so many child elements inside one another are written as they are.
fn are_written_so_deep(alloc: Global, depth: u8) -> bool {
    match nested(alloc, depth) {
        Some(children) => {
            let file = joined(
                alloc,
                &[
                    "<component name=\"x\" extends=\"Group\"><interface></interface><children>",
                    children.as_str(),
                    "</children></component>",
                ],
            );
            match file {
                Some(file) => gives(alloc, file.as_slice(), file.as_slice()),
                None => false,
            }
        }
        None => false,
    }
}

#[test]
fn children_are_written_64_deep(rt: HostRuntime) {
    assert!(rt; are_written_so_deep(rt.alloc(), 64));
    assert!(rt; !are_written_so_deep(rt.alloc(), 65));
}
