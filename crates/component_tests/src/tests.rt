//! What no clause says: with ample memory files are read, and the types cross threads.
use chan_values::{Bytes, Text};
use component_files::{
    ChildElement, ComponentAnswer, ComponentFile, FieldElement, ScriptElement, read_component,
};
use std::alloc::Global;
use std::test::Fail;

fn may_be_shared<T: Send + Sync>(_value: &T) {}

/// The line of the first fault, 0 where the bytes are a component file, and nothing where they aren't read.
fn fault_line(alloc: Global, bytes: &[u8]) -> Option<u32> {
    if bytes.len() >= 1000 {
        return None;
    }
    match read_component(alloc, bytes) {
        Ok(_file) => Some(0),
        Err(ComponentAnswer::Fault(fault)) => Some(fault.line),
        Err(ComponentAnswer::NoMemory) => None,
    }
}

/// The same for parts of a component that begins on line 1.
fn fault_line_of_parts(alloc: Global, parts: &str) -> Option<u32> {
    let mut bytes = Bytes::new(alloc);
    bytes.push_slice(b"<component name='x'>").ok()?;
    bytes.push_slice(parts.as_bytes()).ok()?;
    bytes.push_slice(b"</component>").ok()?;
    fault_line(alloc, bytes.as_slice())
}

static WHOLE_FILES: [(&[u8], u32); 27] = [
    (b"", 1),
    (b"\n", 2),
    (b"<component name='x'/>\n", 0),
    (b"<component name='x'>\r\n", 2),
    (b"<?xml?><?xml?>", 1),
    (b"<?xml version=\"1.0\"?>\n<component name='x'/>", 0),
    (b"\n<?xml?><component name='x'/>", 2),
    (b"<!-- -- -->\n<?xml?>", 2),
    (b"\xef\xbb\xbf<?xml?><component name='x'/>", 0),
    (b"\xef\xbb\xbf\xef\xbb\xbf<component name='x'/>", 1),
    (b"\n<!DOCTYPE x>", 2),
    (b"\n<?pi?>", 2),
    (b"\n<!--->", 2),
    (b"\n<!-- \xff --><component name='x'/>", 2),
    (b"\n<component name='\xc3'/>", 2),
    (b"\n<component name='&#xD800;'/>", 2),
    (b"<component name='&#x10FFFF;&#0;'/>", 0),
    (b"\n<component name='&bad;'/>", 2),
    (b"\n<component name='&amp'/>", 2),
    (b"\n<component name=''/>", 2),
    (b"\n<component/>", 2),
    (b"\n<Component name='x'/>", 2),
    (b"<component name='x' name='y'/>", 1),
    (b"<component name='x' Name='y' extends=''/>", 0),
    (b"<component name='x'>\n</Component>", 2),
    (b"<component name='x'/>\n<component name='y'/>", 2),
    (b"<component name='x'/>\n\ny", 1),
];

#[test]
fn whole_files_have_their_first_fault(rt: HostRuntime) {
    for (text, line) in &WHOLE_FILES {
        assert!(rt; fault_line(rt.alloc(), text) == Some(*line), "{text:?}");
    }
}

#[test]
fn parts_have_their_first_fault(rt: HostRuntime) {
    for (parts, line) in [
        ("\n\n text\n", 1),
        ("\n<!-- -->&#32;", 2),
        ("\n<![CDATA[]]>", 2),
        ("\n<field id='a' type='b'/>", 2),
        (
            "<interface><field id='a' type='b'/></interface><interface/>",
            0,
        ),
        ("<interface>\n<field id='a'/>", 2),
        ("<interface>\n<field id='' type='b'/>", 2),
        ("<interface>\n<field id='a' type='b' alias='c.d'/>", 2),
        (
            "<interface><field id='a' type='b' Alias='c' ID='d' value=''/></interface>",
            0,
        ),
        (
            "<interface><field id='a' type='b' alwaysNotify='true' onChange=''/></interface>",
            0,
        ),
        (
            "<interface>\n<field id='a' type='b' alwaysNotify='TRUE'/>",
            2,
        ),
        ("<interface>\n<field id='a' type='b' alwaysNotify=''/>", 2),
        ("<interface><field id='a' type='b'>\n<field", 2),
        ("<interface><function name='f'></function></interface>", 0),
        ("<interface><function name='f'>\n</field>", 2),
        ("<interface>\n<function name=''/>", 2),
        ("<script uri=''/><script uri='a'><![CDATA[b]]></script>", 0),
        ("<script><!-- --><![CDATA[]]> </script>", 0),
        ("\n<script/>", 2),
        ("<script>\n</script>", 2),
        ("<script><![CDATA[\n]]>\n<![CDATA[]]>", 3),
        ("<children><1a/><script/><Label></label></children>", 0),
        ("<children><a>\n</b>", 2),
        ("<children>\n<a b='' B=''/>", 2),
        ("<children>\n<a x:b='' X:b=''/>", 2),
        ("<children>\n<a:b/>", 2),
    ] {
        assert!(rt;
            fault_line_of_parts(rt.alloc(), parts) == Some(line),
            "{parts}"
        );
    }
}

/// The line of the first fault where so many child elements stand inside one another.
fn fault_line_of_nested(alloc: Global, depth: u8) -> Option<u32> {
    let mut parts = String::new(alloc);
    parts.push_str("<children>\n").ok()?;
    for _level in 0..depth {
        parts.push_str("<a>").ok()?;
    }
    for _level in 0..depth {
        parts.push_str("</A>").ok()?;
    }
    parts.push_str("</children>").ok()?;
    fault_line_of_parts(alloc, parts.as_str())
}

#[test]
fn children_nest_64_deep(rt: HostRuntime) {
    assert!(rt; fault_line_of_nested(rt.alloc(), 64) == Some(0));
    assert!(rt; fault_line_of_nested(rt.alloc(), 65) == Some(2));
}

fn file_of(alloc: Global, bytes: &[u8]) -> Option<ComponentFile> {
    if bytes.len() >= 1000 {
        return None;
    }
    read_component(alloc, bytes).ok()
}

/// Whether a text is there, and is this one.
fn is_there(text: &Option<Text>, want: &str) -> bool {
    match text {
        Some(text) => text.as_str() == want,
        None => false,
    }
}

/// Whether a component has this name, what it extends, and this place.
fn is_component(file: &ComponentFile, name: &str, extends: &str, place: (u32, u32)) -> bool {
    file.name.as_str() == name
        && file.extends.as_str() == extends
        && (file.line, file.column) == place
}

/// Whether the field is that of the test's component.
fn is_field(field: &FieldElement) -> bool {
    field.id.as_str() == "a"
        && field.word.as_str() == "string"
        && field.always
        && field.on_change.is_none()
        && (field.line, field.column) == (2, 13)
        && is_there(&field.value, "<\tA")
}

#[test]
fn a_component_has_its_tags_texts_and_places(rt: HostRuntime) -> Result<(), Fail> {
    let text =
        b"\xef\xbb\xbf<component name=\"Main\">\r\n <interface><field id=\"a\" type=\"string\" alwaysNotify=\"true\" value=\"&lt;\t&#65;\"/>\n<function name='f'/></interface></component>";
    let file = file_of(rt.alloc(), text).ok_or("no component file")?;
    may_be_shared(&file);
    assert!(rt; is_component(&file, "Main", "Group", (1, 4)));
    assert!(rt; file.fields.len() == 1 && file.functions.len() == 1 && file.children.len() == 0);
    assert!(rt; matches!(file.fields.get(0), Some(field) if is_field(field)));
    assert!(rt;
        matches!(file.functions.get(0), Some(function) if function.name.as_str() == "f" && (function.line, function.column) == (3, 1))
    );
    Ok(())
}

/// Whether the script is that of the test's component.
fn is_script(script: &ScriptElement) -> bool {
    let is_inline = match &script.inline {
        Some(inline) => inline.text.as_str() == "\nprint 1\n" && inline.first_line == 3,
        None => false,
    };
    script.uri.is_none() && (script.line, script.column) == (2, 1) && is_inline
}

/// Whether the child element has this kind, this place, and so many attributes and children.
fn is_child(child: &ChildElement, kind: &str, place: (u32, u32), counts: (usize, usize)) -> bool {
    child.kind.as_str() == kind
        && (child.line, child.column) == place
        && (child.attributes.len(), child.children.len()) == counts
}

/// Whether the child element and what it holds are those of the test's component.
fn is_label(label: &ChildElement) -> bool {
    let has_text = match label.attributes.get(0) {
        Some(attribute) => attribute.name.as_str() == "text" && attribute.value.as_str() == "a\nb",
        None => false,
    };
    let has_group = match label.children.get(0) {
        Some(group) => is_child(group, "Group", (7, 12), (0, 0)),
        None => false,
    };
    is_child(label, "Label", (6, 11), (1, 1)) && has_text && has_group
}

#[test]
fn scripts_and_children_have_their_texts_and_places(rt: HostRuntime) -> Result<(), Fail> {
    let text =
        b"<component name='x' extends='Scene'>\n<script>\n<![CDATA[\nprint 1\n]]></script>\n<children><Label text='a\nb' x:y=''> <Group/></label></children></component>";
    let file = file_of(rt.alloc(), text).ok_or("no component file")?;
    assert!(rt; is_component(&file, "x", "Scene", (1, 1)));
    assert!(rt; matches!(file.scripts.get(0), Some(script) if is_script(script)));
    assert!(rt; matches!(file.children.get(0), Some(label) if is_label(label)));
    Ok(())
}
