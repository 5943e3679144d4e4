//! Small channels, and what is found in them.
use chan_values::{FolderFault, Text};
use component_files::read_component;
use folder_rules::{PathedComponent, TablesAnswer};
use std::alloc::Global;

/// A fault: its number, the path, the line and the last item.
pub(crate) type Found = (u8, &'static str, u32, &'static str);

/// Adds the component of a short text.
pub(crate) fn add(
    alloc: Global,
    components: &mut Vec<PathedComponent>,
    path: &str,
    text: &str,
) -> Option<()> {
    let bytes = text.as_bytes();
    if bytes.len() >= 1000 {
        return None;
    }
    let file = read_component(alloc, bytes).ok()?;
    let mut name = Text::new(alloc);
    name.push_str(path).ok()?;
    components.push(PathedComponent { path: name, file }).ok()
}

/// Adds a component with a base and child elements.
pub(crate) fn add_kind(
    alloc: Global,
    components: &mut Vec<PathedComponent>,
    name: &str,
    base: &str,
    children: &str,
) -> Option<()> {
    let mut text = String::new(alloc);
    for part in [
        "<component name='",
        name,
        "' extends='",
        base,
        "'><children>",
        children,
        "</children></component>",
    ] {
        text.push_str(part).ok()?;
    }
    add(alloc, components, name, text.as_str())
}

/// The components of two files.
pub(crate) fn channel(alloc: Global, a: &str, b: &str) -> Option<Vec<PathedComponent>> {
    let mut components = Vec::new(alloc);
    add(alloc, &mut components, "a.xml", a)?;
    add(alloc, &mut components, "b.xml", b)?;
    Some(components)
}

/// Adds components of which each extends the one before and has a field of its own. The first extends this kind.
pub(crate) fn add_chain(
    alloc: Global,
    components: &mut Vec<PathedComponent>,
    count: u32,
    first: &str,
) -> Option<()> {
    let mut base = String::from_str(alloc, first).ok()?;
    for k in 0..count {
        let name = format!(in alloc; "C{k}").ok()?;
        let text = format!(in alloc;
            "<component name='{name}' extends='{base}'><interface><field id='f{k}' type='int' value='1'/></interface></component>"
        ).ok()?;
        add(alloc, components, name.as_str(), text.as_str())?;
        base = name;
    }
    Some(())
}

fn is_fault(fault: &FolderFault, found: Found) -> bool {
    fault.number == found.0
        && fault.path.as_str() == found.1
        && fault.line == found.2
        && fault.column == 0
        && fault.name.as_str() == found.3
}

/// Whether an answer is this, which is nothing where there is no fault.
pub(crate) fn is_answer(answer: &Result<(), TablesAnswer>, found: Option<Found>) -> bool {
    match (answer, found) {
        (Ok(()), None) => true,
        (Err(TablesAnswer::Fault(fault)), Some(found)) => is_fault(fault, found),
        _ => false,
    }
}
