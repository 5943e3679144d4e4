//! A long chain of bases, of which each component names a function that only the first has.
use crate::checks::{are_few, check_all};
use crate::folders::{functions, text};
use component_files::read_component;
use folder_rules::{PathedComponent, SourceFunctions};
use std::alloc::Global;

fn push_component(
    alloc: Global,
    components: &mut Vec<PathedComponent>,
    name: &str,
    base: &str,
) -> Option<()> {
    let file = format!(in alloc;
        "<component name='{name}' extends='{base}'><script uri='{name}.brs'/><interface><function name='first'/></interface></component>"
    ).ok()?;
    let bytes = file.as_str().as_bytes();
    if bytes.len() >= 1000 {
        return None;
    }
    let file = read_component(alloc, bytes).ok()?;
    let path = text(alloc, "components/a.xml")?;
    components.push(PathedComponent { path, file }).ok()
}

fn push_source(
    alloc: Global,
    sources: &mut Vec<SourceFunctions>,
    name: &str,
    function: &str,
) -> Option<()> {
    let path = format!(in alloc; "components/{name}.brs").ok()?;
    let source = SourceFunctions {
        path: text(alloc, path.as_str())?,
        inline: false,
        functions: functions(alloc, &[function, name])?,
    };
    sources.push(source).ok()
}

/// Whether a chain of so many components is good.
fn is_good(alloc: Global, count: u32) -> Option<bool> {
    let mut components = Vec::new(alloc);
    let mut sources = Vec::new(alloc);
    push_component(alloc, &mut components, "c0", "Group")?;
    push_source(alloc, &mut sources, "c0", "first")?;
    for i in 1..count {
        let name = format!(in alloc; "c{i}").ok()?;
        let before = i.checked_sub(1)?;
        let base = format!(in alloc; "c{before}").ok()?;
        push_component(alloc, &mut components, name.as_str(), base.as_str())?;
        push_source(alloc, &mut sources, name.as_str(), "own")?;
    }
    if !are_few(sources.as_slice()) {
        return None;
    }
    Some(check_all(alloc, components.as_slice(), sources.as_slice()).is_ok())
}

#[test]
fn a_long_chain_of_bases_is_walked(rt: HostRuntime) {
    assert!(rt; is_good(rt.alloc(), 4000) == Some(true));
}
