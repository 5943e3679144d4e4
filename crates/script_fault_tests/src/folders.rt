//! Small folders of component files and source texts.
use chan_values::Text;
use component_files::read_component;
use folder_rules::{DeclaredFunction, PathedComponent, SourceFunctions, TablesAnswer};
use sqlite_items::Items;
use std::alloc::Global;

/// A source file, or an inline script: its path, whether it is inline, and the names of its functions, each on a line of its own from line 1 on.
pub type SourceRow = (&'static str, bool, &'static [&'static str]);

/// A component file: its path and its text.
pub type ComponentRow<'a> = (&'a str, &'a str);

pub fn text(alloc: Global, t: &str) -> Option<Text> {
    let mut text = Text::new(alloc);
    text.push_str(t).ok()?;
    Some(text)
}

/// Adds the component of a short text.
fn add_component(
    alloc: Global,
    components: &mut Vec<PathedComponent>,
    row: &ComponentRow<'_>,
) -> Option<()> {
    let bytes = row.1.as_bytes();
    if bytes.len() >= 1000 {
        return None;
    }
    let file = read_component(alloc, bytes).ok()?;
    let path = text(alloc, row.0)?;
    components.push(PathedComponent { path, file }).ok()
}

/// The components of a folder.
pub fn components(alloc: Global, rows: &[ComponentRow<'_>]) -> Option<Vec<PathedComponent>> {
    let mut components = Vec::new(alloc);
    for row in rows {
        add_component(alloc, &mut components, row)?;
    }
    Some(components)
}

pub fn functions(alloc: Global, names: &[&str]) -> Option<Items<DeclaredFunction>> {
    let mut functions = Items::new(alloc);
    let mut line: u32 = 0;
    for name in names {
        line = line.checked_add(1)?;
        let function = DeclaredFunction {
            name: text(alloc, name)?,
            line,
            column: 5,
        };
        functions.push(function).ok()?;
    }
    Some(functions)
}

/// The source texts of a folder.
pub fn sources(alloc: Global, rows: &[SourceRow]) -> Option<Vec<SourceFunctions>> {
    let mut sources = Vec::new(alloc);
    for (path, inline, names) in rows {
        let source = SourceFunctions {
            path: text(alloc, path)?,
            inline: *inline,
            functions: functions(alloc, names)?,
        };
        sources.push(source).ok()?;
    }
    Some(sources)
}

/// The number, the path, the line and column, 0 where it has none, and the name of a fault.
#[derive(Clone, Copy)]
pub struct Refusal<'a>(pub u8, pub &'a str, pub u32, pub u32, pub &'a str);

/// Whether an answer is this refusal, or `Ok` where there is none.
pub fn is_refusal(answer: Result<(), TablesAnswer>, refusal: Option<Refusal<'_>>) -> bool {
    match (answer, refusal) {
        (Ok(()), None) => true,
        (Err(TablesAnswer::Fault(fault)), Some(Refusal(number, path, line, column, name))) => {
            fault.number == number
                && fault.path.as_str() == path
                && fault.line == line
                && fault.column == column
                && fault.name.as_str() == name
        }
        _ => false,
    }
}
