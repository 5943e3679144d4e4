//! Child elements that are opened and closed.
ghost use Rattle.std.specs.Prelude.{◌≡◌, Some, None};
ghost use Rattle.component_files.specs.declared.state.State;
ghost use Rattle.component_files.specs.Steps as spec;
ghost use Rattle.xml_pieces.specs.Reads.{Answers};

use crate::attributes::{are_alike, are_unlike, is_text, without_colons};
use crate::element::{ChildElement, ComponentFile};
use crate::place::Place;
use crate::stack::{OpenChild, Stack};
use crate::state::State;
use chan_values::Text;
use sqlite_items::Items;
use std::alloc::Global;
use xml_pieces::{ReadError, Tag};

/// How many child elements may be open at a place.
const MAX_DEPTH: usize = 64;

/// The state behind a child element of the innermost element that is open.
fn with_child(
    mut file: ComponentFile,
    mut stack: Stack,
    child: ChildElement,
) -> Result<State, ReadError>
    ensures { Answers (Some (spec.with_child file stack child)) result }
{
    match stack.pop() {
        None => file.children.push(child)?,
        Some(mut around) => {
            around.children.push(child)?;
            stack.push(around)?;
        }
    }
    Ok(State::Children(file, stack))
}

/// The state in a child element.
pub(crate) fn open_child(
    alloc: Global,
    file: ComponentFile,
    mut stack: Stack,
    tag: Tag,
    place: Place,
) -> Result<State, ReadError>
    ensures { Answers (spec.opened (State.Children file stack) tag place) result }
{
    if stack.len() >= MAX_DEPTH || !are_unlike(alloc, tag.attributes.as_slice())? {
        return Err(ReadError::Fault);
    }
    let attributes = without_colons(alloc, tag.attributes.as_slice())?;
    stack.push(OpenChild {
        kind: tag.name,
        attributes,
        children: Items::new(alloc),
        line: place.line,
        column: place.column,
    })?;
    Ok(State::Children(file, stack))
}

/// The state behind the innermost element, whose tag is empty.
pub(crate) fn shut_child(file: ComponentFile, mut stack: Stack) -> Result<State, ReadError>
    ensures { Answers (spec.shut (State.Children file stack)) result }
{
    match stack.pop() {
        None => Ok(State::Component(file)),
        Some(inner) => with_child(file, stack, inner.close()),
    }
}

/// The state behind the innermost element, whose end tag has this name.
pub(crate) fn end_child(
    file: ComponentFile,
    mut stack: Stack,
    name: &Text,
) -> Result<State, ReadError>
    ensures { Answers (spec.ended (State.Children file stack) name.now) result }
{
    match stack.pop() {
        None => {
            if is_text(name, b"children") {
                Ok(State::Component(file))
            } else {
                Err(ReadError::Fault)
            }
        }
        Some(inner) => {
            if !are_alike(&inner.kind, name) {
                return Err(ReadError::Fault);
            }
            with_child(file, stack, inner.close())
        }
    }
}
