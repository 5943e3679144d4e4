//! Reading a component file.
ghost use Rattle.std.specs.Prelude.{◌≡◌, ◌+◌, ◌-◌, ◌^◌, ◌<◌, ◌≤◌, ℕ, Err, length, take, IfOk, OnOk};
ghost use Rattle.xml_pieces.specs.Reads.{Reads};
ghost use Rattle.component_files.specs.declared.element.ComponentFile.{ComponentFile};
ghost use Rattle.component_files.specs.declared.state.Progress;
ghost use Rattle.component_files.specs.ComponentGrammar.{IsComponent, IsFirstFault, start_of_file, text_of_file};
ghost use Rattle.component_files.specs.Places.{place_after};
ghost use Rattle.component_files.specs.Scan as spec;

use crate::element::ComponentFile;
use crate::place::{Place, place_after};
use crate::state::{Progress, State, discard};
use std::alloc::Global;
use xml_pieces::{Cursor, ReadError, strip};

/// Where bytes are no component file.
#[derive(Clone, Copy, Debug, PartialEq, Eq)]
pub struct ComponentSyntax {
    /// The line of the fault, counted from 1.
    pub line: u32,
}

/// Why bytes give no component file.
#[derive(Clone, Copy, Debug, PartialEq, Eq)]
pub enum ComponentAnswer {
    Fault(ComponentSyntax),
    NoMemory,
}

fn fault(line: u32) -> ComponentAnswer
    ensures { result ≡ ComponentAnswer.Fault (record { line = line }) }
{
    ComponentAnswer::Fault(ComponentSyntax { line })
}

/// The place behind the bytes before the last ones.
fn place_before(place: Place, bytes: &[u8], left: usize) -> Place
    requires line { place.line + length bytes.now < 2 ^ 32 }
    requires column { place.column + length bytes.now < 2 ^ 32 }
    requires left { left ≤ length bytes.now }
    ensures place { result ≡ place_after place (take (length bytes.now - left) bytes.now) }
    ensures line { result.line + left ≤ place.line + length bytes.now }
    ensures column { result.column + left ≤ place.column + length bytes.now }
{
    place_after(place, bytes.split_at(bytes.len() - left).0)
}

/// The answer at the end of the text.
fn finish(progress: Progress, line: u32) -> Result<ComponentFile, ComponentAnswer>
    ensures { spec.Finds (spec.finish progress line) result }
{
    match progress {
        Progress::Inside(State::After(file)) => Ok(file),
        other => {
            discard(other);
            Err(fault(line))
        }
    }
}

/// Where the next piece leads.
#[tactic(auto, unfolding(crate::specs::Scan::turn))]
fn turn(
    alloc: Global,
    progress: Progress,
    rest: &mut Cursor<'_>,
    place: Place,
) -> Result<Progress, ReadError>
    ensures reads { Reads (spec.turn progress place rest.old) result rest.new }
    ensures shorter { OnOk result (length rest.new < length rest.old) }
{
    let piece = rest.piece(alloc)?;
    progress.advance(alloc, piece, place)
}

/// Where the pieces of a text lead that begins at a place.
#[tactic(auto, unfolding(crate::specs::Scan::scan))]
fn scan(alloc: Global, start: Place, text: &[u8]) -> Result<ComponentFile, ComponentAnswer>
    requires size { length text.now < 2 ^ 31 }
    requires line { start.line ≤ 1 }
    requires column { start.column ≤ 4 }
    ensures { spec.Finds (spec.scan (length text.now) Progress.Start start text.now) result }
{
    let mut progress = Progress::Start;
    let mut rest = Cursor::new(text);
    let mut place = start;
    for _turn in 0..text.len() {
        if rest.is_empty() {
            return finish(progress, place.line);
        }
        let before = rest.rest();
        match turn(alloc, progress, &mut rest, place) {
            Ok(next) => progress = next,
            Err(ReadError::Fault) => return Err(fault(place.line)),
            Err(ReadError::NoMemory) => return Err(ComponentAnswer::NoMemory),
        }
        place = place_before(place, before, rest.left());
    }
    if rest.is_empty() {
        finish(progress, place.line)
    } else {
        Err(fault(place.line))
    }
}

/// The text behind a byte order mark, if one stands at the start, and the place at which it begins.
fn text_of(bytes: &[u8]) -> (Place, &[u8])
    ensures place { result.0 ≡ start_of_file bytes.now }
    ensures text { result.1.now ≡ text_of_file bytes.now }
    ensures shorter { length result.1.now ≤ length bytes.now }
    ensures line { result.0.line ≤ 1 }
    ensures column { result.0.column ≤ 4 }
{
    match strip(b"\xef\xbb\xbf", bytes) {
        Some(text) => (Place { line: 1, column: 4 }, text),
        None => (Place { line: 1, column: 1 }, bytes),
    }
}

/// The component file that stands to the bytes, or the line of their first fault.
///
/// Takes time that grows with the number of bytes.
///
/// Source: SceneGraph XML Guide, "Component Definition".
pub fn read_component(alloc: Global, bytes: &[u8]) -> Result<ComponentFile, ComponentAnswer>
    requires { length bytes.now < 2 ^ 31 }
    // What is answered is right.
    ensures file { IfOk result (λ f. IsComponent bytes.now f) }
    ensures fault { (n : ℕ) → result ≡ Err (ComponentAnswer.Fault (record { line = n })) → IsFirstFault bytes.now n }
    // What is right is answered, unless memory runs out.
    ensures all { (f : ComponentFile) → IsComponent bytes.now f → spec.IsRead f result }
    ensures first { (n : ℕ) → IsFirstFault bytes.now n → spec.IsFault n result }
{
    let (start, text) = text_of(bytes);
    scan(alloc, start, text)
}
