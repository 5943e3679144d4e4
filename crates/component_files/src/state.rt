//! Where in a component file the pieces so far have led.
ghost use Rattle.std.specs.Prelude.{◌≡◌, Some, None};
ghost use Rattle.component_files.specs.declared.state.State;
ghost use Rattle.component_files.specs.Elements as element;
ghost use Rattle.component_files.specs.Steps as spec;
ghost use Rattle.xml_pieces.specs.Reads.{Answers};

use crate::attributes::{is_text, same};
use crate::children::{end_child, open_child, shut_child};
use crate::element::{ComponentFile, InlineScript, ScriptElement};
use crate::elements::{field, function, header, script};
use crate::place::Place;
use crate::stack::Stack;
use chan_values::Text;
use std::alloc::Global;
use xml_pieces::{Piece, ReadError, Tag};

/// What a member of an interface is.
#[derive(Clone, Copy, Debug, PartialEq, Eq)]
pub(crate) enum MemberKind {
    Field,
    Function,
}

/// The element that is open, with the file so far.
#[derive(Drop)]
pub(crate) enum State {
    Before,
    Component(ComponentFile),
    Interface(ComponentFile),
    Member(ComponentFile, MemberKind),
    Script(ComponentFile, ScriptElement),
    Children(ComponentFile, Stack),
    After(ComponentFile),
}

/// Whether a piece has been read, and where the pieces have led.
#[derive(Drop)]
pub(crate) enum Progress {
    Start,
    Inside(State),
}

/// Drops a value of any type, so that no caller holds the steps of that drop.
pub(crate) fn discard<T: Drop>(_value: T) {}

/// Whether a member's end tag has this name.
fn ends_member(kind: MemberKind, name: &Text) -> bool
    ensures { result ≡ element.same (spec.member_name kind) name.now }
{
    match kind {
        MemberKind::Field => same(b"field", name.as_str().as_bytes()),
        MemberKind::Function => same(b"function", name.as_str().as_bytes()),
    }
}

impl State {
    /// The state in an element that is opened.
    fn open(self, alloc: Global, tag: Tag, place: Place) -> Result<State, ReadError>
        ensures { Answers (spec.opened self tag place) result }
    {
        match self {
            State::Before => open_component(alloc, &tag, place),
            State::Component(file) => open_part(alloc, file, &tag, place),
            State::Interface(file) => open_member(alloc, file, &tag, place),
            State::Children(file, stack) => open_child(alloc, file, stack, tag, place),
            other => {
                discard(other);
                Err(ReadError::Fault)
            }
        }
    }

    /// The state behind the element that is open, whose tag is empty.
    fn shut(self) -> Result<State, ReadError>
        ensures { Answers (spec.shut self) result }
    {
        match self {
            State::Component(file) => Ok(State::After(file)),
            State::Interface(file) => Ok(State::Component(file)),
            State::Member(file, _) => Ok(State::Interface(file)),
            State::Script(file, script) => shut_script(file, script),
            State::Children(file, stack) => shut_child(file, stack),
            other => {
                discard(other);
                Err(ReadError::Fault)
            }
        }
    }

    /// The state behind the element that is open, whose end tag has this name.
    fn end(self, name: &Text) -> Result<State, ReadError>
        ensures { Answers (spec.ended self name.now) result }
    {
        match self {
            State::Component(file) => end_component(file, name),
            State::Interface(file) => end_interface(file, name),
            State::Member(file, kind) => end_member(file, kind, name),
            State::Script(file, script) => end_script(file, script, name),
            State::Children(file, stack) => end_child(file, stack, name),
            other => {
                discard(other);
                Err(ReadError::Fault)
            }
        }
    }

    /// The state behind a CDATA section that begins on this line.
    fn data(self, text: Text, line: u32) -> Result<State, ReadError>
        ensures { Answers (spec.with_data self text line) result }
    {
        match self {
            State::Script(file, script) => add_data(file, script, text, line),
            other => {
                discard(other);
                Err(ReadError::Fault)
            }
        }
    }

    /// The state behind a piece that begins at this place.
    #[tactic(auto, unfolding(crate::specs::Steps::step))]
    fn step(self, alloc: Global, piece: Piece, place: Place) -> Result<State, ReadError>
        ensures { Answers (spec.step self piece place) result }
    {
        match piece {
            Piece::Comment | Piece::Blank => Ok(self),
            Piece::Declaration | Piece::Stray => {
                discard(self);
                Err(ReadError::Fault)
            }
            Piece::Data(text) => self.data(text, place.line),
            Piece::Start(tag) => self.open(alloc, tag, place),
            Piece::Empty(tag) => self.open(alloc, tag, place)?.shut(),
            Piece::End(name) => self.end(&name),
        }
    }
}

impl Progress {
    /// Where a piece leads that begins at this place.
    #[tactic(auto, unfolding(crate::specs::Steps::advance))]
    pub(crate) fn advance(
        self,
        alloc: Global,
        piece: Piece,
        place: Place,
    ) -> Result<Progress, ReadError>
        ensures { Answers (spec.advance self piece place) result }
    {
        let state = match self {
            Progress::Start => first_step(alloc, piece, place)?,
            Progress::Inside(state) => state.step(alloc, piece, place)?,
        };
        Ok(Progress::Inside(state))
    }
}

/// Whether a piece begins with `<?xml`.
fn is_declaration(piece: &Piece) -> bool
    ensures { result ≡ spec.is_declaration piece.now }
{
    match piece {
        Piece::Declaration => true,
        Piece::Comment
        | Piece::Blank
        | Piece::Stray
        | Piece::Data(_)
        | Piece::Start(_)
        | Piece::Empty(_)
        | Piece::End(_) => false,
    }
}

/// Where the first piece of all leads.
#[tactic(auto, unfolding(crate::specs::Steps::first_step))]
fn first_step(alloc: Global, piece: Piece, place: Place) -> Result<State, ReadError>
    ensures { Answers (spec.first_step piece place) result }
{
    if is_declaration(&piece) {
        Ok(State::Before)
    } else {
        State::Before.step(alloc, piece, place)
    }
}

fn open_component(alloc: Global, tag: &Tag, place: Place) -> Result<State, ReadError>
    ensures { Answers (spec.opened State.Before tag.now place) result }
{
    if !is_text(&tag.name, b"component") {
        return Err(ReadError::Fault);
    }
    let file = header(alloc, tag, place)?;
    Ok(State::Component(file))
}

#[tactic(auto, unfolding(crate::specs::Steps::opened_part))]
fn open_part(
    alloc: Global,
    file: ComponentFile,
    tag: &Tag,
    place: Place,
) -> Result<State, ReadError>
    ensures { Answers (spec.opened_part file tag.now place) result }
{
    if is_text(&tag.name, b"interface") {
        Ok(State::Interface(file))
    } else if is_text(&tag.name, b"script") {
        let element = script(alloc, tag, place)?;
        Ok(State::Script(file, element))
    } else if is_text(&tag.name, b"children") {
        Ok(State::Children(file, Stack::new(alloc)))
    } else {
        Err(ReadError::Fault)
    }
}

#[tactic(auto, unfolding(crate::specs::Steps::opened_member))]
fn open_member(
    alloc: Global,
    mut file: ComponentFile,
    tag: &Tag,
    place: Place,
) -> Result<State, ReadError>
    ensures { Answers (spec.opened_member file tag.now place) result }
{
    if is_text(&tag.name, b"field") {
        let element = field(alloc, tag, place)?;
        file.fields.push(element)?;
        Ok(State::Member(file, MemberKind::Field))
    } else if is_text(&tag.name, b"function") {
        let element = function(alloc, tag, place)?;
        file.functions.push(element)?;
        Ok(State::Member(file, MemberKind::Function))
    } else {
        Err(ReadError::Fault)
    }
}

/// A script needs a uri or a CDATA section.
fn shut_script(mut file: ComponentFile, script: ScriptElement) -> Result<State, ReadError>
    ensures { Answers (spec.shut (State.Script file script)) result }
{
    if script.uri.is_none() && script.inline.is_none() {
        return Err(ReadError::Fault);
    }
    file.scripts.push(script)?;
    Ok(State::Component(file))
}

fn end_component(file: ComponentFile, name: &Text) -> Result<State, ReadError>
    ensures { Answers (spec.ended (State.Component file) name.now) result }
{
    if same(b"component", name.as_str().as_bytes()) {
        Ok(State::After(file))
    } else {
        Err(ReadError::Fault)
    }
}

fn end_interface(file: ComponentFile, name: &Text) -> Result<State, ReadError>
    ensures { Answers (spec.ended (State.Interface file) name.now) result }
{
    if same(b"interface", name.as_str().as_bytes()) {
        Ok(State::Component(file))
    } else {
        Err(ReadError::Fault)
    }
}

fn end_member(file: ComponentFile, kind: MemberKind, name: &Text) -> Result<State, ReadError>
    ensures { Answers (spec.ended (State.Member file kind) name.now) result }
{
    if ends_member(kind, name) {
        Ok(State::Interface(file))
    } else {
        Err(ReadError::Fault)
    }
}

fn end_script(file: ComponentFile, script: ScriptElement, name: &Text) -> Result<State, ReadError>
    ensures { Answers (spec.ended (State.Script file script) name.now) result }
{
    if same(b"script", name.as_str().as_bytes()) {
        shut_script(file, script)
    } else {
        Err(ReadError::Fault)
    }
}

/// A script has at most one CDATA section, and its text begins on the section's line.
fn add_data(
    file: ComponentFile,
    mut script: ScriptElement,
    text: Text,
    line: u32,
) -> Result<State, ReadError>
    ensures { Answers (spec.with_data (State.Script file script) text line) result }
{
    if script.inline.is_some() {
        return Err(ReadError::Fault);
    }
    script.inline = Some(InlineScript {
        text,
        first_line: line,
    });
    Ok(State::Script(file, script))
}
