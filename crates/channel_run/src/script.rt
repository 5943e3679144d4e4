//! A script as the events that its lines say.
ghost use Rattle.std.specs.Prelude.{◌≡◌, ℕ, true, ◌+◌, ◌^◌, ◌<◌, ◌≤◌, length, IfOk, IfSome, Some};
ghost use Rattle.std.specs.List.{before_first, after_first, position};
ghost use Rattle.chan_values.specs.declared.event.Event as event;
ghost use Rattle.channel_run.specs.Answer.{is_key, has_key, is_whole};
ghost use Rattle.channel_run.specs.Script.{is_line_feed, IsLineOf, IsScriptOf, unended_after};

use chan_values::{Event, NoMemory};
use script_text::read_line;
use sqlite_items::Items;
use std::alloc::Global;

/// What a script says: the events of its lines up to the first bad one, and whether there is a bad one.
#[derive(Drop)]
pub(crate) struct Script {
    pub events: Items<Event>,
    pub has_bad_line: bool,
}

fn is_key(event: &Event) -> bool
    ensures { result ≡ is_key event.now }
{
    match event {
        Event::Key(_, _) => true,
        _ => false,
    }
}

fn first_key(events: &[Event]) -> Option<usize>
    ensures { result ≡ position is_key events.now }
{
    events.iter().position(|event| is_key(event))
}

/// The events before the first key.
#[tactic(auto, using(crate::proofs::Lines::front_found, crate::proofs::Lines::front_missing))]
fn before_key(events: &[Event]) -> &[Event]
    ensures { result.now ≡ before_first is_key events.now }
{
    match first_key(events) {
        Some(at) => &events[..at],
        None => events,
    }
}

impl Script {
    /// The events before the first key.
    pub(crate) fn built_events(&self) -> &[Event]
        ensures { result.now ≡ before_first is_key self.now.events }
    {
        before_key(self.events.as_slice())
    }

    /// Whether a key stands among the events.
    pub(crate) fn has_key(&self) -> bool
        ensures { result ≡ has_key self.now }
    {
        self.events.as_slice().iter().any(is_key)
    }

    /// Whether all of the script may be run: it has no bad line and no key.
    pub(crate) fn is_whole(&self) -> bool
        ensures { result ≡ is_whole self.now }
    {
        !self.has_bad_line && !self.has_key()
    }
}

fn first_line_feed(script: &[u8]) -> Option<usize>
    ensures { result ≡ position is_line_feed script.now }
{
    script.iter().position(|b| *b == b'\n')
}

/// The most bytes that a script line may have.
pub(crate) const LONGEST_LINE: usize = 16_777_216;

/// What stands before the first LF, and what stands after it.
#[tactic(auto, using(crate::proofs::Lines::line_found, crate::proofs::Lines::lines_found, crate::proofs::Lines::line_last, crate::proofs::Lines::lines_last))]
fn split_line(script: &[u8]) -> (&[u8], &[u8])
    ensures line { result.0.now ≡ before_first is_line_feed script.now }
    ensures lines { result.1.now ≡ after_first is_line_feed script.now }
{
    match first_line_feed(script) {
        Some(at) => (&script[..at], &script[at + 1..]),
        None => (script, &script[script.len()..]),
    }
}

/// The event that a line says, `None` exactly where the line is bad.
fn event_of(line: &[u8]) -> Option<Event>
    ensures says { IfSome result (λ event. IsLineOf event line.now) }
    ensures found { (event : event.Event) → IsLineOf event line.now → result ≡ Some event }
{
    if line.len() > LONGEST_LINE {
        return None;
    }
    read_line(line)
}

/// The script that the bytes say.
#[tactic(auto, using(crate::proofs::Lines::lines_shorter))]
pub(crate) fn read_lines(alloc: Global, bytes: &[u8]) -> Result<Script, NoMemory>
    ensures script { IfOk result (λ script. IsScriptOf bytes.now script) }
    ensures counted { IfOk result (λ script. script.has_bad_line ≡ true → length script.events + 1 < 2 ^ 64) }
{
    let mut events = Items::new(alloc);
    let mut rest = bytes;
    while !rest.is_empty() {
        let (line, lines) = split_line(rest);
        match event_of(line) {
            None => {
                return Ok(Script {
                    events,
                    has_bad_line: true,
                });
            }
            Some(event) => {
                if events.push(event).is_err() {
                    return Err(NoMemory);
                }
            }
        }
        rest = lines;
    }
    Ok(Script {
        events,
        has_bad_line: false,
    })
}

/// How many bytes of a line stand at the end of a piece, after this many of it.
pub(crate) fn unended_after(before: usize, piece: &[u8]) -> usize
    requires { before + length piece.now < 2 ^ 64 }
    ensures { result ≡ unended_after before piece.now }
{
    let mut unended = before;
    for b in piece {
        unended = if *b == b'\n' { 0 } else { unended + 1 };
    }
    unended
}
