//! How a script line is written.
ghost use Rattle.std.specs.Prelude.{◌≡◌, [], ◌∷◌, ◌++◌, codes, encode_utf8, IfOk, OnOk, OnErr};
ghost use Rattle.std.specs.String.{string_bytes};
ghost use Rattle.script_text.specs.Keys.{key_text};
ghost use Rattle.script_text.specs.Lines.{line_of};
ghost use Rattle.script_text.specs.Literals.{escaped};

use crate::key_words::key_word;
use chan_values::{Event, Key, NoMemory};
use percent_encoding::{NON_ALPHANUMERIC, utf8_percent_encode};
use std::alloc::{AllocError, Global};

/// `Lit_` and a character, each letter and digit as it is and each other byte of its UTF-8 escaped.
#[tactic(auto, using(crate::proofs::LiteralsLemmas::percent_encode_escapes))]
fn literal_text(alloc: Global, character: char) -> Result<String, AllocError>
    ensures { IfOk result (λ text. string_bytes text ≡ codes "Lit_" ++ escaped (encode_utf8 character)) }
{
    let mut text = String::from_str(alloc, "Lit_")?;
    utf8_percent_encode(character.encode_utf8(&mut [0; 4]), NON_ALPHANUMERIC).append_to(&mut text)?;
    Ok(text)
}

/// A key as a script line spells it.
#[tactic(auto, using(crate::proofs::LinesLemmas::word_alone))]
fn key_text(alloc: Global, key: Key) -> Result<String, AllocError>
    ensures { IfOk result (λ text. string_bytes text ≡ key_text key) }
{
    match key {
        Key::Literal(character) => literal_text(alloc, character),
        named => String::from_str(alloc, key_word(named)),
    }
}

/// The line of an event, without the LF that ends it.
#[tactic(auto, using(std::proofs::lemmas::Grind::common_steps))]
fn line_text(alloc: Global, event: &Event) -> Result<String, AllocError>
    ensures { IfOk result (λ text. string_bytes text ≡ line_of event.now) }
{
    match event {
        Event::Key(key, pressed) => {
            let key = key_text(alloc, *key)?;
            if *pressed {
                format!(in alloc; "key {key} press")
            } else {
                format!(in alloc; "key {key} release")
            }
        }
        Event::Turn(actor, steps) => format!(in alloc; "turn {actor} {steps}"),
        Event::Round(steps) => format!(in alloc; "round {steps}"),
        Event::Expire(actor) => format!(in alloc; "expire {actor}"),
    }
}

fn ended_line(alloc: Global, event: &Event) -> Result<String, AllocError>
    ensures { IfOk result (λ text. string_bytes text ≡ line_of event.now ++ 10 ∷ []) }
{
    let mut line = line_text(alloc, event)?;
    line.push_str("\n")?;
    Ok(line)
}

/// Adds the line of an event and the LF that ends it. After an `Err` nothing has changed.
pub fn write_line(alloc: Global, event: &Event, out: &mut Vec<u8>) -> Result<(), NoMemory>
    ensures ok { OnOk result (out.new.items ≡ out.old.items ++ line_of event.now ++ 10 ∷ []) }
    ensures err { OnErr result (out.new.items ≡ out.old.items) }
{
    let Ok(line) = ended_line(alloc, event) else {
        return Err(NoMemory);
    };
    match out.extend_from_slice(line.as_bytes()) {
        Ok(()) => Ok(()),
        Err(_) => Err(NoMemory),
    }
}
