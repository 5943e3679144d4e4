//! What a script line says.
ghost use Rattle.std.specs.Prelude.{◌≡◌, ◌==◌, ◌++◌, codes, IfSome, Some};
ghost use Rattle.std.specs.List.{position};
ghost use Rattle.script_text.specs.Keys.{IsKey, key_text};
ghost use Rattle.script_text.specs.Lines.{Says, press_word};
ghost use Rattle.chan_values.specs.declared.key.Key.{Key};
ghost use Rattle.chan_values.specs.declared.event.Event.{Event};

use crate::key_words::named_key;
use crate::literal::read_character;
use crate::number::read_number;
use chan_values::{Event, Key};

/// The key that a text spells.
fn read_key(text: &[u8]) -> Option<Key>
    ensures spelled { IfSome result (λ key. IsKey key × (text.now ≡ key_text key)) }
    ensures found { (key : Key) → IsKey key → text.now ≡ key_text key → result ≡ Some key }
{
    match text.strip_prefix(b"Lit_") {
        Some(character) => read_character(character).map(Key::Literal),
        None => named_key(text),
    }
}

/// The event of a line `key K press` or `key K release`, of which K is this text.
fn read_press(text: &[u8], pressed: bool) -> Option<Event>
    ensures says { IfSome result (λ event. Says (codes "key " ++ text.now ++ press_word pressed) event) }
    ensures found { (event : Event) → Says (codes "key " ++ text.now ++ press_word pressed) event → result ≡ Some event }
{
    match read_key(text) {
        Some(key) => Some(Event::Key(key, pressed)),
        None => None,
    }
}

/// The event of a line that begins with `key `, of which this is the rest.
fn read_key_line(rest: &[u8]) -> Option<Event>
    ensures says { IfSome result (λ event. Says (codes "key " ++ rest.now) event) }
    ensures found { (event : Event) → Says (codes "key " ++ rest.now) event → result ≡ Some event }
{
    if let Some(text) = rest.strip_suffix(b" press") {
        read_press(text, true)
    } else if let Some(text) = rest.strip_suffix(b" release") {
        read_press(text, false)
    } else {
        None
    }
}

fn first_space(text: &[u8]) -> Option<usize>
    ensures { result ≡ position (λ b. b == 32) text.now }
{
    text.iter().position(|b| *b == b' ')
}

/// The event of a line that begins with `turn `, of which this is the rest.
fn read_turn_line(rest: &[u8]) -> Option<Event>
    ensures says { IfSome result (λ event. Says (codes "turn " ++ rest.now) event) }
    ensures found { (event : Event) → Says (codes "turn " ++ rest.now) event → result ≡ Some event }
{
    let Some(at) = first_space(rest) else {
        return None;
    };
    match (read_number(&rest[..at]), read_number(&rest[at + 1..])) {
        (Some(actor), Some(steps)) => Some(Event::Turn(actor, steps)),
        _ => None,
    }
}

fn read_round_line(rest: &[u8]) -> Option<Event>
    ensures says { IfSome result (λ event. Says (codes "round " ++ rest.now) event) }
    ensures found { (event : Event) → Says (codes "round " ++ rest.now) event → result ≡ Some event }
{
    match read_number(rest) {
        Some(steps) => Some(Event::Round(steps)),
        None => None,
    }
}

fn read_expire_line(rest: &[u8]) -> Option<Event>
    ensures says { IfSome result (λ event. Says (codes "expire " ++ rest.now) event) }
    ensures found { (event : Event) → Says (codes "expire " ++ rest.now) event → result ≡ Some event }
{
    match read_number(rest) {
        Some(actor) => Some(Event::Expire(actor)),
        None => None,
    }
}

/// The event that a script line says, without the LF that ends it. `None` exactly where the line is no script line. A line holds
/// any bytes, also a CR at its end, with which it is none. Takes no memory.
pub fn read_line(line: &[u8]) -> Option<Event>
    ensures says { IfSome result (λ event. Says line.now event) }
    ensures found { (event : Event) → Says line.now event → result ≡ Some event }
{
    if let Some(rest) = line.strip_prefix(b"key ") {
        read_key_line(rest)
    } else if let Some(rest) = line.strip_prefix(b"turn ") {
        read_turn_line(rest)
    } else if let Some(rest) = line.strip_prefix(b"round ") {
        read_round_line(rest)
    } else if let Some(rest) = line.strip_prefix(b"expire ") {
        read_expire_line(rest)
    } else {
        None
    }
}
