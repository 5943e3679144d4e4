//! The names of keys in a request.
ghost use Rattle.std.specs.Prelude.{◌≡◌, ◌≤◌, ◌≢◌, ℕ, find, IfSome, Some, encode_utf8};
ghost use Rattle.std.specs.Char.{IsScalar};
ghost use Rattle.std.specs.Str.{bytes_eq};
ghost use Rattle.percent_encoding.specs.Percent as percent;
ghost use Rattle.ecp_requests.specs.KeyNames as spec;
ghost use Rattle.ecp_requests.specs.KeyNames.{lowered, IsTyped, IsNameOf};
ghost use Rattle.ecp_requests.specs.declared.key_name.KeyName.{KeyName};

use chan_values::Key;
use script_text::decoded_character;

/// What a key name of a request names: a key, or one of four names that give no key to the channel.
///
/// Source: External Control Protocol (ECP), "Keypress key values".
#[derive(Clone, Copy, Debug, PartialEq, Eq)]
pub enum KeyName {
    Key(Key),
    Home,
    Backspace,
    Search,
    Enter,
}

/// A name in small letters, which for a literal is what stands before its character.
fn small_name(name: KeyName) -> &'static str
    ensures { result.now ≡ spec.small_name name }
{
    match name {
        KeyName::Key(Key::Up) => "up",
        KeyName::Key(Key::Down) => "down",
        KeyName::Key(Key::Left) => "left",
        KeyName::Key(Key::Right) => "right",
        KeyName::Key(Key::Back) => "back",
        KeyName::Key(Key::Play) => "play",
        KeyName::Key(Key::Ok) => "select",
        KeyName::Key(Key::Rewind) => "rev",
        KeyName::Key(Key::FastForward) => "fwd",
        KeyName::Key(Key::Replay) => "instantreplay",
        KeyName::Key(Key::Options) => "info",
        KeyName::Key(Key::Literal(_)) => "lit_",
        KeyName::Home => "home",
        KeyName::Backspace => "backspace",
        KeyName::Search => "search",
        KeyName::Enter => "enter",
    }
}

const WORDS: [KeyName; 15] = [
    KeyName::Key(Key::Up),
    KeyName::Key(Key::Down),
    KeyName::Key(Key::Left),
    KeyName::Key(Key::Right),
    KeyName::Key(Key::Back),
    KeyName::Key(Key::Play),
    KeyName::Key(Key::Ok),
    KeyName::Key(Key::Rewind),
    KeyName::Key(Key::FastForward),
    KeyName::Key(Key::Replay),
    KeyName::Key(Key::Options),
    KeyName::Home,
    KeyName::Backspace,
    KeyName::Search,
    KeyName::Enter,
];

/// Whether a text is this one of small letters, whatever the case of its own.
#[tactic(auto, using(crate::proofs::NamesLemmas::same_letters))]
fn is_in_small(text: &[u8], small: &str) -> bool
    ensures { result ≡ bytes_eq (lowered small.now) (lowered text.now) }
{
    small.as_bytes().eq_ignore_ascii_case(text)
}

fn word(text: &[u8]) -> Option<KeyName>
    ensures { result ≡ find (λ name. bytes_eq (lowered (spec.small_name name)) (lowered text.now)) WORDS }
{
    WORDS
        .iter()
        .copied()
        .find(|name| is_in_small(text, small_name(*name)))
}

/// The character that may be typed, from U+0020 on and other than U+007F, to which a text decodes.
fn typed_character(text: &[u8]) -> Option<char>
    ensures typed { IfSome result (λ c. IsTyped c × (percent.percent_decode text.now ≡ encode_utf8 c)) }
    ensures found { (c : ℕ) → IsTyped c → percent.percent_decode text.now ≡ encode_utf8 c → result ≡ Some c }
{
    match decoded_character(text) {
        Some(c) if c >= ' ' && c != '\u{7F}' => Some(c),
        _ => None,
    }
}

/// What a key name names.
pub(crate) fn read_name(text: &[u8]) -> Option<KeyName>
    ensures named { IfSome result (λ name. IsNameOf text.now name) }
    ensures found { (name : KeyName) → IsNameOf text.now name → result ≡ Some name }
{
    if text.len() >= 4 && is_in_small(&text[..4], "lit_") {
        match typed_character(&text[4..]) {
            Some(c) => Some(KeyName::Key(Key::Literal(c))),
            None => None,
        }
    } else {
        word(text)
    }
}
