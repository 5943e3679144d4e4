//! The words of the keys.
ghost use Rattle.std.specs.Prelude.{◌≡◌, IfSome, Some, find};
ghost use Rattle.std.specs.Str.{bytes_eq};
ghost use Rattle.script_text.specs.Keys as spec;
ghost use Rattle.chan_values.specs.declared.key.Key.{Key};

use chan_values::Key;

/// The word of a key, which for a literal is what stands before its character.
///
/// Source: onKeyEvent, "Key values".
pub fn key_word(key: Key) -> &'static str
    ensures { result.now ≡ spec.key_word key }
{
    match key {
        Key::Up => "up",
        Key::Down => "down",
        Key::Left => "left",
        Key::Right => "right",
        Key::Back => "back",
        Key::Play => "play",
        Key::Ok => "OK",
        Key::Rewind => "rewind",
        Key::FastForward => "fastforward",
        Key::Replay => "replay",
        Key::Options => "options",
        Key::Literal(_) => "Lit_",
    }
}

const NAMED_KEYS: [Key; 11] = [
    Key::Up,
    Key::Down,
    Key::Left,
    Key::Right,
    Key::Back,
    Key::Play,
    Key::Ok,
    Key::Rewind,
    Key::FastForward,
    Key::Replay,
    Key::Options,
];

/// The key whose word this is.
pub fn named_key(word: &[u8]) -> Option<Key>
    ensures { result ≡ find (λ key. bytes_eq (spec.key_word key) word.now) NAMED_KEYS }
{
    NAMED_KEYS
        .iter()
        .copied()
        .find(|key| key_word(*key).as_bytes() == word)
}
