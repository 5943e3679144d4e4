//! The texts of keys.
ghost use Rattle.std.specs.Prelude.{◌≡◌, ◌+◌, ◌≤◌, ◌++◌, length, take, drop};
ghost use Rattle.focus_keys.specs.KeyText.{text_of};

use chan_values::Key;

/// Writes a text into the middle of a place that has room for it, and answers where it ends.
fn put(out: &mut [u8; 16], at: usize, text: &[u8]) -> usize
    requires { at + length text.now ≤ 16 }
    ensures end { result ≡ at + length text.now }
    ensures most { result ≤ 16 }
    ensures text { out.new ≡ take at out.old ++ (text.now ++ drop (at + length text.now) out.old) }
{
    let end = at + text.len();
    out[at..end].copy_from_slice(text);
    end
}

/// Writes what a handler of keys gets as the key's text into the front of `out`, leaves the bytes behind it, and answers its
/// length, at most 11. A typed character stands behind `Lit_` as it is. Takes no memory.
///
/// Source: SceneGraph, "Handling key events", onKeyEvent().
pub fn key_text(key: &Key, out: &mut [u8; 16]) -> usize
    ensures length { result ≡ length (text_of key.now) }
    ensures most { result ≤ 16 }
    ensures text { out.new ≡ text_of key.now ++ drop (length (text_of key.now)) out.old }
{
    match key {
        Key::Up => put(out, 0, b"up"),
        Key::Down => put(out, 0, b"down"),
        Key::Left => put(out, 0, b"left"),
        Key::Right => put(out, 0, b"right"),
        Key::Back => put(out, 0, b"back"),
        Key::Play => put(out, 0, b"play"),
        Key::Ok => put(out, 0, b"OK"),
        Key::Rewind => put(out, 0, b"rewind"),
        Key::FastForward => put(out, 0, b"fastforward"),
        Key::Replay => put(out, 0, b"replay"),
        Key::Options => put(out, 0, b"options"),
        Key::Literal(character) => literal_text(out, *character),
    }
}

fn literal_text(out: &mut [u8; 16], character: char) -> usize
    ensures length { result ≡ length (text_of (Key.Literal character)) }
    ensures most { result ≤ 16 }
    ensures text { out.new ≡ text_of (Key.Literal character) ++ drop (length (text_of (Key.Literal character))) out.old }
{
    let mut room = [0; 4];
    let text = character.encode_utf8(&mut room);
    let at = put(out, 0, b"Lit_");
    put(out, at, text.as_bytes())
}
