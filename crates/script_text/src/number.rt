//! Numbers as script lines spell them.
ghost use Rattle.std.specs.Prelude.{◌≡◌, ℕ, ◌^◌, ◌<◌, IfSome, Some};
ghost use Rattle.std.specs.Fmt.{decimal};
ghost use Rattle.script_text.specs.Numbers as spec;

/// Whether the text begins with no sign and has no leading zero, but for `0` itself.
fn is_plain(text: &[u8]) -> bool
    ensures { result ≡ spec.is_plain text.now }
{
    match text {
        [b'+', ..] => false,
        [b'0', more @ ..] => more.is_empty(),
        _ => true,
    }
}

/// The number that a text spells: decimal digits without a leading zero, but for `0` itself, up to 4,294,967,295.
pub(crate) fn read_number(text: &[u8]) -> Option<u32>
    ensures spelled { IfSome result (λ number. (number < 2 ^ 32) × (text.now ≡ decimal number)) }
    ensures found { (number : ℕ) → number < 2 ^ 32 → text.now ≡ decimal number → result ≡ Some number }
{
    if !is_plain(text) {
        return None;
    }
    match str::from_utf8(text) {
        Ok(text) => text.parse::<u32>().ok(),
        Err(_) => None,
    }
}
