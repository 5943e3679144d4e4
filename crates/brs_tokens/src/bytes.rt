//! A byte at a place.
ghost use Rattle.std.specs.Prelude.{◌≡◌, slice_index};

/// The byte at a place, or 0 past the end.
pub(crate) fn byte_at(bytes: &[u8], at: usize) -> u8
    ensures { result ≡ slice_index bytes.now at }
{
    bytes.get(at).copied().unwrap_or(0)
}
