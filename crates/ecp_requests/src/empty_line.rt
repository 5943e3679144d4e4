//! Empty lines behind the first byte of a head.
ghost use Rattle.std.specs.Prelude.{◌≡◌, ◌↔◌, ◌&&◌, IsTrue};
ghost use Rattle.ecp_requests.specs.EmptyLines as spec;
ghost use Rattle.ecp_requests.specs.EmptyLines.{HasEmptyLine};

/// Whether the byte is neither CR nor LF.
fn is_text(byte: u8) -> bool
    ensures { result ≡ spec.is_text byte }
{
    byte != b'\n' && byte != b'\r'
}

/// Whether the bytes begin with an LF and directly after it LF or CR LF.
fn begins_empty_line(bytes: &[u8]) -> bool
    ensures { result ≡ spec.begins_empty_line bytes.now }
{
    matches!(bytes, [b'\n', b'\n', ..] | [b'\n', b'\r', b'\n', ..])
}

/// Whether a head has begun and its line ends here before an empty one.
fn begun_and_empty(begun: bool, rest: &[u8]) -> bool
    ensures { result ≡ (begun && spec.begins_empty_line rest.now) }
{
    begun && begins_empty_line(rest)
}

/// Whether an empty line stands behind a byte that is neither CR nor LF.
pub(crate) fn has_empty_line(bytes: &[u8]) -> bool
    ensures { IsTrue result ↔ HasEmptyLine bytes.now }
{
    let mut begun = false;
    for at in 0..bytes.len() {
        if begun_and_empty(begun, &bytes[at..]) {
            return true;
        }
        begun |= is_text(bytes[at]);
    }
    false
}
