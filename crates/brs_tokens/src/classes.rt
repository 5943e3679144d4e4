//! Classes of bytes, and how far a run of them goes.
ghost use Rattle.std.specs.Prelude.{◌≡◌, ◌≤◌, length};
ghost use Rattle.std.specs.List.{prefix_len};
ghost use Rattle.brs_tokens.specs.Classes as spec;
ghost use Rattle.brs_tokens.specs.Lengths.{class_test};

/// A class of bytes.
#[derive(Clone, Copy)]
pub(crate) enum Class {
    Digit,
    HexDigit,
    NameByte,
    /// Any byte but a line feed.
    LineByte,
    /// Any byte but a quote.
    Unquoted,
}

/// A space, a tab or a carriage return.
pub(crate) fn is_blank(b: u8) -> bool
    ensures { result ≡ spec.is_blank b }
{
    b == b' ' || b == b'\t' || b == b'\r'
}

pub(crate) fn is_digit(b: u8) -> bool
    ensures { result ≡ spec.is_digit b }
{
    b >= b'0' && b <= b'9'
}

pub(crate) fn is_hex_digit(b: u8) -> bool
    ensures { result ≡ spec.is_hex_digit b }
{
    is_digit(b) || (b >= b'A' && b <= b'F') || (b >= b'a' && b <= b'f')
}

/// An ASCII letter or `_`.
pub(crate) fn begins_name(b: u8) -> bool
    ensures { result ≡ spec.begins_name b }
{
    (b >= b'A' && b <= b'Z') || (b >= b'a' && b <= b'z') || b == b'_'
}

fn is_name_byte(b: u8) -> bool
    ensures { result ≡ spec.is_name_byte b }
{
    begins_name(b) || is_digit(b)
}

fn is_in(class: Class, b: u8) -> bool
    ensures { result ≡ class_test class b }
{
    match class {
        Class::Digit => is_digit(b),
        Class::HexDigit => is_hex_digit(b),
        Class::NameByte => is_name_byte(b),
        Class::LineByte => b != b'\n',
        Class::Unquoted => b != b'"',
    }
}

/// How many bytes at the front are of the class.
pub(crate) fn run_len(bytes: &[u8], class: Class) -> usize
    ensures len { result ≡ prefix_len (class_test class) bytes.now }
    ensures within { result ≤ length bytes.now }
{
    bytes.iter().take_while(|b| is_in(class, **b)).count()
}
