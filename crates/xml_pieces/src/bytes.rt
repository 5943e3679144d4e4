//! Classes of bytes, runs of them, and marks at the front.
ghost use Rattle.std.specs.Prelude.{◌≡◌, ◌≤◌, length};
ghost use Rattle.std.specs.List.{prefix_len, list_all};
ghost use Rattle.xml_pieces.specs.Reading as reading;
ghost use Rattle.xml_pieces.specs.Written as spec;
ghost use Rattle.xml_pieces.specs.Runs.{class_test, option_now, pair_now};

/// A class of bytes.
#[derive(Clone, Copy)]
pub(crate) enum Class {
    Space,
    /// The bytes of a tag's name.
    TagName,
    /// The bytes of an attribute's name.
    AttributeName,
    Decimal,
    Hexadecimal,
    /// Any byte but this one.
    But(u8),
}

/// Space, tab, carriage return or line feed.
#[tactic(auto, unfolding(crate::specs::Written::is_space))]
pub(crate) fn is_space(b: u8) -> bool
    ensures { result ≡ spec.is_space b }
{
    b == b' ' || b == b'\t' || b == b'\r' || b == b'\n'
}

#[tactic(auto, unfolding(crate::specs::Written::is_name_byte))]
fn is_name_byte(b: u8) -> bool
    ensures { result ≡ spec.is_name_byte b }
{
    (b >= b'a' && b <= b'z')
        || (b >= b'A' && b <= b'Z')
        || (b >= b'0' && b <= b'9')
        || b == b'_'
        || b == b'-'
        || b == b'.'
}

#[tactic(auto, unfolding(crate::specs::Written::is_attribute_byte))]
pub(crate) fn is_attribute_byte(b: u8) -> bool
    ensures { result ≡ spec.is_attribute_byte b }
{
    is_name_byte(b) || b == b':'
}

#[tactic(auto, unfolding(crate::specs::Written::is_quote))]
pub(crate) fn is_quote(b: u8) -> bool
    ensures { result ≡ spec.is_quote b }
{
    b == b'"' || b == b'\''
}

#[tactic(auto, unfolding(crate::specs::Written::is_decimal))]
fn is_decimal(b: u8) -> bool
    ensures { result ≡ spec.is_decimal b }
{
    b >= b'0' && b <= b'9'
}

#[tactic(auto, unfolding(crate::specs::Written::is_hexadecimal))]
fn is_hexadecimal(b: u8) -> bool
    ensures { result ≡ spec.is_hexadecimal b }
{
    (b >= b'0' && b <= b'9') || (b >= b'A' && b <= b'F') || (b >= b'a' && b <= b'f')
}

#[tactic(auto, unfolding(crate::specs::Written::differs))]
fn is_in(class: Class, b: u8) -> bool
    ensures { result ≡ class_test class b }
{
    match class {
        Class::Space => is_space(b),
        Class::TagName => is_name_byte(b),
        Class::AttributeName => is_attribute_byte(b),
        Class::Decimal => is_decimal(b),
        Class::Hexadecimal => is_hexadecimal(b),
        Class::But(c) => b != c,
    }
}

/// How many bytes at the front are of the class.
pub(crate) fn run_len(bytes: &[u8], class: Class) -> usize
    ensures len { result ≡ prefix_len (class_test class) bytes.now }
    ensures within { result ≤ length bytes.now }
{
    bytes.iter().take_while(|b| is_in(class, **b)).count()
}

pub(crate) fn is_empty(bytes: &[u8]) -> bool
    ensures { result ≡ spec.is_empty bytes.now }
{
    match bytes {
        [] => true,
        [_, ..] => false,
    }
}

/// Whether all bytes are white space.
pub(crate) fn all_space(bytes: &[u8]) -> bool
    ensures { result ≡ list_all spec.is_space bytes.now }
{
    bytes.iter().all(|b| is_space(*b))
}

/// The bytes behind a mark at the front, if it stands there. Takes no memory.
#[tactic(auto, unfolding(crate::specs::Written::strip))]
pub fn strip<'a>(mut mark: &[u8], mut bytes: &'a [u8]) -> Option<&'a [u8]>
    ensures { option_now result ≡ spec.strip mark.entry.now bytes.entry.now }
{
    while let [c, more @ ..] = mark {
        let [b, rest @ ..] = bytes else {
            return None;
        };
        if *b != *c {
            return None;
        }
        mark = more;
        bytes = rest;
    }
    Some(bytes)
}

/// The bytes before the first mark, and those behind it, if it stands anywhere.
pub(crate) fn until<'a>(mark: &[u8], bytes: &'a [u8]) -> Option<(&'a [u8], &'a [u8])>
    ensures { pair_now result ≡ reading.until mark.now bytes.now }
{
    for at in 0..bytes.len() {
        if let Some(more) = strip(mark, &bytes[at..]) {
            return Some((&bytes[..at], more));
        }
    }
    None
}

/// Whether two names are written the same.
pub(crate) fn same(a: &[u8], b: &[u8]) -> bool
    ensures { result ≡ spec.same a.now b.now }
{
    a == b
}
