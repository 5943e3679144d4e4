//! The order of names.
ghost use Rattle.std.specs.Prelude.{◌≡◌};
ghost use Rattle.std.specs.Cmp.Lexicographic.{slice_cmp};
ghost use Rattle.std.specs.Ordering.{nat_cmp};
ghost use Rattle.chan_values.specs.Folded.{folded, folded_byte};

use std::cmp::Ordering;

/// A capital letter as the small one, and any other byte as it is.
fn folded_byte(byte: u8) -> u8
    ensures { result ≡ folded_byte byte }
{
    byte.to_ascii_lowercase()
}

/// How a name that stands folded compares with another, which is folded as it is read.
pub(crate) fn compare(mut own: &[u8], mut name: &[u8]) -> Ordering
    ensures { result ≡ slice_cmp nat_cmp own.entry.now (folded name.entry.now) }
{
    while let [own_first, own_rest @ ..] = own {
        let [first, rest @ ..] = name else {
            return Ordering::Greater;
        };
        match own_first.cmp(&folded_byte(*first)) {
            Ordering::Equal => {
                own = own_rest;
                name = rest;
            }
            unequal => return unequal,
        }
    }
    if name.is_empty() {
        Ordering::Equal
    } else {
        Ordering::Less
    }
}
