//! Where a text stands in another.
ghost use Rattle.std.specs.Prelude.{◌≡◌};
ghost use Rattle.plain_operations.specs.Texts as spec;

use crate::parts::{before_place, count_characters, rest_after};

/// The least place from `p` on at which `t` stands in `s`, counted from 1, and 0 for none.
pub fn place_in(p: i64, s: &str, t: &str) -> usize
    ensures { result ≡ spec.place_in p s.now t.now }
{
    let before = before_place(p);
    if before > count_characters(s) {
        return 0;
    }
    let rest = rest_after(s, before);
    match rest.find(t) {
        Some(at) => before + 1 + count_characters(&rest[..at]),
        None => 0,
    }
}
