//! The order of the keys of an associative array.
ghost use Rattle.std.specs.Prelude.{◌≡◌, ◌↔◌, ◌<◌, ◌-◌, [], length, map, slice_index_or, IsTrue};
ghost use Rattle.std.specs.Ordering.{nat_cmp};
ghost use Rattle.std.specs.Cmp.Lexicographic.{slice_cmp};
ghost use Rattle.chan_values.specs.Folded.{folded};
ghost use Rattle.chan_values.specs.Tree.{keys_of};
ghost use Rattle.chan_values.specs.View.{tree_pair_of};

use crate::Pair;
use std::cmp::Ordering;

/// Whether folding a key changes nothing.
pub(crate) fn is_folded(key: &str) -> bool
    ensures { IsTrue result ↔ (folded key.now ≡ key.now) }
{
    key.bytes().all(|byte| !byte.is_ascii_uppercase())
}

fn is_below(key: &str, other: &str) -> bool
    ensures { IsTrue result ↔ (slice_cmp nat_cmp key.now other.now ≡ Ordering.Less) }
{
    key.cmp(&other) == Ordering::Less
}

/// Whether the last key of these pairs, if there is one, is below this one.
pub(crate) fn comes_after(pairs: &[Pair], key: &str) -> bool
    ensures { IsTrue result ↔ (0 < length pairs.now → slice_cmp nat_cmp (slice_index_or (keys_of (map tree_pair_of pairs.now)) (length pairs.now - 1) []) key.now ≡ Ordering.Less) }
{
    match pairs.len().checked_sub(1) {
        Some(last) => is_below(pairs[last].key.as_str(), key),
        None => true,
    }
}
