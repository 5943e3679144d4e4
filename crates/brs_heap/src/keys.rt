//! Keys of an associative array, found without regard to the case of their letters.
ghost use Rattle.std.specs.Prelude.{◌≡◌, map, slice_get, Some, IfOk, IfErr};
ghost use Rattle.std.specs.Cmp.Lexicographic.{slice_cmp};
ghost use Rattle.std.specs.Ordering.{nat_cmp};
ghost use Rattle.chan_values.specs.Folded.{folded};
ghost use Rattle.chan_values.specs.Portable.{IsKeyList};
ghost use Rattle.heap_meaning.specs.Keys.{keys_of, IsGap};
ghost use Rattle.brs_heap.specs.Content.{entry_of};

use crate::cell::Entry;
use std::cmp::Ordering;

/// How a name, folded, stands to a folded key by their bytes.
fn compare_folded(name: &[u8], key: &[u8]) -> Ordering
    ensures { result ≡ slice_cmp nat_cmp (folded name.now) key.now }
{
    for at in 0..name.len() {
        if at >= key.len() {
            return Ordering::Greater;
        }
        match name[at].to_ascii_lowercase().cmp(&key[at]) {
            Ordering::Less => return Ordering::Less,
            Ordering::Greater => return Ordering::Greater,
            Ordering::Equal => {}
        }
    }
    if name.len() < key.len() {
        Ordering::Less
    } else {
        Ordering::Equal
    }
}

/// The place of the entry with this key, or else the one at which it would stand.
pub fn find_key(entries: &[Entry], key: &[u8]) -> Result<usize, usize>
    requires { IsKeyList (keys_of (map entry_of entries.now)) }
    ensures found { IfOk result (λ at. slice_get (keys_of (map entry_of entries.now)) at ≡ Some (folded key.now)) }
    ensures gap { IfErr result (λ at. IsGap (keys_of (map entry_of entries.now)) (folded key.now) at) }
{
    let mut low = 0;
    let mut high = entries.len();
    while low < high {
        let middle = low + (high - low) / 2;
        match compare_folded(key, entries[middle].key.as_str().as_bytes()) {
            Ordering::Less => high = middle,
            Ordering::Greater => low = middle + 1,
            Ordering::Equal => return Ok(middle),
        }
    }
    Err(low)
}
