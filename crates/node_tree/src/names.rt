//! Names of fields.
ghost use Rattle.std.specs.Prelude.{◌≡◌};
ghost use Rattle.chan_values.specs.Folded.{folded};
ghost use Rattle.node_tree.specs.NameOrder.{name_cmp};

use std::cmp::Ordering;

/// How one name stands to another by their bytes, without regard to the case of their letters.
pub fn compare_folded(name: &[u8], other: &[u8]) -> Ordering
    ensures { result ≡ name_cmp (folded name.now) (folded other.now) }
{
    for at in 0..name.len() {
        if at >= other.len() {
            return Ordering::Greater;
        }
        match name[at]
            .to_ascii_lowercase()
            .cmp(&other[at].to_ascii_lowercase())
        {
            Ordering::Less => return Ordering::Less,
            Ordering::Greater => return Ordering::Greater,
            Ordering::Equal => {}
        }
    }
    if name.len() < other.len() {
        Ordering::Less
    } else {
        Ordering::Equal
    }
}
