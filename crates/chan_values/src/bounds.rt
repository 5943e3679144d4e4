//! How deep a value is and how many parts it has.
ghost use Rattle.std.specs.Prelude.{◌≡◌};
ghost use Rattle.chan_values.specs.Tree.{parts, depth};
ghost use Rattle.chan_values.specs.Portable.{IsPortable};
ghost use Rattle.chan_values.specs.View.{tree_of};

use crate::{Measure, Portable};

/// How deep a value is and how many parts it has, in constant time: its lists keep count. Takes no memory.
pub fn measure(p: &Portable) -> Measure
    ensures depth { result.depth ≡ depth (tree_of p.now) }
    ensures parts { result.parts ≡ parts (tree_of p.now) }

    // Whoever made the value.
    ensures portable { IsPortable (tree_of p.now) }
{
    match p {
        Portable::Items(items) => items.measure(),
        Portable::Pairs(pairs) => pairs.measure(),
        _ => Measure { depth: 0, parts: 1 },
    }
}
