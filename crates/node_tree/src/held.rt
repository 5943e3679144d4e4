//! The value of a field.
ghost use Rattle.std.specs.Prelude.{◌≡◌};
ghost use Rattle.chan_values.specs.View.{tree_of};
ghost use Rattle.node_tree.specs.SameTree.{same_tree};

use chan_values::{Portable, same};
use std::marker::Model;

/// A value, which contracts see as its tree.
pub struct Held {
    value: Portable,
}

// By hand, so that a field that is written drops its old value by a call, and not kind by kind.
impl Drop for Held {
    fn drop(self) {
        let Held { value: _value } = self;
    }
}

impl Model for Held {
    ghost use Rattle.chan_values.specs.Tree.{Tree};
    ghost use Rattle.chan_values.specs.Codes.{tree_code};

    ghost Value = { Tree };

    ghost coded = { tree_code };

    ghost use Rattle.chan_values.specs.View.{tree_of};

    ghost view = { λ h. tree_of h.value };
}

impl Held {
    pub fn new(value: Portable) -> Held
        ensures { result ≡ tree_of value }
    {
        Held { value }
    }

    pub fn get(&self) -> &Portable
        ensures { tree_of result.now ≡ self.now }
    {
        &self.value
    }

    /// Whether another value is the same, kind and content throughout.
    pub fn is(&self, other: &Portable) -> bool
        ensures { result ≡ same_tree (tree_of other.now) self.now }
    {
        same(other, &self.value)
    }
}
