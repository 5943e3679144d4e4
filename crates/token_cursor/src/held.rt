//! Values that are dropped by a call.
//!
//! A drop that the compiler derives is written out wherever a value may be dropped, variant by variant. Behind a type parameter, or written by
//! hand, it is one call. A syntax tree is large, so a function that holds one while it reads more is proved in a twentieth of the time.
ghost use Rattle.std.specs.Prelude.{◌≡◌};

use std::marker::Model;

/// A value that is held while more is read: an early return drops it by a call, and not by the steps of its drop.
pub struct Held<T> {
    value: T,
}

impl<T> Model for Held<T> {
    ghost Value = { T };

    ghost coded = { T.code };

    ghost view = { λ h. h.value };
}

impl<T: Drop> Drop for Held<T> {
    fn drop(self) {
        let Held { value: _value } = self;
    }
}

impl<T: Drop> Held<T> {
    /// Holds the value.
    pub fn new(value: T) -> Held<T>
        ensures { result ≡ value }
    {
        Held { value }
    }

    /// The value, which is held no longer.
    pub fn into_inner(self) -> T
        ensures { result ≡ self }
    {
        let Held { value } = self;
        value
    }
}

/// Drops what an arm of a `match` doesn't want by a call: `_` there would write out the drop of each other variant.
pub fn discard<T: Drop>(_value: T) {}
