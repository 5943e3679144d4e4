//! The methods of associative arrays.

/// A method of associative arrays.
///
/// Source: BrightScript Language Reference, "roAssociativeArray": "ifAssociativeArray".
#[derive(Clone, Copy, Debug, PartialEq, Eq)]
pub enum MapMethod {
    /// `addReplace(k, v)`: the value at a key.
    AddReplace,
    /// `clear()`: all keys are gone.
    Clear,
    /// `lookup(k)`: the value at a key, or `invalid`.
    Lookup,
    /// `doesExist(k)`: whether the key is there.
    DoesExist,
    /// `delete(k)`: the key is gone.
    Delete,
    /// `count()`: the number of keys.
    Count,
}
