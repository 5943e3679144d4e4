//! The methods of arrays.

/// A method of arrays.
///
/// Source: BrightScript Language Reference, "roArray": "ifArray", "ifArrayGet", "ifEnum".
#[derive(Clone, Copy, Debug, PartialEq, Eq)]
pub enum ArrayMethod {
    /// `push(v)`: a further item at the end.
    Push,
    /// `unshift(v)`: a further item at the start.
    Unshift,
    /// `pop()`: takes the last item out.
    Pop,
    /// `shift()`: takes the first item out.
    Shift,
    /// `peek()`: the last item.
    Peek,
    /// `delete(i)`: the item at a place is gone.
    Delete,
    /// `count()`: the number of items.
    Count,
    /// `clear()`: all items are gone.
    Clear,
    /// `append(a)`: the items that another array has at the call, at the end.
    Append,
}
