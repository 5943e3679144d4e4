//! The operations of the language that touch no node, no port and no screen.
use object_operations::{ArrayMethod, MapMethod, MessageMethod};
use plain_operations::{Operator, PlainFunction, PlainMethod, UnaryOperator};

/// An operation. Its arguments stand in the order of the source; what a member, an index or a method
/// belongs to stands first.
///
/// Source: BrightScript Language Reference, "Operators", "Global Utility Functions".
#[derive(Clone, Copy, Debug, PartialEq, Eq)]
pub enum Operation {
    /// An operator between its two operands.
    Operator(Operator),
    /// An operator before its one operand.
    UnaryOperator(UnaryOperator),
    /// `x.k`: the value and the key, a String.
    ReadMember,
    /// `x.k = v`: the value, the key, a String, and what is written.
    WriteMember,
    /// `x[i]`: the value and the index.
    ReadIndex,
    /// `x[i] = v`: the value, the index and what is written.
    WriteIndex,
    /// A function of numbers and texts.
    Function(PlainFunction),
    /// `Type(v)`: the name of a value's type.
    TypeName,
    /// `CreateObject(k, ..)`, for what needs no node, no port and no screen.
    CreateObject,
    /// A method of texts, numbers and Booleans.
    PlainMethod(PlainMethod),
    /// A method of arrays.
    ArrayMethod(ArrayMethod),
    /// A method of associative arrays.
    MapMethod(MapMethod),
    /// `keys()` of an associative array: its keys in ascending order.
    Keys,
    /// `append(aa)` of an associative array: it gets the entries of another one.
    AppendEntries,
    /// A method of messages that reads what the message tells.
    MessageMethod(MessageMethod),
    /// `getData()` of a message: what it carries, laid down anew.
    MessageData,
}
