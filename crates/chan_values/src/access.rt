//! What an actor asks of the nodes.

use crate::{ArgumentList, Portable, Text};

/// A call that touches a node, as it is posted to the render actor or done at once. Nodes are given by their numbers, and
/// names, ids and kinds as the call gives them.
///
/// Source: SceneGraph, "ifSGNodeField", "ifSGNodeChildren", "ifSGNodeFocus" and "ifSGNodeDict"; BrightScript Language
/// Reference, "CreateObject".
#[derive(Debug, Drop)]
pub enum Access {
    /// `createObject("roSGNode", kind)`: a new node of the kind.
    Make {
        kind: Text,
    },
    /// `createScene(kind)` of a screen: a new scene of the kind.
    Scene {
        kind: Text,
    },
    /// A read of a field.
    Get {
        node: u32,
        field: Text,
    },
    /// A write to a field.
    Set {
        node: u32,
        field: Text,
        value: Portable,
    },
    /// `hasField(field)`.
    Has {
        node: u32,
        field: Text,
    },
    /// `addField(field, kind, always)`: a new field of the type that the word `kind` names. Where `always` is true, each
    /// write to it counts as a change.
    Add {
        node: u32,
        field: Text,
        kind: Text,
        always: bool,
    },
    /// `observeField(field, target)`. The target is the name of a function (`Words`) or a message port (`Port`).
    Observe {
        node: u32,
        field: Text,
        target: Portable,
    },
    /// `unobserveField(field)`.
    Unobserve {
        node: u32,
        field: Text,
    },
    /// `appendChild(child)`.
    Append {
        node: u32,
        child: u32,
    },
    /// `insertChild(child, at)`, with the place counted from 0.
    Insert {
        node: u32,
        child: u32,
        at: i64,
    },
    /// `removeChild(child)`.
    Remove {
        node: u32,
        child: u32,
    },
    /// `createChild(kind)`: a new node as the last child.
    Create {
        node: u32,
        kind: Text,
    },
    /// `getChild(at)`, with the place counted from 0.
    Child {
        node: u32,
        at: i64,
    },
    /// `getChildCount()`.
    Count {
        node: u32,
    },
    /// `getParent()`.
    Parent {
        node: u32,
    },
    /// `findNode(id)`.
    Find {
        node: u32,
        id: Text,
    },
    /// `setFocus(on)`.
    Focus {
        node: u32,
        on: bool,
    },
    /// `hasFocus()`.
    HasFocus {
        node: u32,
    },
    /// `isInFocusChain()`.
    InChain {
        node: u32,
    },
    /// `subtype()`.
    Subtype {
        node: u32,
    },
    /// `callFunc(name, ..)` with its further arguments.
    CallFunc {
        node: u32,
        name: Text,
        arguments: ArgumentList,
    },
}
