//! The methods of nodes.
ghost use Rattle.std.specs.Prelude.{◌≡◌};
ghost use Rattle.brs_meaning.specs.MethodNames as spec;

use plain_operations::value_beside;

/// A method of a node.
///
/// Source: SceneGraph, "ifSGNodeField", "ifSGNodeChildren", "ifSGNodeFocus", "ifSGNodeDict" and "roSGNode".
#[derive(Clone, Copy, Debug, PartialEq, Eq)]
pub enum NodeMethod {
    /// `getField(f)`: the value of a field.
    GetField,
    /// `setField(f, v)`: sets a field.
    SetField,
    /// `hasField(f)`: whether a field is there.
    HasField,
    /// `addField(f, t, a)`: a further field.
    AddField,
    /// `observeField(f, to)`: registers a function or a port for changes of a field.
    ObserveField,
    /// `unobserveField(f)`: drops the registrations of a field.
    UnobserveField,
    /// `appendChild(c)`: a further child at the end.
    AppendChild,
    /// `insertChild(c, i)`: a further child at a place.
    InsertChild,
    /// `removeChild(c)`: a child leaves.
    RemoveChild,
    /// `createChild(k)`: a new child of a kind.
    CreateChild,
    /// `getChild(i)`: the child at a place.
    GetChild,
    /// `getChildCount()`: the number of children.
    GetChildCount,
    /// `getParent()`: the parent.
    GetParent,
    /// `findNode(id)`: the first descendant with an id.
    FindNode,
    /// `setFocus(b)`: takes or gives up the focus.
    SetFocus,
    /// `hasFocus()`: whether the node has the focus.
    HasFocus,
    /// `isInFocusChain()`: whether the node or a descendant has the focus.
    IsInFocusChain,
    /// `subtype()`: the name of the kind.
    Subtype,
    /// `callFunc(name, ..)`: calls a function of the interface.
    CallFunc,
    /// `isSameNode(n)`: whether two nodes are one.
    IsSameNode,
}

const METHODS: [(&[u8], NodeMethod); 20] = [
    (b"getfield", NodeMethod::GetField),
    (b"setfield", NodeMethod::SetField),
    (b"hasfield", NodeMethod::HasField),
    (b"addfield", NodeMethod::AddField),
    (b"observefield", NodeMethod::ObserveField),
    (b"unobservefield", NodeMethod::UnobserveField),
    (b"appendchild", NodeMethod::AppendChild),
    (b"insertchild", NodeMethod::InsertChild),
    (b"removechild", NodeMethod::RemoveChild),
    (b"createchild", NodeMethod::CreateChild),
    (b"getchild", NodeMethod::GetChild),
    (b"getchildcount", NodeMethod::GetChildCount),
    (b"getparent", NodeMethod::GetParent),
    (b"findnode", NodeMethod::FindNode),
    (b"setfocus", NodeMethod::SetFocus),
    (b"hasfocus", NodeMethod::HasFocus),
    (b"isinfocuschain", NodeMethod::IsInFocusChain),
    (b"subtype", NodeMethod::Subtype),
    (b"callfunc", NodeMethod::CallFunc),
    (b"issamenode", NodeMethod::IsSameNode),
];

/// The method of nodes with a folded name, `None` exactly for another name. Takes no memory.
///
/// Source: SceneGraph, "roSGNode".
pub fn node_method_named(name: &[u8]) -> Option<NodeMethod>
    ensures { result ≡ spec.node_method_named name.now }
{
    value_beside(&METHODS, name)
}
