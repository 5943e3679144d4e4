//! Laws of the definitions.
ghost use Rattle.std.specs.Prelude.{◌≡◌, ℕ, List, Option};
ghost use Rattle.std.specs.Option.{ForSome};
ghost use Rattle.node_tree.specs.declared.node.Node.{Node};
ghost use Rattle.node_tree.specs.Nodes.{IsNode};
ghost use Rattle.node_tree.specs.Family.{IsSound};
ghost use Rattle.focus_keys.specs.Chain.{focus_chain, IsChain};

/// The chain begins with the focused node, each node's parent stands behind it, it ends with a node that has none, and each node
/// stands in it once.
pub fn chains_go_up()
    ensures { (nodes : List Node) (focus : Option ℕ) → IsSound nodes → ForSome focus (IsNode nodes) → IsChain nodes focus (focus_chain nodes focus) }
{}
