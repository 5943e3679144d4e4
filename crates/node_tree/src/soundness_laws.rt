//! What holds of the nodes at each moment, and what each call keeps of it.
ghost use Rattle.std.specs.Prelude.{◌≡◌, ◌↔◌, ◌+◌, ◌≤◌, ◌++◌, ℤ, ℕ, Bool, List, length, IsTrue};
ghost use Rattle.chan_values.specs.Tree.{Tree};
ghost use Rattle.field_types.specs.declared.plans.KindPlan.{KindPlan as Plan};
ghost use Rattle.field_types.specs.declared.types.FieldType.{FieldType as Kind};
ghost use Rattle.node_tree.specs.declared.node.Node.{Node};
ghost use Rattle.node_tree.specs.Nodes.{IsNode};
ghost use Rattle.node_tree.specs.Fields.{after_set, after_add};
ghost use Rattle.node_tree.specs.Family.{appended, inserted, removed, IsTree, IsSound};
ghost use Rattle.node_tree.specs.Making.{made_count, made};
ghost use Rattle.node_tree.specs.Reach.{reached, Reaches, given};

/// No node is its own ancestor.
pub fn no_node_is_its_own_ancestor()
    ensures { (nodes : List Node) → IsSound nodes → IsTree nodes }
{}

/// Each call keeps that parents and children are inverse, that no node is its own ancestor, and that there are not too many nodes.
pub fn nodes_stay_sound()
    ensures set { (nodes : List Node) (n : ℕ) (name : List ℕ) (v : Tree) → IsSound nodes → IsSound (after_set nodes n name v) }
    ensures add { (nodes : List Node) (n : ℕ) (name : List ℕ) (t : Kind) (always : Bool) → IsSound nodes → IsSound (after_add nodes n name t always) }
    ensures append { (nodes : List Node) (n c : ℕ) → IsSound nodes → IsNode nodes n → IsNode nodes c → IsSound (appended nodes n c) }
    ensures insert { (nodes : List Node) (n c : ℕ) (at : ℤ) → IsSound nodes → IsNode nodes n → IsNode nodes c → IsSound (inserted nodes n c at) }
    ensures remove { (nodes : List Node) (n c : ℕ) → IsSound nodes → IsSound (removed nodes n c) }
    ensures make { (nodes : List Node) (plans : List Plan) (place owner : ℕ) → length nodes + made_count plans place ≤ 1048576 → IsSound nodes → IsSound (made nodes plans place owner) }
    ensures give { (nodes : List Node) (roots : List ℕ) → IsSound nodes → IsSound (given nodes roots) }
{}

/// What is reached, as a test, is what is reached over links.
pub fn reach_is_decided()
    ensures { (nodes : List Node) (roots : List ℕ) (n : ℕ) → IsTrue (reached nodes roots n) ↔ Reaches nodes roots n }
{}

/// A gift changes no link, so that two gifts are one.
pub fn two_gifts_are_one()
    ensures { (nodes : List Node) (first second : List ℕ) → given (given nodes first) second ≡ given nodes (first ++ second) }
{}
