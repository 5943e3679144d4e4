//! Who owns which node: what calls keep, and what they answer.
ghost use Rattle.std.specs.Prelude.{◌≡◌, ℤ, ℕ, suc, Bool, true, List, length, Some};
ghost use Rattle.std.specs.List.{AllByRecursion};
ghost use Rattle.chan_values.specs.Tree.{Tree};
ghost use Rattle.field_types.specs.NamedNodes.{nodes_in};
ghost use Rattle.field_types.specs.Plans.{IsPlanTable};
ghost use Rattle.field_types.specs.declared.plans.KindPlan.{KindPlan as Plan};
ghost use Rattle.field_types.specs.declared.types.FieldType.{FieldType as Kind};
ghost use Rattle.node_tree.specs.declared.node.Node.{Node};
ghost use Rattle.node_tree.specs.Nodes.{owner_of, parent_of};
ghost use Rattle.node_tree.specs.Fields.{value_of, after_set, after_add};
ghost use Rattle.node_tree.specs.Family.{has, child_at, appended, inserted, removed};
ghost use Rattle.node_tree.specs.Making.{made};
ghost use Rattle.node_tree.specs.Reach.{given};
ghost use Rattle.node_tree.specs.Owned.{Of, OnlyToRender, AreNodesOwned};

/// A making leaves the owners of the nodes that were there, and the new node belongs to its maker.
pub fn makings_leave_owners()
    ensures others { (nodes : List Node) (plans : List Plan) (place actor n owner : ℕ) → owner_of nodes n ≡ Some owner → owner_of (made nodes plans place actor) n ≡ Some owner }
    ensures own { (nodes : List Node) (plans : List Plan) (place actor : ℕ) → owner_of (made nodes plans place actor) (suc (length nodes)) ≡ Some actor }
{}

/// A gift changes owners only to render, and what was given is render's.
pub fn gifts_go_to_render()
    ensures only { (nodes : List Node) (roots : List ℕ) → OnlyToRender nodes (given nodes roots) }
    ensures roots { (actor : ℕ) (nodes : List Node) (roots : List ℕ) (n : ℕ) → has n roots ≡ true → Of actor nodes n → owner_of (given nodes roots) n ≡ Some 0 }
{}

/// Each call keeps that a node, its parent and its children have one owner, and that its fields name nodes of render or of that owner: a set of
/// values and a change of children where their nodes are the actor's, every other call without a condition.
pub fn nodes_stay_owned()
    ensures set { (actor n : ℕ) (name : List ℕ) (v : Tree) (nodes : List Node) → owner_of nodes n ≡ Some actor → AllByRecursion (Of actor nodes) (nodes_in v) → AreNodesOwned nodes → AreNodesOwned (after_set nodes n name v) }
    ensures add { (n : ℕ) (name : List ℕ) (t : Kind) (always : Bool) (nodes : List Node) → AreNodesOwned nodes → AreNodesOwned (after_add nodes n name t always) }
    ensures append { (actor n c : ℕ) (nodes : List Node) → owner_of nodes n ≡ Some actor → owner_of nodes c ≡ Some actor → AreNodesOwned nodes → AreNodesOwned (appended nodes n c) }
    ensures insert { (actor n c : ℕ) (at : ℤ) (nodes : List Node) → owner_of nodes n ≡ Some actor → owner_of nodes c ≡ Some actor → AreNodesOwned nodes → AreNodesOwned (inserted nodes n c at) }
    ensures remove { (n c : ℕ) (nodes : List Node) → AreNodesOwned nodes → AreNodesOwned (removed nodes n c) }
    ensures make { (plans : List Plan) (place actor : ℕ) (nodes : List Node) → IsPlanTable plans → AreNodesOwned nodes → AreNodesOwned (made nodes plans place actor) }
    ensures give { (nodes : List Node) (roots : List ℕ) → AreNodesOwned nodes → AreNodesOwned (given nodes roots) }
{}

/// What an actor reads from a node of render or of its own names nodes of render or of its own.
pub fn reads_name_own_nodes()
    ensures value { (actor n : ℕ) (name : List ℕ) (v : Tree) (nodes : List Node) → Of actor nodes n → value_of nodes n name ≡ Some v → AreNodesOwned nodes → AllByRecursion (Of actor nodes) (nodes_in v) }
    ensures child { (actor n c : ℕ) (at : ℤ) (nodes : List Node) → Of actor nodes n → child_at nodes n at ≡ Some c → AreNodesOwned nodes → Of actor nodes c }
    ensures parent { (actor n p : ℕ) (nodes : List Node) → Of actor nodes n → parent_of nodes n ≡ Some p → AreNodesOwned nodes → Of actor nodes p }
{}
