//! What calls on nodes leave as it was.
ghost use Rattle.std.specs.Prelude.{◌≡◌, ℤ, ℕ, Bool, List, length};
ghost use Rattle.chan_values.specs.Tree.{Tree};
ghost use Rattle.field_types.specs.declared.types.FieldType.{FieldType as Kind};
ghost use Rattle.node_tree.specs.declared.node.Node.{Node};
ghost use Rattle.node_tree.specs.Nodes.{owner_of, parent_of, children_of};
ghost use Rattle.node_tree.specs.Fields.{after_set, after_add};
ghost use Rattle.node_tree.specs.Family.{appended, inserted, removed};

/// No set or addition of a field and no change of children changes the owner of a node.
pub fn owners_stay()
    ensures set { (nodes : List Node) (n i : ℕ) (name : List ℕ) (v : Tree) → owner_of (after_set nodes n name v) i ≡ owner_of nodes i }
    ensures add { (nodes : List Node) (n i : ℕ) (name : List ℕ) (t : Kind) (always : Bool) → owner_of (after_add nodes n name t always) i ≡ owner_of nodes i }
    ensures append { (nodes : List Node) (n c i : ℕ) → owner_of (appended nodes n c) i ≡ owner_of nodes i }
    ensures insert { (nodes : List Node) (n c i : ℕ) (at : ℤ) → owner_of (inserted nodes n c at) i ≡ owner_of nodes i }
    ensures remove { (nodes : List Node) (n c i : ℕ) → owner_of (removed nodes n c) i ≡ owner_of nodes i }
{}

/// No set or addition of a field changes who is whose parent or child.
pub fn fields_leave_families()
    ensures set_parent { (nodes : List Node) (n i : ℕ) (name : List ℕ) (v : Tree) → parent_of (after_set nodes n name v) i ≡ parent_of nodes i }
    ensures set_children { (nodes : List Node) (n i : ℕ) (name : List ℕ) (v : Tree) → children_of (after_set nodes n name v) i ≡ children_of nodes i }
    ensures add_parent { (nodes : List Node) (n i : ℕ) (name : List ℕ) (t : Kind) (always : Bool) → parent_of (after_add nodes n name t always) i ≡ parent_of nodes i }
    ensures add_children { (nodes : List Node) (n i : ℕ) (name : List ℕ) (t : Kind) (always : Bool) → children_of (after_add nodes n name t always) i ≡ children_of nodes i }
{}

/// No set or addition of a field and no change of children makes a node or takes one away.
pub fn numbers_stay()
    ensures set { (nodes : List Node) (n : ℕ) (name : List ℕ) (v : Tree) → length (after_set nodes n name v) ≡ length nodes }
    ensures add { (nodes : List Node) (n : ℕ) (name : List ℕ) (t : Kind) (always : Bool) → length (after_add nodes n name t always) ≡ length nodes }
    ensures append { (nodes : List Node) (n c : ℕ) → length (appended nodes n c) ≡ length nodes }
    ensures insert { (nodes : List Node) (n c : ℕ) (at : ℤ) → length (inserted nodes n c at) ≡ length nodes }
    ensures remove { (nodes : List Node) (n c : ℕ) → length (removed nodes n c) ≡ length nodes }
{}
