//! Laws of unfolding and laying down, each a function that does nothing.
ghost use Rattle.std.specs.Prelude.{◌≡◌};
ghost use Rattle.chan_values.specs.Tree.{Tree};
ghost use Rattle.chan_values.specs.Portable.{IsBounded, IsPortable, KeepsKeys};
ghost use Rattle.heap_meaning.specs.Values.{Value, StoreValue};
ghost use Rattle.heap_meaning.specs.Store.{Store};
ghost use Rattle.heap_meaning.specs.Stands.{Naming, Outside, Stands, meaning};
ghost use Rattle.heap_meaning.specs.Heap.{Heap, Belongs};
ghost use Rattle.copy_meaning.specs.Unfolding.{Unfolds};
ghost use Rattle.copy_meaning.specs.Answers.{Answer, Copy, Answers, Leaves, unfolded};
ghost use Rattle.copy_meaning.specs.Forms.{form_in, form_at};
ghost use Rattle.copy_meaning.specs.Laying.{with_tree, value_of_tree};

/// Unfolding a value of a store has exactly one answer, `unfolded`, whether or not the value holds
/// itself.
pub fn one_answer()
    ensures answers { (store : Store) (v : StoreValue) → Leaves store v (unfolded store v) }
    ensures only { (store : Store) (v : StoreValue) (answer : Answer) → Leaves store v answer → answer ≡ unfolded store v }
{}

/// What unfolds keeps the bounds of a portable value.
pub fn unfolded_is_bounded()
    ensures { (store : Store) (v : StoreValue) (t : Tree) → Leaves store v (Copy t) → IsBounded t }
{}

/// What a value of a heap unfolds to depends only on the store for which the heap stands and on
/// what the value stands for there.
pub fn same_store_same_answer()
    ensures { (h : Heap) (name : Naming) (store : Store) (outside : Outside) (v : Value) (answer : Answer) → Stands name h.cells store outside → Belongs h v → Answers (form_at h) 64 65536 v answer → Leaves store (meaning name v) answer }
{}

/// A portable value that was laid down unfolds to itself, and can leave the store again.
pub fn laid_down_unfolds()
    ensures unfolds { (store : Store) (t : Tree) → KeepsKeys t → Unfolds (form_in (with_tree store t)) (value_of_tree store t) t }
    ensures leaves { (store : Store) (t : Tree) → IsPortable t → Leaves (with_tree store t) (value_of_tree store t) (Copy t) }
{}
