//! Laws of the faults of a source file.
ghost use Rattle.std.specs.Prelude.{◌≡◌, ◌⊎◌, ℕ, List};
ghost use Rattle.brs_grammar.specs.declared.tree.NamedFunction.{NamedFunction};
ghost use Rattle.file_faults.specs.SourceFaults.{IsGoodSource, IsSourceFault};
ghost use Rattle.file_faults.specs.declared.source.SourceFault.{SourceFault};

use brs_grammar::laws::tree_or_fault as file_or_fault;
use brs_tokens::{the_fault_is_the_first_of_the_table, tokens_are_the_longest_pieces};

/// A source file has at most one tree without a static fault.
pub fn one_tree()
    ensures { (src : List ℕ) (first_line : ℕ) (a b : List NamedFunction) → IsGoodSource src first_line a → IsGoodSource src first_line b → a ≡ b }
{
    tokens_are_the_longest_pieces();
}

/// A source file has at most one first fault.
pub fn one_fault()
    ensures { (src : List ℕ) (first_line : ℕ) (a b : SourceFault) → IsSourceFault src first_line a → IsSourceFault src first_line b → a ≡ b }
{
    tokens_are_the_longest_pieces();
    the_fault_is_the_first_of_the_table();
}

/// A source file never has both.
pub fn never_both()
    ensures { (src : List ℕ) (first_line : ℕ) (functions : List NamedFunction) (fault : SourceFault) → IsGoodSource src first_line functions → IsSourceFault src first_line fault → ⊥ }
{
    tokens_are_the_longest_pieces();
    the_fault_is_the_first_of_the_table();
}

/// A source file has one of them.
pub fn tree_or_fault()
    ensures { (src : List ℕ) (first_line : ℕ) → ((functions : List NamedFunction) × IsGoodSource src first_line functions) ⊎ ((fault : SourceFault) × IsSourceFault src first_line fault) }
{
    tokens_are_the_longest_pieces();
    the_fault_is_the_first_of_the_table();
    file_or_fault();
}
