//! Laws of the grammar.
//!
//! A first fault counts tokens from 0, and the end of the file counts as a token.
ghost use Rattle.std.specs.Prelude.{◌≡◌, ◌⊎◌, ◌-◌, ℕ, List, [], ◌∷◌, ◌++◌, length, Ok, Err};
ghost use Rattle.brs_tokens.specs.Tok.{Tok};
ghost use Rattle.brs_grammar.specs.declared.tree.NamedFunction.{NamedFunction};
ghost use Rattle.brs_grammar.specs.Grammar.{IsFile, IsFirstFault};
ghost use Rattle.brs_grammar.specs.ReadFunctions as reading;

/// A token list has at most one tree.
pub fn one_tree()
    ensures { (tokens : List Tok) (a b : List NamedFunction) → IsFile tokens a → IsFile tokens b → a ≡ b }
{}

/// A token list has at most one first fault.
pub fn one_fault()
    ensures { (tokens : List Tok) (j k : ℕ) → IsFirstFault tokens j → IsFirstFault tokens k → j ≡ k }
{}

/// A token list has a tree or a first fault.
pub fn tree_or_fault()
    ensures { (tokens : List Tok) → ((a : List NamedFunction) × IsFile tokens a) ⊎ ((k : ℕ) × IsFirstFault tokens k) }
{}

/// A token list never has both a tree and a first fault.
pub fn never_both()
    ensures { (tokens : List Tok) (a : List NamedFunction) (k : ℕ) → IsFile tokens a → IsFirstFault tokens k → ⊥ }
{}

/// Whether a token is the first fault depends on no token behind it.
pub fn fault_by_prefix()
    ensures { (front more other : List Tok) (token : Tok) → IsFirstFault (front ++ token ∷ more) (length front) → IsFirstFault (front ++ token ∷ other) (length front) }
{}

/// Reading with one token ahead gives the tree.
pub fn reading_gives_the_tree()
    ensures right { (tokens rest : List Tok) (a : List NamedFunction) → reading.file tokens ≡ Ok (a, rest) → IsFile tokens a }
    ensures all { (tokens : List Tok) (a : List NamedFunction) → IsFile tokens a → reading.file tokens ≡ Ok (a, []) }
{}

/// Reading with one token ahead stops at the first fault.
pub fn reading_stops_at_the_fault()
    ensures { (tokens rest : List Tok) → reading.file tokens ≡ Err rest → IsFirstFault tokens (length tokens - length rest) }
{}
