//! What the tokens and the lexical fault of a source file are, and what holds of the tokens.
ghost use Rattle.std.specs.Prelude.{◌≡◌, ◌↔◌, ℕ, List, Ok, Err, All};
ghost use Rattle.brs_tokens.specs.Cuts.{AreTokens, IsFirstFault};
ghost use Rattle.brs_tokens.specs.declared.lex_fault.LexFault.{LexFault};
ghost use Rattle.brs_tokens.specs.Spelling.{spelling};
ghost use Rattle.brs_tokens.specs.Tok.{Tok};
ghost use Rattle.brs_tokens.specs.Tokens.{IsToken, StandIn};

/// Each token's bytes spell its kind and are a text, and a number has a value.
pub fn tokens_are_spelled()
    ensures { (src : List ℕ) (first_line : ℕ) (tokens : List Tok) → spelling src first_line ≡ Ok tokens → All IsToken tokens }
{}

/// The tokens' slices stand in the source in order, each at its line and column.
pub fn tokens_stand_in_order()
    ensures { (src : List ℕ) (first_line : ℕ) (tokens : List Tok) →
        spelling src first_line ≡ Ok tokens → StandIn (record { line = first_line; column = 1 }) src tokens }
{}

/// The tokens of a source file, as they are defined (`AreTokens`), are those that `spelling` computes.
///
/// The bytes behind the byte order mark are cut into pieces, each the longest that begins where it does and none begun by a fault. The
/// tokens are the pieces that are neither spaces nor comments, each at its line and column.
pub fn tokens_are_the_longest_pieces()
    ensures { (src : List ℕ) (first_line : ℕ) (tokens : List Tok) → (spelling src first_line ≡ Ok tokens) ↔ AreTokens src first_line tokens }
{}

/// The lexical fault of a source file, as it is defined (`IsFirstFault`), is the one that `spelling` computes.
///
/// Such pieces reach up to the fault, the row of its kind in the table of lexical faults holds of the bytes from there on, and no row
/// holds earlier.
pub fn the_fault_is_the_first_of_the_table()
    ensures { (src : List ℕ) (first_line : ℕ) (fault : LexFault) → (spelling src first_line ≡ Err fault) ↔ IsFirstFault src first_line fault }
{}
