//! A source file, or the text of an inline script: its tree, or its first fault.
ghost use Rattle.std.specs.Prelude.{◌≡◌, ◌+◌, ◌^◌, ◌<◌, ◌≤◌, ℕ, List, [], Err, length, IfOk};
ghost use Rattle.brs_tokens.specs.Cuts.{AreTokens};
ghost use Rattle.brs_tokens.specs.Tok.{Tok};
ghost use Rattle.brs_grammar.specs.declared.tree.NamedFunction.{NamedFunction};
ghost use Rattle.brs_grammar.specs.Grammar.{IsFile};
ghost use Rattle.brs_parser.specs.FaultPlace.{IsSpelled};
ghost use Rattle.static_faults.specs.Faults.{faults};
ghost use Rattle.file_faults.specs.Answers.{IsRead, IsRefused};
ghost use Rattle.file_faults.specs.SourceFaults.{IsGoodSource, IsSourceFault};
ghost use Rattle.file_faults.specs.declared.source.SourceAnswer;
ghost use Rattle.file_faults.specs.declared.source.SourceFault.{SourceFault as Fault};

use crate::laws::{never_both, one_fault, one_tree};
use brs_parser::{ParseAnswer, ParsedFile, SyntaxFault};
use brs_tokens::{
    LexAnswer, LexFault, TokenList, lex, the_fault_is_the_first_of_the_table,
    tokens_are_the_longest_pieces,
};
use static_faults::{StaticFault, static_fault};
use std::alloc::{AllocError, Global};

/// What is wrong with a source file: its first fault.
#[derive(Clone, Copy, Debug, PartialEq, Eq)]
pub enum SourceFault {
    /// Its bytes aren't spelled as BrightScript.
    Lexical(LexFault),
    /// No file begins with its tokens up to and including this one.
    Syntax(SyntaxFault),
    /// The grammar takes it, and the language refuses it before a step is taken.
    Static(StaticFault),
}

/// Why a source file gives no tree that may be compiled.
#[derive(Clone, Copy, Debug, PartialEq, Eq)]
pub enum SourceAnswer {
    /// Its first fault.
    Fault(SourceFault),
    /// Memory ran out.
    NoMemory,
}

impl From<AllocError> for SourceAnswer {
    ghost use Rattle.std.specs.Prelude.{◌≡◌};
    ghost use Rattle.file_faults.specs.declared.source.SourceAnswer.TheVariants as answer;

    ghost from_gives = { λ _ e. e ≡ answer.NoMemory };

    fn from(_: AllocError) -> SourceAnswer {
        SourceAnswer::NoMemory
    }
}

/// The tokens of a source file, or its lexical fault.
fn spelled(alloc: Global, src: &[u8], first_line: u32) -> Result<TokenList<'_>, SourceAnswer>
    requires line { 1 ≤ first_line }
    requires fits { first_line + length src.now < 2 ^ 32 }
    ensures tokens { IfOk result (λ tokens. AreTokens src.now first_line tokens) }
    ensures spelled { IfOk result (λ tokens. IsSpelled tokens) }
    ensures fault { (fault : Fault) → result ≡ Err (SourceAnswer.Fault fault) → IsSourceFault src.now first_line fault }
{
    tokens_are_the_longest_pieces();
    the_fault_is_the_first_of_the_table();
    match lex(alloc, src, first_line) {
        Ok(tokens) => Ok(tokens),
        Err(LexAnswer::Fault(fault)) => Err(SourceAnswer::Fault(SourceFault::Lexical(fault))),
        Err(LexAnswer::NoMemory) => Err(SourceAnswer::NoMemory),
    }
}

/// The tree of tokens, or their syntax fault.
fn parsed(alloc: Global, tokens: &TokenList<'_>) -> Result<ParsedFile, SourceAnswer>
    requires spelled { IsSpelled tokens.now }
    ensures tree { IfOk result (λ functions. IsFile tokens.now functions) }
    ensures fault { (fault : Fault) (src : List ℕ) (first_line : ℕ) → result ≡ Err (SourceAnswer.Fault fault) → AreTokens src first_line tokens.now → IsSourceFault src first_line fault }
{
    match ParsedFile::parse(alloc, tokens) {
        Ok(file) => Ok(file),
        Err(ParseAnswer::Fault(fault)) => Err(SourceAnswer::Fault(SourceFault::Syntax(fault))),
        Err(ParseAnswer::NoMemory) => Err(SourceAnswer::NoMemory),
    }
}

/// A parsed file that has no static fault, or its first one.
fn faultless(file: ParsedFile) -> Result<ParsedFile, SourceAnswer>
    ensures tree { IfOk result (λ functions. functions ≡ file) }
    ensures none { IfOk result (λ functions. faults functions ≡ []) }
    ensures fault { (fault : Fault) (src : List ℕ) (first_line : ℕ) (tokens : List Tok) → result ≡ Err (SourceAnswer.Fault fault) → AreTokens src first_line tokens → IsFile tokens file → IsSourceFault src first_line fault }
{
    match static_fault(file.tree()) {
        Some(fault) => Err(SourceAnswer::Fault(SourceFault::Static(fault))),
        None => Ok(file),
    }
}

/// The tree of a source file, or its first fault.
fn tree_of(alloc: Global, src: &[u8], first_line: u32) -> Result<ParsedFile, SourceAnswer>
    requires line { 1 ≤ first_line }
    requires fits { first_line + length src.now < 2 ^ 32 }
    ensures tree { IfOk result (λ functions. IsGoodSource src.now first_line functions) }
    ensures fault { (fault : Fault) → result ≡ Err (SourceAnswer.Fault fault) → IsSourceFault src.now first_line fault }
{
    let tokens = spelled(alloc, src, first_line)?;
    let file = parsed(alloc, &tokens)?;
    faultless(file)
}

/// The tree of a source file that has no fault, or its first fault. The first line has the number `first_line`, which is 1 for a file
/// and more for an inline script.
///
/// Takes time that grows with the number of bytes, and goes no deeper than a fixed multiple of 64 calls.
///
/// Source: BrightScript Language Reference.
pub fn read_source(alloc: Global, src: &[u8], first_line: u32) -> Result<ParsedFile, SourceAnswer>
    requires line { 1 ≤ first_line }
    requires fits { first_line + length src.now < 2 ^ 32 }
    // What is answered is right.
    ensures tree { IfOk result (λ functions. IsGoodSource src.now first_line functions) }
    ensures fault { (fault : Fault) → result ≡ Err (SourceAnswer.Fault fault) → IsSourceFault src.now first_line fault }
    // What is right is answered, unless memory runs out.
    ensures all { (functions : List NamedFunction) → IsGoodSource src.now first_line functions → IsRead functions result }
    ensures first { (fault : Fault) → IsSourceFault src.now first_line fault → IsRefused fault result }
{
    one_tree();
    one_fault();
    never_both();
    tree_of(alloc, src, first_line)
}
