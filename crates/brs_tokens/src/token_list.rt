//! The tokens of a source file.
ghost use Rattle.std.specs.Prelude.{◌≡◌, ◌+◌, ◌<◌, ◌↔◌, [], ◌∷◌, ◌++◌, length, IsSome, IfSome, OnOk, OnErr, slice_get, Some};
ghost use Rattle.brs_tokens.specs.Tok.{tok_of, toks_of};

use crate::token::Token;
use chan_values::NoMemory;
use std::alloc::Global;
use std::marker::Model;

/// Tokens in the order of the source, which contracts see as the list of what each token is and where it stands.
#[derive(Drop)]
pub struct TokenList<'a> {
    tokens: Vec<Token<'a>>,
}

impl<'a> Model for TokenList<'a> {
    ghost use Rattle.std.specs.Prelude.{List};
    ghost use Rattle.brs_tokens.specs.Tok.{Tok, toks_of};

    ghost Value = { List Tok };

    ghost view = { λ t. toks_of t.tokens.items };
}

impl<'a> TokenList<'a> {
    /// No tokens. Takes no memory.
    pub fn new(alloc: Global) -> TokenList<'a>
        ensures { result ≡ [] }
    {
        TokenList {
            tokens: Vec::new(alloc),
        }
    }

    /// Adds a token at the end. After an `Err` nothing has changed.
    pub fn push(&mut self, item: Token<'a>) -> Result<(), NoMemory>
        ensures ok { OnOk result (self.new ≡ self.old ++ tok_of item.entry ∷ []) }
        ensures err { OnErr result (self.new ≡ self.old) }
    {
        match self.tokens.push(item) {
            Ok(()) => Ok(()),
            Err(_) => Err(NoMemory),
        }
    }

    /// The tokens. Takes no memory.
    pub fn as_slice(&self) -> &[Token<'a>]
        ensures { toks_of result.now ≡ self.now }
    {
        self.tokens.as_slice()
    }

    /// How many tokens there are. Takes no memory.
    pub fn len(&self) -> usize
        ensures { result ≡ length self.now }
    {
        self.tokens.len()
    }

    /// The token at a place, counted from 0, `None` exactly past the end. Takes no memory.
    pub fn get(&self, at: usize) -> Option<&Token<'a>>
        ensures found { IsSome result ↔ (at < length self.now) }
        ensures token { IfSome result (λ token. slice_get self.now at ≡ Some (tok_of token.now)) }
    {
        self.tokens.get(at)
    }
}
