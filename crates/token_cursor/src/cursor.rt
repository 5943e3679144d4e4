//! A cursor over the tokens of a file.
ghost use Rattle.std.specs.Prelude.{◌≡◌, ◌<◌, Bool, List, drop, length};
ghost use Rattle.brs_tokens.specs.Tok.{tok_of};
ghost use Rattle.grammar_rules.specs.declared.word.Word.{Word};
ghost use Rattle.grammar_rules.specs.Reading as reading;
ghost use Rattle.grammar_rules.specs.Words as spec;
ghost use Rattle.token_cursor.specs.declared.cursor.ParseError;
ghost use Rattle.token_cursor.specs.Reads.{Gives, Reads};
ghost use Rattle.token_cursor.specs.Turns.{Tests};

use brs_tokens::{Token, TokenList};
use grammar_rules::{Word, is_name, is_word, same_word, word_of};
use std::alloc::{AllocError, AllocFailed};
use std::marker::Model;

/// The tokens that are not read yet, which contracts see as their list.
#[derive(Drop)]
pub struct Cursor<'t, 'a> {
    tokens: &'t TokenList<'a>,
    /// How many tokens are read.
    at: usize,
    /// The word of the next token.
    word: Word,
}

/// Why a form is not read.
#[derive(Clone, Copy, Debug, PartialEq, Eq)]
pub enum ParseError {
    /// The form doesn't go on with the token at which the cursor stands.
    Fault,
    /// Memory ran out.
    NoMemory,
}

impl From<AllocError> for ParseError {
    ghost use Rattle.std.specs.Prelude.{◌≡◌};
    ghost use Rattle.token_cursor.specs.declared.cursor.ParseError.TheVariants.{NoMemory};

    ghost from_gives = { λ _ e. e ≡ NoMemory };

    fn from(_: AllocError) -> ParseError {
        ParseError::NoMemory
    }
}

impl<T: Drop> From<AllocFailed<T>> for ParseError {
    ghost use Rattle.std.specs.Prelude.{◌≡◌};
    ghost use Rattle.token_cursor.specs.declared.cursor.ParseError.TheVariants.{NoMemory};

    ghost from_gives = { λ _ e. e ≡ NoMemory };

    fn from(_: AllocFailed<T>) -> ParseError {
        ParseError::NoMemory
    }
}

impl<'t, 'a> Model for Cursor<'t, 'a> {
    ghost use Rattle.std.specs.Prelude.{◌≡◌, List, drop};
    ghost use Rattle.std.specs.Coded.{coded_list};
    ghost use Rattle.brs_tokens.specs.Tok.{Tok};
    ghost use Rattle.grammar_rules.specs.Words.{next};

    ghost Value = { List Tok };

    ghost view = { λ c. drop c.at c.tokens.now };

    ghost invariant = { λ c. c.word ≡ next (drop c.at c.tokens.now) };
}

/// The word of the token at a place, or of the end.
fn word_at(tokens: &TokenList<'_>, at: usize) -> Word
    ensures { result ≡ spec.next (drop at tokens.now) }
{
    match tokens.get(at) {
        Some(token) => word_of(token),
        None => Word::End,
    }
}

impl<'t, 'a> Cursor<'t, 'a> {
    /// A cursor at the first token.
    pub fn new(tokens: &'t TokenList<'a>) -> Cursor<'t, 'a>
        ensures { result ≡ tokens.now }
    {
        Cursor {
            tokens,
            at: 0,
            word: word_at(tokens, 0),
        }
    }

    /// How many tokens are not read yet.
    pub fn left(&self) -> usize
        ensures { result ≡ length self.now }
    {
        self.tokens.len().saturating_sub(self.at)
    }

    /// The word of the next token, or `Word::End` where none is left.
    pub fn peek(&self) -> Word
        ensures { result ≡ spec.next self.now }
    {
        self.word
    }

    /// The next token, where its word passes.
    fn take(&mut self, passes: bool) -> Result<Token<'a>, ParseError>
        ensures { (test : Word → Bool) → passes ≡ test (spec.next self.old) → Gives tok_of (reading.one test self.old) result self.new }
    {
        let tokens = self.tokens;
        let count = tokens.len();
        match tokens.get(self.at) {
            None => Err(ParseError::Fault),
            Some(token) => {
                if !passes {
                    return Err(ParseError::Fault);
                }
                let at = self.at + 1;
                self.at = at;
                self.word = word_at(tokens, at);
                Ok(*token)
            }
        }
    }

    /// The next token, if it is this word.
    pub fn expect(&mut self, word: Word) -> Result<Token<'a>, ParseError>
        ensures { Gives tok_of (reading.one (spec.same_word word) self.old) result self.new }
    {
        let passes = same_word(word, self.peek());
        self.take(passes)
    }

    /// The next token, if it is a name.
    pub fn expect_name(&mut self) -> Result<Token<'a>, ParseError>
        ensures { Gives tok_of (reading.one spec.is_name self.old) result self.new }
    {
        let passes = is_name(self.peek());
        self.take(passes)
    }

    /// The next token, if it is a name or a keyword.
    pub fn expect_word(&mut self) -> Result<Token<'a>, ParseError>
        ensures { Gives tok_of (reading.one spec.is_word self.old) result self.new }
    {
        let passes = is_word(self.peek());
        self.take(passes)
    }

    /// The next token, if its word passes the test.
    pub fn expect_if<B: Fn(Word) -> bool>(&mut self, passes: B) -> Result<Token<'a>, ParseError>
        requires { B.IsAlwaysCallable passes }
        ensures { (test : Word → Bool) → Tests (B.post passes) test → Gives tok_of (reading.one test self.old) result self.new }
    {
        let passes = passes(self.peek());
        self.take(passes)
    }

    /// Nothing, if no token is left.
    #[tactic(auto, unfolding(grammar_rules::specs::Reading::end))]
    pub fn end(&self) -> Result<(), ParseError>
        ensures { Reads (reading.end self.now) result self.now }
    {
        if self.left() == 0 {
            Ok(())
        } else {
            Err(ParseError::Fault)
        }
    }

    /// The answer where a form doesn't begin with the next token.
    pub fn refuse(&self) -> ParseError
        ensures { result ≡ ParseError.Fault }
    {
        ParseError::Fault
    }
}
