//! A place in a token list, from which the first form is read.
ghost use Rattle.std.specs.Prelude.{◌≡◌, ◌↔◌, ◌∷◌, [], length, IsTrue, MatchResult};
ghost use Rattle.brs_tokens.specs.Tok.{tok_of, toks_of};
ghost use Rattle.first_form.specs.declared.cursor.Stop;
ghost use Rattle.first_form.specs.FirstForm as form;
ghost use Rattle.first_form.specs.FirstReading as reading;
ghost use Rattle.first_form.specs.FirstStop.{Reads};

use crate::words::{is_keyword, is_named, is_newline, is_sign};
use brs_tokens::{Token, TokenKind};
use chan_values::NoMemory;
use std::alloc::{AllocError, AllocFailed};
use std::marker::Model;

/// Why a reading stops.
#[derive(Clone, Copy, Debug, PartialEq, Eq)]
pub(crate) enum Stop {
    /// The tokens are not of the first form.
    NotFirst,
    NoMemory,
}

impl From<NoMemory> for Stop {
    ghost use Rattle.std.specs.Prelude.{◌≡◌};
    ghost use Rattle.first_form.specs.declared.cursor.Stop.TheVariants as stop;

    ghost from_gives = { λ _ e. e ≡ stop.NoMemory };

    fn from(_: NoMemory) -> Stop {
        Stop::NoMemory
    }
}

impl From<AllocError> for Stop {
    ghost use Rattle.std.specs.Prelude.{◌≡◌};
    ghost use Rattle.first_form.specs.declared.cursor.Stop.TheVariants as stop;

    ghost from_gives = { λ _ e. e ≡ stop.NoMemory };

    fn from(_: AllocError) -> Stop {
        Stop::NoMemory
    }
}

/// The tokens that are not read yet.
#[derive(Drop)]
pub(crate) struct Cursor<'t, 'a> {
    rest: &'t [Token<'a>],
}

impl<'t, 'a> Model for Cursor<'t, 'a> {
    ghost use Rattle.std.specs.Prelude.{List};
    ghost use Rattle.brs_tokens.specs.Tok.{Tok, toks_of};

    ghost Value = { List Tok };

    ghost view = { λ c. toks_of c.rest.now };
}

impl<'t, 'a> Cursor<'t, 'a> {
    pub(crate) fn new(rest: &'t [Token<'a>]) -> Cursor<'t, 'a>
        ensures { result ≡ toks_of rest.now }
    {
        Cursor { rest }
    }

    pub(crate) fn left(&self) -> usize
        ensures { result ≡ length self.now }
    {
        self.rest.len()
    }

    pub(crate) fn is_at_end(&self) -> bool
        ensures { IsTrue result ↔ (self.now ≡ []) }
    {
        self.rest.is_empty()
    }

    /// The next token, which is then read.
    pub(crate) fn next(&mut self) -> Result<Token<'a>, Stop>
        ensures { MatchResult result
            (λ t. self.old ≡ tok_of t ∷ self.new)
            (λ e. (e ≡ Stop.NotFirst) × (self.old ≡ [])) }
    {
        let ahead = self.rest;
        let [token, rest @ ..] = ahead else {
            return Err(Stop::NotFirst);
        };
        self.rest = rest;
        Ok(*token)
    }

    pub(crate) fn newline(&mut self) -> Result<(), Stop>
        ensures { Reads (reading.one (form.the form.is_newline) self.old) result self.new }
    {
        let token = self.next()?;
        if !is_newline(&token) {
            return Err(Stop::NotFirst);
        }
        Ok(())
    }

    pub(crate) fn keyword(&mut self, word: &[u8]) -> Result<(), Stop>
        ensures { Reads (reading.one (form.the (form.is_keyword word.now)) self.old) result self.new }
    {
        let token = self.next()?;
        if !is_keyword(&token, word) {
            return Err(Stop::NotFirst);
        }
        Ok(())
    }

    pub(crate) fn named(&mut self, word: &[u8]) -> Result<(), Stop>
        ensures { Reads (reading.one (form.the (form.is_named word.now)) self.old) result self.new }
    {
        let token = self.next()?;
        if !is_named(&token, word) {
            return Err(Stop::NotFirst);
        }
        Ok(())
    }

    pub(crate) fn sign(&mut self, spelling: &[u8]) -> Result<(), Stop>
        ensures { Reads (reading.one (form.the (form.is_sign spelling.now)) self.old) result self.new }
    {
        let token = self.next()?;
        if !is_sign(&token, spelling) {
            return Err(Stop::NotFirst);
        }
        Ok(())
    }

    pub(crate) fn is_at_newline(&self) -> bool
        ensures { result ≡ reading.at form.is_newline self.now }
    {
        match self.rest {
            [token, ..] => is_newline(token),
            [] => false,
        }
    }

    pub(crate) fn is_at_name(&self) -> bool
        ensures { result ≡ reading.at form.is_name self.now }
    {
        match self.rest {
            [token, ..] => matches!(token.kind, TokenKind::Name),
            [] => false,
        }
    }

    pub(crate) fn is_at_text(&self) -> bool
        ensures { result ≡ reading.at form.is_text self.now }
    {
        match self.rest {
            [token, ..] => matches!(token.kind, TokenKind::Text),
            [] => false,
        }
    }

    pub(crate) fn is_at_keyword(&self, word: &[u8]) -> bool
        ensures { result ≡ reading.at (form.is_keyword word.now) self.now }
    {
        match self.rest {
            [token, ..] => is_keyword(token, word),
            [] => false,
        }
    }

    pub(crate) fn is_at_sign(&self, spelling: &[u8]) -> bool
        ensures { result ≡ reading.at (form.is_sign spelling.now) self.now }
    {
        match self.rest {
            [token, ..] => is_sign(token, spelling),
            [] => false,
        }
    }
}
