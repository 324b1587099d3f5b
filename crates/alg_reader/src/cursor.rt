//! The tokens that are left.

ghost use Rattle.std.specs.Prelude.{◌≡◌, ◌≢◌, ◌<◌, List, [], ◌∷◌, ◌++◌, MatchBool};
ghost use Rattle.alg_tokens.specs.declared.token.Token.{Token};
ghost use Rattle.alg_tokens.specs.declared.token.TokenKind.TheVariants.{End};
ghost use Rattle.alg_reader.specs.Forms.{a, alt};
ghost use Rattle.alg_reader.specs.Kinds.{variant};

use crate::kinds::same_kind;
use alg_tokens::{Token, TokenKind};
use std::alloc::{AllocError, AllocFailed};
use std::marker::Model;

/// Why reading stops: want of memory, or a token with which no statement begins.
#[derive(Debug, Drop)]
pub enum Fault {
    NoMemory,
    Unexpected(Token),
}

impl From<AllocError> for Fault {
    ghost use Rattle.alg_reader.specs.declared.cursor.Fault.TheVariants.{NoMemory};

    ghost from_gives = { λ _ e. e ≡ NoMemory };

    fn from(_error: AllocError) -> Self {
        Fault::NoMemory
    }
}

impl<T: Drop> From<AllocFailed<T>> for Fault {
    ghost use Rattle.alg_reader.specs.declared.cursor.Fault.TheVariants.{NoMemory};

    ghost from_gives = { λ _ e. e ≡ NoMemory };

    fn from(_error: AllocFailed<T>) -> Self {
        Fault::NoMemory
    }
}

/// Tokens that are left, the last of which stands for the end and stays.
#[derive(Drop)]
pub struct Cursor<'a> {
    rest: &'a [Token],
    end: Token,
}

impl<'a> Model for Cursor<'a> {
    ghost Value = { List Token };

    ghost view = { λ c. c.rest.now ++ c.end ∷ [] };

    ghost invariant = { λ c. c.end.kind ≡ End };
}

impl Cursor<'_> {
    ghost use Rattle.alg_reader.specs.Ahead.{Starts, Lacks, StartsEither, LacksBoth};
    ghost use Rattle.alg_reader.specs.Reading.{Reads};
    ghost use Rattle.alg_reader.specs.TermMeaning.{one};
    ghost use Rattle.alg_reader.specs.Grammar.{number};

    /// The tokens of a slice, and the end behind them.
    pub fn new(rest: &[Token], end: Token) -> Cursor<'_>
        requires { end.kind ≡ End }
        ensures { result ≡ rest.now ++ end ∷ [] }
    {
        Cursor { rest, end }
    }

    pub fn peek(&self) -> Token
        ensures { (more : List Token) × (self.now ≡ result ∷ more) }
    {
        match self.rest {
            [first, ..] => *first,
            [] => self.end,
        }
    }

    pub fn sees(&self, kind: TokenKind) -> bool
        ensures { MatchBool result (Starts (a kind) self.now) (Lacks (a kind) self.now) }
    {
        same_kind(self.peek().kind, kind)
    }

    pub fn sees_either(&self, kind: TokenKind, other: TokenKind) -> bool
        ensures { MatchBool result (StartsEither kind other self.now) (LacksBoth kind other self.now) }
    {
        self.sees(kind) || self.sees(other)
    }

    pub fn sees_number(&self) -> bool
        ensures { MatchBool result (Starts number self.now) (Lacks number self.now) }
    {
        self.sees(TokenKind::Number(0))
            || self.sees(TokenKind::Number(1))
            || self.sees(TokenKind::Number(2))
    }

    /// Takes the next token, which is to be of this kind.
    pub fn expect(&mut self, kind: TokenKind) -> Result<Token, Fault>
        requires { variant kind ≢ variant End }
        ensures { Reads (a kind) one self.old result self.new }
    {
        let token = self.peek();
        if !same_kind(token.kind, kind) {
            return Err(Fault::Unexpected(token));
        }
        self.advance();
        Ok(token)
    }

    /// Takes the next token, which is to be of one of these kinds.
    pub fn expect_either(&mut self, kind: TokenKind, other: TokenKind) -> Result<Token, Fault>
        requires differ { variant kind ≢ variant other }
        requires lexemes { (variant kind ≢ variant End) × (variant other ≢ variant End) }
        ensures { Reads (alt (a kind) (a other)) one self.old result self.new }
    {
        if self.sees(kind) {
            return Ok(self.take());
        }
        self.expect(other)
    }

    /// Takes the next token, which is to be a numeral.
    pub fn numeral(&mut self) -> Result<Token, Fault>
        ensures { Reads number one self.old result self.new }
    {
        let token = self.peek();
        if !self.sees_number() {
            return Err(Fault::Unexpected(token));
        }
        self.advance();
        Ok(token)
    }

    /// Takes the next token, which is not the end.
    pub fn take(&mut self) -> Token
        requires { (t : Token) (more : List Token) → self.old ≡ t ∷ more → variant t.kind ≢ variant End }
        ensures { self.old ≡ result ∷ self.new }
    {
        let token = self.peek();
        self.advance();
        token
    }

    fn advance(&mut self)
        requires { (t : Token) (more : List Token) → self.old ≡ t ∷ more → variant t.kind ≢ variant End }
        ensures { (t : Token) × (self.old ≡ t ∷ self.new) }
    {
        if let [_, rest @ ..] = self.rest {
            self.rest = rest;
        }
    }
}
