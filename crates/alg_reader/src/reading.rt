//! One statement of a text.

ghost use Rattle.std.specs.Prelude.{◌≡◌, ◌≤◌, ◌∷◌, ◌++◌, [], ℕ, List, length, IfOk};
ghost use Rattle.std.specs.Str.{IsCharBoundary};
ghost use Rattle.alg_terms.specs.Limits.{MAX_TEXT};
ghost use Rattle.alg_tokens.specs.declared.token.Token.{Token};
ghost use Rattle.alg_reader.specs.Places.{MayStand};
ghost use Rattle.alg_reader.specs.Statements.{IsRead};
ghost use Rattle.alg_reader.specs.Tokens.{refusal};
ghost use Rattle.alg_reader.specs.WellRead.{IsWellRead};

use crate::cursor::{Cursor, Fault};
use crate::parts::HeldStatement;
use crate::place::Place;
use crate::raw::RawKind;
use crate::tokens::cut_statement;
use alg_tokens::{Code, Refusal, Token, TokenKind};
use std::alloc::{AllocError, Global};

/// A statement with its first byte and the byte behind its `.`, and the head of the first node in
/// postorder whose depth is over 1,000. In the place of such a node stands the literal 0 at its head.
#[derive(Debug, Drop)]
pub struct Raw {
    pub kind: RawKind,
    pub start: u32,
    pub stop: u32,
    pub too_deep: Option<u32>,
}

/// Why nothing is read: a fault of the text, or want of memory.
#[derive(Debug, Drop)]
pub enum FileEnd {
    Refused(Refusal),
    NoMemory,
}

impl From<AllocError> for FileEnd {
    ghost use Rattle.alg_reader.specs.declared.reading.FileEnd.TheVariants.{NoMemory};

    ghost from_gives = { λ _ e. e ≡ NoMemory };

    fn from(_error: AllocError) -> Self {
        FileEnd::NoMemory
    }
}

/// Reads the statement at a byte that may stand at a place, or the end of the text.
///
/// Refused with the first fault: code 2 or 3 where the text can't be cut, 4 at the first token with
/// which no statement begins, 5 where the text ends inside the statement, and 19 at a `(` where 200
/// are open. Takes time and memory in the statement's length.
pub fn read_statement(alloc: Global, text: &str, at: u32, place: Place) -> Result<Raw, FileEnd>
    requires size { length text.now ≤ MAX_TEXT }
    requires boundary { IsCharBoundary text.now at }
    ensures read { IsRead place text.now at result }
    ensures well_read { IfOk result (IsWellRead text.now at) }
    ensures may_stand { IfOk result (λ raw. MayStand place raw.kind) }
{
    let cut = cut_statement(alloc, text, at)?;
    let fault = cut.fault;
    let end = Token {
        kind: TokenKind::End,
        start: fault.at,
        stop: fault.at,
    };
    if cut.tokens.is_empty() && fault.code == Code::End.number() {
        return Ok(Raw {
            kind: RawKind::End,
            start: fault.at,
            stop: fault.at,
            too_deep: None,
        });
    }
    let (start, stop) = ends_of(&cut.tokens, at);
    let mut cursor = Cursor::new(&cut.tokens, end);
    match cursor.statement(alloc, place) {
        Ok(HeldStatement { kind, too_deep }) => Ok(Raw {
            kind,
            start,
            stop,
            too_deep,
        }),
        Err(Fault::NoMemory) => Err(FileEnd::NoMemory),
        Err(Fault::Unexpected(token)) => Err(FileEnd::Refused(refusal(token, fault))),
    }
}

/// The fault of a token at which the grammar is stuck: behind all tokens it is the one of the cutting.
fn refusal(token: Token, fault: Refusal) -> Refusal
    ensures { result ≡ refusal token fault }
{
    match token.kind {
        TokenKind::End => fault,
        _ => Code::Syntax.at(token.start),
    }
}

/// Where the first of the tokens starts and the last one stops.
fn ends_of(tokens: &[Token], at: u32) -> (u32, u32)
    ensures start { (t : Token) (more : List Token) → tokens.now ≡ t ∷ more → result.0 ≡ t.start }
    ensures stop { (before : List Token) (t : Token) → tokens.now ≡ before ++ t ∷ [] → result.1 ≡ t.stop }
{
    let start = match tokens.first() {
        Some(first) => first.start,
        None => at,
    };
    let stop = match tokens.last() {
        Some(last) => last.stop,
        None => at,
    };
    (start, stop)
}
