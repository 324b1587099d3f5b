//! The first token of small texts.

use crate::laws::{cut_from_anywhere, cut_goes_on, one_cutting, one_next};
use crate::{Refusal, Sign, Token, TokenKind, Word, next_token};
use alg_terms::GREATEST_TEXT;

fn token(kind: TokenKind, start: u32, stop: u32) -> Result<Token, Refusal> {
    Ok(Token { kind, start, stop })
}

fn fault(code: u8, at: u32) -> Result<Token, Refusal> {
    Err(Refusal { code, at })
}

fn number(value: i128, stop: u32) -> Result<Token, Refusal> {
    token(TokenKind::Number(value), 0, stop)
}

fn sign(sign: Sign, stop: u32) -> Result<Token, Refusal> {
    token(TokenKind::Sign(sign), 0, stop)
}

fn first_of(text: &str) -> Option<Result<Token, Refusal>> {
    if text.len() <= GREATEST_TEXT {
        Some(next_token(text, 0))
    } else {
        None
    }
}

#[test]
fn the_first_token(rt: HostRuntime) {
    // Each row: a text, and its first token with the bytes at which it starts and stops, or its fault.
    for (text, want) in [
        ("", token(TokenKind::End, 0, 0)),
        (" \t\r\n", token(TokenKind::End, 4, 4)),
        (
            "# to the end without a line feed",
            token(TokenKind::End, 32, 32),
        ),
        ("# x\r y\nz", token(TokenKind::Name, 7, 8)),
        ("##\n#\n.", token(TokenKind::Sign(Sign::Dot), 5, 6)),
        ("x' ", token(TokenKind::Name, 0, 2)),
        ("'x", fault(2, 0)),
        ("_", token(TokenKind::Name, 0, 1)),
        ("x+y", token(TokenKind::Name, 0, 1)),
        ("x1#y", token(TokenKind::Name, 0, 2)),
        ("<>=", sign(Sign::NotEqual, 2)),
        ("->", sign(Sign::Arrow, 2)),
        ("->>", sign(Sign::Arrow, 2)),
        ("- >", sign(Sign::Minus, 1)),
        ("--", sign(Sign::Minus, 1)),
        (" <", fault(2, 1)),
        ("<=", fault(2, 0)),
        (">", fault(2, 0)),
        ("0", number(0, 1)),
        ("007x", number(7, 3)),
        (
            "170141183460469231731687303715884105727",
            number(i128::MAX, 39),
        ),
        ("170141183460469231731687303715884105728", fault(3, 0)),
        (
            "00170141183460469231731687303715884105727",
            number(i128::MAX, 41),
        ),
        (" 1000000000000000000000000000000000000000", fault(3, 1)),
        ("α = 1", token(TokenKind::Name, 0, 2)),
        ("e\u{301}x", token(TokenKind::Name, 0, 4)),
        ("\u{301}", fault(2, 0)),
        ("\u{661}", fault(2, 0)),
        ("x\u{661}", token(TokenKind::Name, 0, 3)),
        ("€", fault(2, 0)),
        ("ring", token(TokenKind::Word(Word::Ring), 0, 4)),
        ("rings", token(TokenKind::Name, 0, 5)),
        ("ring'", token(TokenKind::Name, 0, 5)),
        ("Ring", token(TokenKind::Name, 0, 4)),
        ("semiring ", token(TokenKind::Word(Word::Semiring), 0, 8)),
    ] {
        assert!(rt; first_of(text) == Some(want), "{text}");
    }
}

#[test]
fn the_laws_are_called() {
    one_cutting();
    one_next();
    cut_from_anywhere();
    cut_goes_on();
}
