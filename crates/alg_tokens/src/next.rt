//! The next token of a text.

ghost use Rattle.std.specs.Prelude.{◌≡◌, ◌≤◌, ◌<◌, ◌+◌, length, slice_index, IfOk};
ghost use Rattle.std.specs.Str.{IsCharBoundary};
ghost use Rattle.alg_terms.specs.Limits.{MAX_TEXT};
ghost use Rattle.alg_terms.specs.Names.{IsSpelledAsName};
ghost use Rattle.alg_tokens.specs.Pieces.{Spells};
ghost use Rattle.alg_tokens.specs.Runs.{sign_of, BeginsNoBlank};
ghost use Rattle.alg_tokens.specs.Next.{IsNext, IsFirstToken, IsWithinMax};

use crate::code::Code;
use crate::scan::{blank_end, digit_len, name_len, starts_with_name, value};
use crate::token::{Refusal, Sign, Token, TokenKind};
use crate::word::reserved;

/// The first token at or after a byte; blanks and comments before it are passed over. At the end of
/// the text it is `End`. Refused with `Char` where no token begins after the blanks, and with `Number`
/// where a numeral over the greatest literal does, each at its first byte. The text may be cut at both
/// ends of the token. Takes no memory; reads each byte of the blanks and of the token once, and a name
/// that may be a reserved word once more.
pub fn next_token(text: &str, at: u32) -> Result<Token, Refusal>
    requires size { length text.now ≤ MAX_TEXT }
    requires boundary { IsCharBoundary text.now at }
    ensures next { IsNext text.now at result }
    ensures boundaries { IfOk result (λ t. IsCharBoundary text.now t.start × IsCharBoundary text.now t.stop) }
{
    let from = at as usize;
    let start = from + blank_end(&text[from..]);
    let rest = &text[start..];
    match first(rest) {
        Ok((kind, len)) => Ok(Token {
            kind,
            start: start as u32,
            stop: (start + len) as u32,
        }),
        Err(code) => Err(code.at(start as u32)),
    }
}

/// The token that begins a text, with its length, or the fault.
fn first(text: &str) -> Result<(TokenKind, usize), Code>
    requires { BeginsNoBlank text.now }
    ensures token { IsFirstToken text.now result }
    ensures boundary { IfOk result (λ found. IsCharBoundary text.now found.1) }
{
    let bytes = text.as_bytes();
    if text.is_empty() {
        return Ok((TokenKind::End, 0));
    }
    let digits = digit_len(bytes);
    if digits > 0 {
        return match value(&bytes[..digits]) {
            Some(number) => Ok((TokenKind::Number(number), digits)),
            None => Err(Code::Number),
        };
    }
    if starts_with_name(text) {
        let len = name_len(text);
        return Ok((name_kind(&text[..len]), len));
    }
    match sign_of(byte(bytes, 0), byte(bytes, 1)) {
        Some((sign, len)) => Ok((TokenKind::Sign(sign), len)),
        None => Err(Code::Char),
    }
}

/// A reserved word or a name.
fn name_kind(name: &str) -> TokenKind
    requires { IsSpelledAsName name.now }
    ensures spelled { Spells result name.now }
    ensures no_numeral { IsWithinMax result }
{
    match reserved(name) {
        Some(word) => TokenKind::Word(word),
        None => TokenKind::Name,
    }
}

fn byte(text: &[u8], at: usize) -> u8
    ensures { result ≡ slice_index text.now at }
{
    if at < text.len() { text[at] } else { 0 }
}

/// The longest sign that begins with these two bytes, with its length.
fn sign_of(first: u8, second: u8) -> Option<(Sign, usize)>
    ensures { result ≡ sign_of first second }
{
    match first {
        b'-' if second == b'>' => Some((Sign::Arrow, 2)),
        b'<' if second == b'>' => Some((Sign::NotEqual, 2)),
        b'.' => Some((Sign::Dot, 1)),
        b':' => Some((Sign::Colon, 1)),
        b',' => Some((Sign::Comma, 1)),
        b'=' => Some((Sign::Equal, 1)),
        b'(' => Some((Sign::ParenLeft, 1)),
        b')' => Some((Sign::ParenRight, 1)),
        b'+' => Some((Sign::Plus, 1)),
        b'-' => Some((Sign::Minus, 1)),
        b'*' => Some((Sign::Star, 1)),
        b'/' => Some((Sign::Slash, 1)),
        b'^' => Some((Sign::Caret, 1)),
        _ => None,
    }
}
