//! The tokens of a statement, cut from a text as far as reading can go.

ghost use Rattle.std.specs.Prelude.{◌≡◌, ◌≤◌, ◌<◌, ◌^◌, ◌↔◌, length, IsTrue, IfOk};
ghost use Rattle.std.specs.Str.{IsCharBoundary};
ghost use Rattle.alg_terms.specs.Limits.{MAX_TEXT};
ghost use Rattle.alg_tokens.specs.declared.token.TokenKind.TheVariants as kinds;
ghost use Rattle.alg_tokens.specs.declared.token.Sign.TheVariants as signs;
ghost use Rattle.alg_reader.specs.Tokens.{open_with, IsOneTooMany, IsStatementCut};

use alg_terms::GREATEST_OPEN;
use alg_tokens::{Code, Refusal, Sign, Token, TokenKind, next_token};
use std::alloc::{AllocError, Global};

/// The tokens of a statement as far as reading can go, and the fault that it meets behind them.
#[derive(Debug, Drop)]
pub struct Cut {
    pub tokens: Vec<Token>,
    pub fault: Refusal,
}

/// Cuts the tokens of the statement at a byte: up to its `.`, to a fault of the cutting, to the end of
/// the text, or to a token at which reading stops.
pub fn cut_statement(alloc: Global, text: &str, at: u32) -> Result<Cut, AllocError>
    requires size { length text.now ≤ MAX_TEXT }
    requires boundary { IsCharBoundary text.now at }
    ensures { IfOk result (λ cut. IsStatementCut text.now at cut.tokens.items cut.fault) }
{
    let mut tokens = Vec::new(alloc);
    let mut stop = at;
    let mut depth = 0;
    'tokens: loop {
        let token = match next_token(text, stop) {
            Ok(token) => token,
            Err(fault) => return Ok(Cut { tokens, fault }),
        };
        let at = token.start;
        if is_end(token.kind) {
            let fault = Code::End.at(at);
            return Ok(Cut { tokens, fault });
        }
        tokens.push(token)?;
        if is_dot(token.kind) {
            let fault = Code::End.at(at);
            return Ok(Cut { tokens, fault });
        }
        if is_one_too_many(depth, token.kind) {
            let fault = Code::Nesting.at(at);
            return Ok(Cut { tokens, fault });
        }
        depth = open_with(depth, token.kind);
        stop = token.stop;
    }
}

fn is_end(kind: TokenKind) -> bool
    ensures { IsTrue result ↔ (kind ≡ kinds.End) }
{
    matches!(kind, TokenKind::End)
}

fn is_dot(kind: TokenKind) -> bool
    ensures { IsTrue result ↔ (kind ≡ kinds.Sign signs.Dot) }
{
    matches!(kind, TokenKind::Sign(Sign::Dot))
}

/// Whether a token is a parenthesis where as many are open as may be.
fn is_one_too_many(depth: u32, kind: TokenKind) -> bool
    ensures { IsTrue result ↔ IsOneTooMany depth kind }
{
    matches!(kind, TokenKind::Sign(Sign::ParenLeft)) && depth >= GREATEST_OPEN
}

/// How many parentheses are open after a token.
fn open_with(depth: u32, kind: TokenKind) -> u32
    requires { depth < 2 ^ 31 }
    ensures { result ≡ open_with depth kind }
{
    match kind {
        TokenKind::Sign(Sign::ParenLeft) => depth + 1,
        TokenKind::Sign(Sign::ParenRight) => depth.saturating_sub(1),
        _ => depth,
    }
}
