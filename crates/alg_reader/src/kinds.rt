//! The kinds of tokens that the grammar tells apart.

ghost use Rattle.std.specs.Prelude.{◌≡◌, ◌↔◌, IsTrue};
ghost use Rattle.alg_reader.specs.Kinds.{variant};

use alg_tokens::{Sign, TokenKind, Word};

fn variant(kind: TokenKind) -> u8
    ensures { result ≡ variant kind }
{
    match kind {
        TokenKind::Name => 0,
        TokenKind::Number(0) => 1,
        TokenKind::Number(1) => 2,
        TokenKind::Number(_) => 3,
        TokenKind::End => 4,
        TokenKind::Sign(sign) => 5 + sign as u8,
        TokenKind::Word(word) => 18 + word as u8,
    }
}

/// Whether the grammar takes the two for one.
pub fn same_kind(kind: TokenKind, other: TokenKind) -> bool
    ensures { IsTrue result ↔ (variant other ≡ variant kind) }
{
    variant(kind) == variant(other)
}
