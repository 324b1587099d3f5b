//! Terms as they are read: a node that is too deep is never built.

ghost use Rattle.std.specs.Prelude.{◌≡◌, ◌<◌, ◌+◌, IfOk, None};
ghost use Rattle.alg_terms.specs.Limits.{MAX_DEPTH};
ghost use Rattle.alg_reader.specs.RawNodes as spec;
ghost use Rattle.alg_reader.specs.Parts as parts;

use crate::raw::{RawAnswer, RawKind, RawNode, RawNumber, RawTerm, Span};
use alg_terms::GREATEST_DEPTH;
use alg_tokens::{Sign, Token, TokenKind};
use sqlite_items::Boxed;
use std::alloc::{AllocError, Global};

/// What is kept of a term, its depth as far as it counts, and the head of its first too deep node.
#[derive(Debug, Drop)]
pub struct HeldTerm {
    pub term: RawTerm,
    pub depth: u32,
    pub too_deep: Option<u32>,
}

/// What is kept of an answer, and the head of its first too deep node.
#[derive(Debug, Drop)]
pub struct HeldAnswer {
    pub answer: RawAnswer,
    pub too_deep: Option<u32>,
}

/// What is kept of a statement, and the head of its first too deep node.
#[derive(Debug, Drop)]
pub struct HeldStatement {
    pub kind: RawKind,
    pub too_deep: Option<u32>,
}

/// The literal 0 in the place of a node that is too deep.
fn left_out(head: u32, too_deep: Option<u32>) -> HeldTerm
    ensures { result ≡ parts.left_out head too_deep }
{
    let node = RawNode::Int(0);
    HeldTerm {
        term: RawTerm { head, node },
        depth: GREATEST_DEPTH + 1,
        too_deep: too_deep.or(Some(head)),
    }
}

/// A node that is not too deep.
fn over(head: u32, node: RawNode, below: u32, too_deep: Option<u32>) -> HeldTerm
    requires { below < MAX_DEPTH }
    ensures { result ≡ parts.over head node below too_deep }
{
    HeldTerm {
        term: RawTerm { head, node },
        depth: below + 1,
        too_deep,
    }
}

fn joined(
    alloc: Global,
    op: TokenKind,
    left: RawTerm,
    right: RawTerm,
) -> Result<RawNode, AllocError>
    ensures { IfOk result (λ n. n ≡ spec.joined op left right) }
{
    let left = Boxed::new(alloc, left)?;
    let right = Boxed::new(alloc, right)?;
    Ok(match op {
        TokenKind::Sign(Sign::Plus) => RawNode::Add(left, right),
        TokenKind::Sign(Sign::Minus) => RawNode::Sub(left, right),
        TokenKind::Sign(Sign::Star) => RawNode::Mul(left, right),
        _ => RawNode::Div(left, right),
    })
}

/// An operator's node.
pub fn binary(
    alloc: Global,
    op: Token,
    left: HeldTerm,
    right: HeldTerm,
) -> Result<HeldTerm, AllocError>
    ensures { IfOk result (λ p. p ≡ parts.binary_part op left right) }
{
    let below = left.depth.max(right.depth);
    let too_deep = left.too_deep.or(right.too_deep);
    if below >= GREATEST_DEPTH {
        return Ok(left_out(op.start, too_deep));
    }
    let node = joined(alloc, op.kind, left.term, right.term)?;
    Ok(over(op.start, node, below, too_deep))
}

pub fn number_of(kind: TokenKind) -> i128
    ensures { result ≡ spec.number_of kind }
{
    match kind {
        TokenKind::Number(n) => n,
        _ => 0,
    }
}

/// The bytes of a token.
pub fn span_of(token: Token) -> Span
    ensures { result ≡ spec.span_of token }
{
    Span {
        start: token.start,
        stop: token.stop,
    }
}

/// A numeral with its place.
pub fn numeral_of(token: Token) -> RawNumber
    ensures { result ≡ spec.numeral_of token }
{
    RawNumber {
        value: number_of(token.kind),
        at: token.start,
    }
}

pub fn literal(token: Token) -> HeldTerm
    ensures { result ≡ parts.leaf_part (spec.literal token) }
{
    over(token.start, RawNode::Int(number_of(token.kind)), 0, None)
}

pub fn variable(token: Token) -> HeldTerm
    ensures { result ≡ parts.leaf_part (spec.variable token) }
{
    over(token.start, RawNode::Var(span_of(token)), 0, None)
}

pub fn image(alloc: Global, name: Token, of: HeldTerm) -> Result<HeldTerm, AllocError>
    ensures { IfOk result (λ p. p ≡ parts.image_part name of) }
{
    if of.depth >= GREATEST_DEPTH {
        return Ok(left_out(name.start, of.too_deep));
    }
    let node = RawNode::Hom(span_of(name), Boxed::new(alloc, of.term)?);
    Ok(over(name.start, node, of.depth, of.too_deep))
}

fn opposite(alloc: Global, head: u32, of: HeldTerm) -> Result<HeldTerm, AllocError>
    ensures { IfOk result (λ p. p ≡ parts.opposite_part head of) }
{
    if of.depth >= GREATEST_DEPTH {
        return Ok(left_out(head, of.too_deep));
    }
    let node = RawNode::Neg(Boxed::new(alloc, of.term)?);
    Ok(over(head, node, of.depth, of.too_deep))
}

pub fn power_of(
    alloc: Global,
    caret: Token,
    base: HeldTerm,
    exponent: Token,
) -> Result<HeldTerm, AllocError>
    ensures { IfOk result (λ p. p ≡ parts.power_part caret base exponent) }
{
    if base.depth >= GREATEST_DEPTH {
        return Ok(left_out(caret.start, base.too_deep));
    }
    let node = RawNode::Pow(Boxed::new(alloc, base.term)?, numeral_of(exponent));
    Ok(over(caret.start, node, base.depth, base.too_deep))
}

/// The opposite of a term once for each head, the last head innermost.
pub fn opposites(alloc: Global, heads: &[u32], of: HeldTerm) -> Result<HeldTerm, AllocError>
    ensures { IfOk result (λ p. p ≡ parts.opposites_part heads.now of) }
{
    let mut part = of;
    let mut left = heads.len();
    while left > 0 {
        left -= 1;
        part = opposite(alloc, heads[left], part)?;
    }
    Ok(part)
}
