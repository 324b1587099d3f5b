//! Terms and statements as they were read, with the bytes of their names, numerals and heads.

use alg_terms::{Kind, Seq};
use sqlite_items::{Boxed, Items};

/// A slice of the text.
#[derive(Clone, Copy, PartialEq, Eq, Debug)]
pub struct Span {
    pub start: u32,
    pub stop: u32,
}

/// A numeral with its first byte.
#[derive(Clone, Copy, PartialEq, Eq, Debug)]
pub struct RawNumber {
    pub value: i128,
    pub at: u32,
}

/// A node with the byte of its head.
#[cycle(raw)]
#[derive(Debug, Drop)]
pub struct RawTerm {
    pub head: u32,
    pub node: RawNode,
}

#[cycle(raw)]
#[derive(Debug, Drop)]
pub enum RawNode {
    Var(Span),
    Int(i128),
    Neg(Boxed<RawTerm>),
    Add(Boxed<RawTerm>, Boxed<RawTerm>),
    Sub(Boxed<RawTerm>, Boxed<RawTerm>),
    Mul(Boxed<RawTerm>, Boxed<RawTerm>),
    Div(Boxed<RawTerm>, Boxed<RawTerm>),
    Pow(Boxed<RawTerm>, RawNumber),
    Hom(Span, Boxed<RawTerm>),
}

/// Two sides with the byte of the `=` or `<>` between them, and whether it is `<>`.
#[derive(Debug, Drop)]
pub struct RawEquation {
    pub left: RawTerm,
    pub relation: u32,
    pub nonzero: bool,
    pub right: RawTerm,
}

/// A use of a hypothesis under morphisms, the outermost first.
#[derive(Debug, Drop)]
pub struct RawUse {
    pub path: Seq<Span>,
    pub hyp: Span,
}

/// The method of a goal. An option of nsatz that is not written is None.
#[derive(Debug, Drop)]
pub enum RawMethod {
    Ring,
    Field,
    Nsatz {
        uses: Seq<RawUse>,
        power: Option<RawNumber>,
        limit: Option<RawNumber>,
    },
}

/// A monomial with its first byte. The monomial 1 has no factors.
#[cycle(monomials)]
#[derive(Debug, Drop)]
pub struct RawMono {
    pub start: u32,
    pub factors: Items<RawFactor>,
}

/// A factor: a variable or, where something stands in parentheses behind its name, a morphism on
/// that; with its exponent, if it is written.
#[cycle(monomials)]
#[derive(Debug, Drop)]
pub struct RawFactor {
    pub name: Span,
    pub of: Option<RawMono>,
    pub exponent: Option<RawNumber>,
}

/// An answer as it is written.
#[derive(Debug, Drop)]
pub enum RawAnswer {
    Proved {
        conditions: Seq<RawTerm>,
    },
    Certified {
        version: Option<RawNumber>,
        power: RawNumber,
        constants: Seq<RawNumber>,
    },
    No {
        at: RawMono,
        left: RawNumber,
        right: RawNumber,
    },
    ZeroDenominator {
        denominator: RawTerm,
    },
    NoneUpTo(RawNumber),
    GaveUp(RawNumber),
    Range,
    Degree,
    Atoms,
}

/// What a statement says, or that the text ends.
#[derive(Debug, Drop)]
pub enum RawKind {
    End,
    Sort {
        kind: Kind,
        name: Span,
        char0: bool,
    },
    Hom {
        name: Span,
        from: Span,
        to: Span,
    },
    Vars {
        names: Seq<Span>,
        sort: Span,
    },
    Hyp {
        name: Span,
        equation: RawEquation,
    },
    Goal {
        equation: RawEquation,
        method: RawMethod,
        method_at: u32,
    },
    Answer(RawAnswer),
    /// A line of a certificate: d times the line is a*m times line i less b*n times line j.
    Line {
        a: RawNumber,
        m: RawMono,
        i: RawNumber,
        b: RawNumber,
        n: RawMono,
        j: RawNumber,
        d: RawNumber,
    },
    /// A step of a certificate: d times the remainder is a times the one before less b*n times
    /// line j.
    Step {
        a: RawNumber,
        b: RawNumber,
        n: RawMono,
        j: RawNumber,
        d: RawNumber,
    },
}
