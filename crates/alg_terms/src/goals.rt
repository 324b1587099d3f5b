//! Equations, hypotheses and goals.

use crate::{Name, Seq, Term};

/// Two terms and the sort in which they are compared.
#[derive(Debug, Drop)]
pub struct Equation {
    pub sort: u32,
    pub left: Term,
    pub right: Term,
}

/// A hypothesis. It says that the sides are equal, or where `nonzero` is true that they differ.
#[derive(Debug, Drop)]
pub struct Hyp {
    pub name: Name,
    pub equation: Equation,
    pub nonzero: bool,
}

/// A hypothesis under a path of morphisms, the outermost first.
#[derive(Debug, Drop)]
pub struct Use {
    pub path: Seq<u32>,
    pub hyp: u32,
}

/// How a goal is to be decided.
#[derive(Debug, Drop)]
pub enum Method {
    ByRing,
    ByField,
    /// By a certificate over the used hypotheses for a power of the goal of at most `power`, found
    /// within `limit` counted moves.
    ByNsatz {
        uses: Seq<Use>,
        power: u32,
        limit: u32,
    },
}

/// An equation with the method that is to decide it.
#[derive(Debug, Drop)]
pub struct Goal {
    pub equation: Equation,
    pub method: Method,
}
