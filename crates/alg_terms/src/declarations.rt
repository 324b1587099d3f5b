//! What a file declares: sorts, morphisms and variables.

use crate::Name;

/// Which laws hold of a sort: those of commutative rings, of integral domains, or of fields.
/// Each kind has the laws of those before it.
#[derive(Clone, Copy, Debug, PartialEq, Eq, PartialOrd, Ord)]
pub enum Kind {
    Ring,
    Domain,
    Field,
}

/// A declared sort. Where `char0` is true, no sum of ones but the empty one is zero in it.
#[derive(Debug, Drop)]
pub struct Sort {
    pub name: Name,
    pub kind: Kind,
    pub char0: bool,
}

/// A declared ring morphism, its source and target by their numbers in the file.
#[derive(Debug, Drop)]
pub struct HomDecl {
    pub name: Name,
    pub from: u32,
    pub to: u32,
}

/// A declared variable, its sort by its number in the file.
#[derive(Debug, Drop)]
pub struct VarDecl {
    pub name: Name,
    pub sort: u32,
}
