//! Files: declarations and goals by their numbers, in an order.

use crate::{Goal, HomDecl, Hyp, Seq, Sort, VarDecl};

/// One statement of a file, by the numbers of what it declares.
#[derive(Clone, Copy, Debug, PartialEq, Eq)]
pub enum Statement {
    Sort(u32),
    Hom(u32),
    /// The variables from `first` on, `count` of them.
    Vars { first: u32, count: u32 },
    Hyp(u32),
    Goal(u32),
}

/// Declarations and goals, numbered from 0 in each list, with the order of their statements.
#[derive(Debug, Drop)]
pub struct File {
    pub sorts: Seq<Sort>,
    pub homs: Seq<HomDecl>,
    pub vars: Seq<VarDecl>,
    pub hyps: Seq<Hyp>,
    pub goals: Seq<Goal>,
    pub order: Seq<Statement>,
}
