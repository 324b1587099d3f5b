//! Terms over declared sorts, and the files of declarations and goals that hold them.
//!
//! A term is a tree and a file is lists of plain data: contracts compare them by `≡`. What it is
//! for a file to be valid is defined in `specs/Valid.antt`, over the sorts of `specs/Sorts.antt`,
//! the names of `specs/Names.antt` and the numbers of `specs/Limits.antt`.
#![tactic(auto)]

mod declarations;
mod file;
mod goals;
pub mod laws;
mod limits;
mod name;
mod seq;
mod term;

pub use declarations::{HomDecl, Kind, Sort, VarDecl};
pub use file::{File, Statement};
pub use goals::{Equation, Goal, Hyp, Method, Use};
pub use limits::{
    GREATEST_DEPTH, GREATEST_EXPONENT, GREATEST_LIMIT, GREATEST_LITERAL, GREATEST_OPEN,
    GREATEST_POWER, GREATEST_TEXT, GREATEST_USES, LEAST_LIMIT, LEAST_POWER, USUAL_LIMIT,
    USUAL_POWER,
};
pub use name::Name;
pub use seq::Seq;
pub use std::alloc::AllocError as NoMemory;
pub use term::{Atom, Term, copy, depth, same};

#[cfg(test)]
mod tests;
