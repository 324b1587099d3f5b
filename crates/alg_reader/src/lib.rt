//! The statements of a text.
//!
//! `read_statement` gives the statement at a byte of a text, its end, or the first fault. The words of
//! its contract are in `specs/Statements.antt`, over the grammar of `specs/Grammar.antt`.
#![tactic(auto)]

mod answers;
mod certificates;
mod cursor;
mod format;
mod kinds;
pub mod laws;
mod monomials;
mod parts;
mod place;
mod raw;
mod reading;
mod statements;
mod terms;
mod tokens;
mod uses;

pub use place::Place;
pub use raw::{
    RawAnswer, RawEquation, RawFactor, RawKind, RawMethod, RawMono, RawNode, RawNumber, RawTerm,
    RawUse, Span,
};
pub use reading::{FileEnd, Raw, read_statement};
