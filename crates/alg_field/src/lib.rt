//! Goals by field: whether the sides of an equation are equal wherever no denominator is zero.
//!
//! Each side becomes a fraction, a polynomial over a product of factors, and the two numerators over
//! the common factors are compared. [`decide_field`] gives the verdict of `IsFieldVerdict` in
//! alg_reify's `specs/FieldVerdict.antt`, with the conditions that it needs, and [`laws`] says what a
//! verdict means. The fractions of a term are those of alg_meaning's `specs/FractionsOver.antt`, at the
//! numbers of the equation's atoms.
#![tactic(auto)]

mod bounds;
mod common;
mod constants;
mod decide;
mod factors;
mod form;
mod fraction;
pub mod laws;
mod lists;
mod multiply;
mod rules;

pub use alg_horner::HornerPoly;
pub use alg_reify::{Mono, NoMemory, Stop};
pub use decide::{FieldAnswer, FieldDecision, decide_field};
