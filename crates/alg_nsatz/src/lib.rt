//! Goals by nsatz: whether a power of a goal's difference is zero where its used hypotheses hold.
//!
//! [`prepare`] makes the polynomials that a search is given, and [`decide_nsatz`] gives the verdict of
//! `IsNsatzVerdict` in `specs/Verdict.antt`, with a certificate where there is one.
#![tactic(auto)]

mod decide;
pub mod laws;
mod preparing;
mod product;
#[cfg(test)]
mod tests;

pub use alg_lines::Cert;
pub use alg_poly::Poly;
pub use alg_reify::{NoMemory, Stop};
pub use decide::{NsatzAnswer, decide_nsatz};
pub use preparing::{Task, prepare};
