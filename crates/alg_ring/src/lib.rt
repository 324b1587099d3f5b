//! Goals by ring: whether the two sides of an equation are one polynomial.
//!
//! [`decide_ring`] gives the verdict of `IsRingVerdict` in alg_reify's `specs/RingVerdict.antt`, and
//! [`laws`] says that an equation with the verdict Proved is right in every universe.
#![tactic(auto)]

mod decide;
pub mod laws;
#[cfg(test)]
mod tests;

pub use alg_horner::HornerPoly;
pub use alg_poly::Poly;
pub use alg_reify::{Mono, NoMemory, Stop};
pub use decide::{RingAnswer, RingDecision, decide_ring, to_poly};
