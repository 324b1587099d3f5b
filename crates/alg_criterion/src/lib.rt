//! Buchberger's theorem over the search machine: where the search ends with nothing left to do, no
//! certificate exists.
//!
//! What a combination is stands in `specs/Combinations.antt`, and the laws in `specs/Laws.antt`.
#![tactic(auto)]

pub mod laws;
mod sure;

pub use alg_groebner::Verdict;
pub use alg_mono::Overrun;
pub use alg_poly::Poly;
pub use sure::search_sure;

#[cfg(test)]
mod tests;
