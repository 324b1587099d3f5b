//! Polynomials of terms, and the laws that carry every answer `proved`.
//!
//! Nothing here runs. `specs/` defines the polynomial of a term, its fraction, its conditions and its
//! outcome; `laws` ties them to the values in every family of structures; `Free` is the family of the
//! polynomials.
#![tactic(auto)]

mod free;
pub mod laws;

pub use free::Free;

#[cfg(test)]
mod tests;
