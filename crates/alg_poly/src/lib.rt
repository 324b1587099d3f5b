//! Polynomials with integer coefficients over numbered atoms.
//!
//! A [`Poly`] is the list of its terms, monomials with their coefficients, the greatest monomial
//! first in grevlex and no coefficient 0, so that equal polynomials have equal lists. Its norm, the
//! sum of the magnitudes of its coefficients, is at most 2^127 - 1, and its degree at most 1,000.
//! Norms and degrees are bounded before anything is made: `Range` is the answer where the bound on
//! the norm is too great, else `Degree` where that on the degree is.
//! The words of the contracts are those of `alg_mono`, in its `specs/NumberedPolynomials.antt`, and
//! those on divisors in `specs/Divisors.antt`.
#![tactic(auto)]

mod content;
mod difference;
mod form;
mod merge;
mod poly;
mod product;
mod sum;
mod terms;
#[cfg(test)]
mod tests;

pub use alg_mono::{Mono, MonoEnd, NoMemory, Overrun};
pub use content::greatest_divisor;
pub use poly::Poly;
