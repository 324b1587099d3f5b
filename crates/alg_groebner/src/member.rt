//! A line with its polynomial.

use alg_poly::Poly;

/// A line that has its polynomial: a basis line or the current one.
#[derive(Debug, Drop)]
pub(crate) struct Member {
    pub(crate) number: u32,
    pub(crate) poly: Poly,
}
