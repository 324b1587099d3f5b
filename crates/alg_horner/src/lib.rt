//! Polynomials with integer coefficients over numbered atoms, as sparse Horner forms.
//!
//! A [`HornerPoly`] is one tree, its canonical [`Horner`] form, so that equal polynomials have equal
//! forms ([`laws::equal_maps`]). It has the limits of `alg_mono`'s polynomials, and a refusal comes
//! before anything is made: `Range` where the bound on the norm is too great, else `Degree`.
//! What a form is stands in `specs/Form.antt`, its polynomial in `specs/Maps.antt`.
#![tactic(auto)]

mod accumulate;
mod add;
mod build;
mod form;
mod horner;
pub mod laws;
mod measure;
mod poly;
mod power;
mod product;
mod scale;
mod sum;
mod terms;
mod times;

pub use alg_mono::{Mono, NoMemory, Overrun};
pub use horner::Horner;
pub use poly::HornerPoly;
