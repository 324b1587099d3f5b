//! A product of polynomials, whose bounds are tested before it is made.

ghost use Rattle.std.specs.Prelude.{◌≡◌, ◌+◌, ◌*◌, ◌<◌, ◌≤◌, ◌↔◌, [], ◌∷◌, false, sum_by, IfOk, IfErr, IsTrue};
ghost use Rattle.std.specs.Ordering.{nat_cmp};
ghost use Rattle.alg_mono.specs.Monomials.{MAX_DEGREE};
ghost use Rattle.alg_mono.specs.NumberedPolynomials.{product_of};
ghost use Rattle.alg_mono.specs.Outcomes.{Outcome, is_nothing, has_zero, norm_product, product_outcome};
ghost use Rattle.alg_mono.specs.Polynomials.{IsPoly, MAX, norm, poly_degree};
ghost use Rattle.alg_mono.specs.Refusals.{RefusesWith};
ghost use Rattle.alg_reify.specs.Preparing.{times_each};
ghost use Rattle.alg_nsatz.specs.Bounds.{IsBound};

use crate::{NoMemory, Poly};
use alg_reify::Overrun;
use std::alloc::Global;

/// The greatest norm of a polynomial.
const GREATEST_NORM: u128 = i128::MAX as u128;

/// The greatest degree of a polynomial.
const GREATEST_DEGREE: u32 = 1000;

/// Whether it is the polynomial 0.
fn is_zero(p: &Poly) -> bool
    ensures test { result ≡ is_nothing p.now }
    ensures sound { IsPoly nat_cmp p.now }
{
    p.terms().is_empty()
}

/// Whether one of these is the polynomial 0.
fn has_zero(ps: &[Poly]) -> bool
    ensures test { result ≡ has_zero ps.now }
    ensures some { result ≡ false → 0 < norm_product ps.now }
{
    for p in ps {
        if is_zero(p) {
            return true;
        }
    }
    false
}

/// A bound times the norm of a polynomial, where that is within the limit.
fn times_norm(bound: u128, p: &Poly) -> Option<u128>
    ensures { IsBound (bound * norm p.now) result }
{
    match bound.checked_mul(p.norm().unsigned_abs()) {
        Some(product) if product <= GREATEST_NORM => Some(product),
        _ => None,
    }
}

/// Whether the product of the norms is within the limit.
fn norms_fit(first: &Poly, rest: &[Poly]) -> bool
    requires { 0 < norm_product rest.now }
    ensures { IsTrue result ↔ (norm first.now * norm_product rest.now ≤ MAX) }
{
    let mut bound = first.norm().unsigned_abs();
    for p in rest {
        match times_norm(bound, p) {
            Some(product) => bound = product,
            None => return false,
        }
    }
    true
}

/// Whether the degrees add up to one within the limit.
fn degrees_fit(first: &Poly, rest: &[Poly]) -> bool
    ensures { IsTrue result ↔ (poly_degree first.now + sum_by poly_degree rest.now ≤ MAX_DEGREE) }
{
    let mut degree = first.degree();
    for p in rest {
        degree += p.degree();
        if degree > GREATEST_DEGREE {
            return false;
        }
    }
    true
}

/// A product within the limits.
fn times(alloc: Global, p: &Poly, q: &Poly) -> Result<Poly, NoMemory>
    requires norms { norm p.now * norm q.now ≤ MAX }
    requires degrees { poly_degree p.now + poly_degree q.now ≤ MAX_DEGREE }
    ensures { IfOk result (λ r. r ≡ product_of p.now q.now) }
{
    match p.times(alloc, q) {
        Ok(product) => Ok(product),
        Err(Overrun::NoMemory) => Err(NoMemory),
        Err(_) => unreachable!(),
    }
}

/// A polynomial times each of these, one after the other.
fn multiply(alloc: Global, first: Poly, rest: &[Poly]) -> Result<Poly, NoMemory>
    requires some { 0 < norm_product rest.now }
    requires norms { norm first * norm_product rest.now ≤ MAX }
    requires degrees { poly_degree first + sum_by poly_degree rest.now ≤ MAX_DEGREE }
    ensures { IfOk result (λ r. r ≡ times_each first rest.now) }
{
    let mut out = first;
    for p in rest {
        out = times(alloc, &out, p)?;
    }
    Ok(out)
}

/// A polynomial times each of these, made as one product.
///
/// Where none is zero, `Range` comes exactly where the product of the norms is over 2^127 - 1, else
/// `Degree` exactly where the degrees add up to more than 1,000.
pub(crate) fn product(alloc: Global, first: Poly, rest: &[Poly]) -> Result<Poly, Overrun>
    ensures product { IfOk result (λ r. r ≡ times_each first rest.now) }
    ensures fine { IfOk result (λ r. product_outcome (first ∷ rest.now) ≡ Outcome.Fine) }
    ensures refused { IfErr result (λ e. RefusesWith e (product_outcome (first ∷ rest.now))) }
{
    if is_zero(&first) || has_zero(rest) {
        return Ok(Poly::zero(alloc));
    }
    if !norms_fit(&first, rest) {
        return Err(Overrun::Range);
    }
    if !degrees_fit(&first, rest) {
        return Err(Overrun::Degree);
    }
    Ok(multiply(alloc, first, rest)?)
}
