//! A product of polynomials that is bounded as one before it is made.

ghost use Rattle.std.specs.Prelude.{◌≡◌, ◌+◌, ◌*◌, ◌<◌, ◌≤◌, ◌∷◌, sum_by, IfOk, IfErr};
ghost use Rattle.alg_mono.specs.Monomials.{MAX_DEGREE};
ghost use Rattle.alg_mono.specs.NumberedPolynomials.{product_of};
ghost use Rattle.alg_mono.specs.Outcomes.{Outcome, norm_product, product_outcome};
ghost use Rattle.alg_mono.specs.Polynomials.{MAX, norm, poly_degree};
ghost use Rattle.alg_mono.specs.Refusals.{RefusesWith};
ghost use Rattle.alg_meaning.specs.FractionRules.{over_outcome};
ghost use Rattle.alg_reify.specs.FactorMaps.{product};
ghost use Rattle.alg_reify.specs.Making.{Gives};
ghost use Rattle.alg_reify.specs.Preparing.{times_each};
ghost use Rattle.alg_check.specs.Factors.{as_map};

use crate::Poly;
use crate::bounds::size_over;
use alg_mono::{NoMemory, Overrun};
use std::alloc::Global;

/// A product within the limits.
fn times(alloc: Global, p: &Poly, q: &Poly) -> Result<Poly, NoMemory>
    requires norms { norm p.now * norm q.now ≤ MAX }
    requires degrees { poly_degree p.now + poly_degree q.now ≤ MAX_DEGREE }
    ensures { IfOk result (λ r. r ≡ product_of p.now q.now) }
{
    match p.times(alloc, q) {
        Ok(product) => Ok(product),
        Err(Overrun::NoMemory) => Err(NoMemory),
        Err(_) => unreachable!(),
    }
}

/// A polynomial times each of these in turn.
fn times_all(alloc: Global, first: Poly, rest: &[Poly]) -> Result<Poly, NoMemory>
    requires some { 0 < norm_product rest.now }
    requires norms { norm first * norm_product rest.now ≤ MAX }
    requires degrees { poly_degree first + sum_by poly_degree rest.now ≤ MAX_DEGREE }
    ensures { IfOk result (λ r. r ≡ times_each first rest.now) }
{
    let mut product = first;
    for factor in rest {
        product = times(alloc, &product, factor)?;
    }
    Ok(product)
}

/// A polynomial times each of these, made as one product: `Range` or `Degree` exactly where that
/// breaks the rule.
pub(crate) fn product(alloc: Global, first: Poly, rest: &[Poly]) -> Result<Poly, Overrun>
    ensures product { IfOk result (λ r. r ≡ times_each first rest.now) }
    ensures fine { IfOk result (λ r. product_outcome (first ∷ rest.now) ≡ Outcome.Fine) }
    ensures refused { IfErr result (λ e. RefusesWith e (product_outcome (first ∷ rest.now))) }
{
    let size = size_over(&first, rest);
    if size.norm == 0 {
        return Ok(Poly::zero(alloc));
    }
    match size.fits() {
        Ok(()) => Ok(times_all(alloc, first, rest)?),
        Err(end) => Err(end),
    }
}

/// A polynomial times factors, made as one product.
pub(crate) fn over(alloc: Global, top: Poly, factors: &[Poly]) -> Result<Poly, Overrun>
    ensures { Gives (λ q. q) (product_of top (product (as_map factors.now)))
        (over_outcome top (as_map factors.now)) result }
{
    // Its contract says that the terms are those of a polynomial.
    top.terms();
    product(alloc, top, factors)
}
