//! Products and powers.

ghost use Rattle.std.specs.Prelude.{◌≡◌, ◌*◌, ◌^◌, ◌≤◌, ◌↔◌, ◌∷◌, [], IfOk, IfErr, IsTrue};
ghost use Rattle.alg_mono.specs.NumberedPolynomials.{product_of, power_of};
ghost use Rattle.alg_mono.specs.Outcomes.{Outcome, product_outcome, power_outcome};
ghost use Rattle.alg_mono.specs.Polynomials.{MAX};
ghost use Rattle.alg_mono.specs.Refusals.{RefusesWith};

use crate::poly::{GREATEST_DEGREE, GREATEST_NORM, HornerPoly};
use crate::power::raise_any;
use crate::times::times;
use alg_mono::Overrun;
use std::alloc::Global;

/// Whether a product of norms is within the limit, tested without wrapping.
fn product_fits(a: u128, b: u128) -> bool
    ensures { IsTrue result ↔ (a * b ≤ MAX) }
{
    match a.checked_mul(b) {
        Some(bound) => bound <= GREATEST_NORM,
        None => false,
    }
}

/// Whether a power of a norm is within the limit, tested without wrapping.
fn power_fits(a: u128, n: u32) -> bool
    ensures { IsTrue result ↔ (a ^ n ≤ MAX) }
{
    match a.checked_pow(n) {
        Some(bound) => bound <= GREATEST_NORM,
        None => false,
    }
}

impl HornerPoly {
    /// The product.
    ///
    /// Where neither is 0, `Range` exactly where the product of the norms is over 2^127 - 1, and
    /// else `Degree` exactly where the degrees add up to more than 1,000.
    pub fn times(&self, alloc: Global, other: &HornerPoly) -> Result<HornerPoly, Overrun>
        ensures product { IfOk result (λ p. p ≡ product_of self.now other.now) }
        ensures fine { IfOk result (λ p.
            product_outcome (self.now ∷ other.now ∷ []) ≡ Outcome.Fine) }
        ensures refused { IfErr result (λ e.
            RefusesWith e (product_outcome (self.now ∷ other.now ∷ []))) }
    {
        if self.is_nothing() || other.is_nothing() {
            return Ok(HornerPoly::constant(0));
        }
        if !product_fits(self.size(), other.size()) {
            return Err(Overrun::Range);
        }
        if self.degree() + other.degree() > GREATEST_DEGREE {
            return Err(Overrun::Degree);
        }
        let form = times(alloc, &self.form, &other.form)?;
        Ok(HornerPoly {
            form: Box::into_inner(form),
        })
    }

    /// The power, by repeated products with `self`, at most 1,000. The power 0 is 1.
    ///
    /// Where `self` is not 0, `Range` exactly where the norm to the `n` is over 2^127 - 1, and else
    /// `Degree` exactly where `n` times the degree is over 1,000.
    pub fn power(&self, alloc: Global, n: u32) -> Result<HornerPoly, Overrun>
        ensures power { IfOk result (λ p. p ≡ power_of self.now n) }
        ensures fine { IfOk result (λ p. power_outcome self.now n ≡ Outcome.Fine) }
        ensures refused { IfErr result (λ e. RefusesWith e (power_outcome self.now n)) }
    {
        if n > 0 && self.is_nothing() {
            return Ok(HornerPoly::constant(0));
        }
        if !power_fits(self.size(), n) {
            return Err(Overrun::Range);
        }
        if u64::from(n) * u64::from(self.degree()) > u64::from(GREATEST_DEGREE) {
            return Err(Overrun::Degree);
        }
        let form = raise_any(alloc, &self.form, n)?;
        Ok(HornerPoly {
            form: Box::into_inner(form),
        })
    }
}
