//! Products, powers and multiples.

ghost use Rattle.std.specs.Prelude.{◌≡◌, ◌+◌, ◌*◌, ◌^◌, ◌≤◌, ◌↔◌, [], ◌∷◌, IfOk, IfErr, IsTrue};
ghost use Rattle.std.specs.Int.RustNames.{unsigned_abs};
ghost use Rattle.std.specs.Ordering.{nat_cmp};
ghost use Rattle.alg_mono.specs.Monomials.{MAX_DEGREE, degree};
ghost use Rattle.alg_mono.specs.Numbers.{integers};
ghost use Rattle.alg_mono.specs.Outcomes.{Outcome, product_outcome, power_outcome, scale_outcome};
ghost use Rattle.alg_mono.specs.Polynomials.{IsPoly, IsPolynomial, MAX, norm, poly_degree};
ghost use Rattle.alg_mono.specs.Refusals.{RefusesWith};
ghost use Rattle.alg_mono.specs.NumberedPolynomials.{row_of, product_of, power_of, multiple_of};

use crate::NoMemory;
use crate::merge::merge_moved;
use crate::poly::{GREATEST_DEGREE, GREATEST_NORM, Poly};
use crate::terms::norm_of;
use alg_mono::terms::Term;
use alg_mono::{Mono, MonoEnd, Overrun};
use std::alloc::Global;

/// Whether a product of norms is within the limit, tested without wrapping.
fn product_fits(a: u128, b: u128) -> bool
    ensures { IsTrue result ↔ (a * b ≤ MAX) }
{
    match a.checked_mul(b) {
        Some(bound) => bound <= GREATEST_NORM,
        None => false,
    }
}

/// Whether a power of a norm is within the limit, tested without wrapping.
fn power_fits(a: u128, n: u32) -> bool
    ensures { IsTrue result ↔ (a ^ n ≤ MAX) }
{
    match a.checked_pow(n) {
        Some(bound) => bound <= GREATEST_NORM,
        None => false,
    }
}

/// A coefficient and a monomial times each term.
fn row(alloc: Global, m: &Mono, c: i128, terms: &[Term]) -> Result<Vec<Term>, NoMemory>
    requires norms { unsigned_abs c * norm terms.now ≤ MAX }
    requires degrees { degree m.now + poly_degree terms.now ≤ MAX_DEGREE }
    ensures { IfOk result (λ v. v.items ≡ row_of m.now c terms.now) }
{
    let mut out = Vec::new(alloc);
    for term in terms {
        match m.times(alloc, &term.0) {
            Ok(product) => out.push((product, c * term.1))?,
            Err(MonoEnd::Degree) => unreachable!(),
            Err(MonoEnd::NoMemory) => return Err(NoMemory),
        }
    }
    Ok(out)
}

/// The product of two lists of terms: the sum of the products of both halves of the first list.
fn multiply(alloc: Global, a: &[Term], b: &[Term]) -> Result<Vec<Term>, NoMemory>
    requires sound_a { IsPolynomial nat_cmp integers a.now }
    requires sound_b { IsPolynomial nat_cmp integers b.now }
    requires norms { norm a.now * norm b.now ≤ MAX }
    requires degrees { poly_degree a.now + poly_degree b.now ≤ MAX_DEGREE }
    ensures { IfOk result (λ v. v.items ≡ product_of a.now b.now) }
{
    if a.is_empty() {
        return Ok(Vec::new(alloc));
    }
    if a.len() == 1 {
        let term = &a[0];
        return row(alloc, &term.0, term.1, b);
    }
    let (front, back) = a.split_at(a.len() / 2);
    let front = multiply(alloc, front, b)?;
    let back = multiply(alloc, back, b)?;
    merge_moved(alloc, front, back)
}

/// The power of a list of terms: of one term by squaring, else by products with the list. Of the
/// others no more than 126 factors keep the limit on norms.
fn raise(alloc: Global, terms: &[Term], n: u32) -> Result<Vec<Term>, NoMemory>
    requires sound { IsPolynomial nat_cmp integers terms.now }
    requires norms { norm terms.now ^ n ≤ MAX }
    requires degrees { n * poly_degree terms.now ≤ MAX_DEGREE }
    ensures { IfOk result (λ v. v.items ≡ power_of terms.now n) }
{
    if n == 0 {
        let mut one = Vec::new(alloc);
        one.push((Mono::one(alloc), 1))?;
        return Ok(one);
    }
    if terms.len() > 1 || n % 2 == 1 {
        let rest = raise(alloc, terms, n - 1)?;
        return multiply(alloc, terms, &rest);
    }
    let half = raise(alloc, terms, n / 2)?;
    multiply(alloc, &half, &half)
}

impl Poly {
    /// The product. Its cost is one product of monomials and one of coefficients for each pair of
    /// terms, and a number of comparisons that is at most the number of pairs times the logarithm
    /// of the number of terms of `self`, so it is less where `self` is the shorter. Beside the
    /// result it holds the products of two halves of `self` with `other`.
    ///
    /// Where neither is 0, `Range` exactly where the product of the norms is over 2^127 - 1, and
    /// else `Degree` exactly where the degrees add up to more than 1,000.
    pub fn times(&self, alloc: Global, other: &Poly) -> Result<Poly, Overrun>
        ensures product { IfOk result (λ p. p ≡ product_of self.now other.now) }
        ensures fine { IfOk result (λ p.
            product_outcome (self.now ∷ other.now ∷ []) ≡ Outcome.Fine) }
        ensures refused { IfErr result (λ e.
            RefusesWith e (product_outcome (self.now ∷ other.now ∷ []))) }
    {
        if self.terms.is_empty() || other.terms.is_empty() {
            return Ok(Poly::zero(alloc));
        }
        if !product_fits(norm_of(&self.terms), norm_of(&other.terms)) {
            return Err(Overrun::Range);
        }
        if self.degree() + other.degree() > GREATEST_DEGREE {
            return Err(Overrun::Degree);
        }
        let terms = multiply(alloc, &self.terms, &other.terms)?;
        Ok(Poly { terms })
    }

    /// The power, by `n` products with `self`, and where that has one term by at most two products
    /// for each binary digit of `n`. The power 0 is 1.
    ///
    /// Where `self` is not 0, `Range` exactly where the norm to the `n` is over 2^127 - 1, and else
    /// `Degree` exactly where `n` times the degree is over 1,000.
    pub fn power(&self, alloc: Global, n: u32) -> Result<Poly, Overrun>
        ensures power { IfOk result (λ p. p ≡ power_of self.now n) }
        ensures fine { IfOk result (λ p. power_outcome self.now n ≡ Outcome.Fine) }
        ensures refused { IfErr result (λ e. RefusesWith e (power_outcome self.now n)) }
    {
        if n > 0 && self.terms.is_empty() {
            return Ok(Poly::zero(alloc));
        }
        if !power_fits(norm_of(&self.terms), n) {
            return Err(Overrun::Range);
        }
        if u64::from(n) * u64::from(self.degree()) > u64::from(GREATEST_DEGREE) {
            return Err(Overrun::Degree);
        }
        let terms = raise(alloc, &self.terms, n)?;
        Ok(Poly { terms })
    }

    /// `c` and `m` times the polynomial, by one product of monomials and one of coefficients for
    /// each term. `c` is not `i128::MIN`.
    ///
    /// Where neither `c` nor `self` is 0, `Range` exactly where the magnitude of `c` times the norm
    /// is over 2^127 - 1, and else `Degree` exactly where the degrees add up to more than 1,000.
    pub fn scale(&self, alloc: Global, c: i128, m: &Mono) -> Result<Poly, Overrun>
        requires { unsigned_abs c ≤ MAX }
        ensures multiple { IfOk result (λ p. p ≡ multiple_of c m.now self.now) }
        ensures fine { IfOk result (λ p. scale_outcome c m.now self.now ≡ Outcome.Fine) }
        ensures refused { IfErr result (λ e. RefusesWith e (scale_outcome c m.now self.now)) }
    {
        if c == 0 || self.terms.is_empty() {
            return Ok(Poly::zero(alloc));
        }
        if !product_fits(c.unsigned_abs(), norm_of(&self.terms)) {
            return Err(Overrun::Range);
        }
        if m.degree() + self.degree() > GREATEST_DEGREE {
            return Err(Overrun::Degree);
        }
        let terms = row(alloc, m, c, &self.terms)?;
        Ok(Poly { terms })
    }
}
