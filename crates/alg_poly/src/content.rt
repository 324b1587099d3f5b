//! The content, and division by a number.

ghost use Rattle.std.specs.Prelude.{◌≡◌, ◌≢◌, ◌%◌, ◌<◌, ◌≤◌, ◌↔◌, ◌≤ℤ◌, [], pos, All, IsTrue, IfOk};
ghost use Rattle.std.specs.Int.{IsGcd};
ghost use Rattle.std.specs.Int.RustNames.{unsigned_abs};
ghost use Rattle.alg_mono.specs.Polynomials.{MAX, norm};
ghost use Rattle.alg_poly.specs.Divisors.{IsContent, IsDivisible, DividesEach, times_number};

use crate::NoMemory;
use crate::poly::Poly;
use alg_mono::terms::Term;
use std::alloc::Global;

/// The greatest common divisor, by Euclid's steps.
pub fn greatest_divisor(a: u128, b: u128) -> u128
    ensures { IsGcd a b result }
{
    let mut x = a;
    let mut y = b;
    while y != 0 {
        let rest = x % y;
        x = y;
        y = rest;
    }
    x
}

/// The greatest common divisor of the coefficients, and 0 where there is no term. It looks at no
/// term after those whose greatest common divisor is 1.
fn content_of(terms: &[Term]) -> u128
    ensures { IsContent terms.now result }
{
    let mut divisor = 0;
    for term in terms {
        if divisor == 1 {
            return 1;
        }
        divisor = greatest_divisor(divisor, term.1.unsigned_abs());
    }
    divisor
}

/// Whether each coefficient is a multiple of `d`.
fn divides_each(terms: &[Term], d: u128) -> bool
    requires { 0 < d }
    ensures { IsTrue result ↔ All (λ e. unsigned_abs e.1 % d ≡ 0) terms.now }
{
    terms.iter().all(|term| term.1.unsigned_abs() % d == 0)
}

/// The terms with the exact quotients of their coefficients.
fn quotients(alloc: Global, terms: &[Term], d: i128) -> Result<Vec<Term>, NoMemory>
    requires { IsDivisible d terms.now }
    ensures { IfOk result (λ v. times_number d v.items ≡ terms.now) }
{
    let mut out = Vec::new(alloc);
    for term in terms {
        out.push((term.0.copy(alloc)?, term.1 / d))?;
    }
    Ok(out)
}

impl Poly {
    /// The greatest positive number that divides each coefficient, and 1 for 0: at most one run of
    /// Euclid's algorithm for each term, and none after those whose divisor is 1. It takes no
    /// memory.
    pub fn content(&self) -> i128
        ensures positive { pos 1 ≤ℤ result }
        ensures content { self.now ≢ [] → IsContent self.now (unsigned_abs result) }
        ensures zero { self.now ≡ [] → result ≡ pos 1 }
    {
        if self.terms.is_empty() {
            return 1;
        }
        content_of(&self.terms) as i128
    }

    /// Whether `d` is at least 1 and divides each coefficient, by one division for each term where it
    /// is not 1. It takes no memory.
    pub fn divisible_by(&self, d: i128) -> bool
        ensures { IsTrue result ↔ IsDivisible d self.now }
    {
        if d == 1 {
            return true;
        }
        d >= 1 && divides_each(&self.terms, d.unsigned_abs())
    }

    /// The polynomial that `d` times is `self`: itself where `d` is 1, and else by one division for
    /// each term.
    pub fn over_int(self, alloc: Global, d: i128) -> Result<Poly, NoMemory>
        requires { IsDivisible d self }
        ensures { IfOk result (λ p. times_number d p ≡ self) }
    {
        if d <= 1 {
            return Ok(self);
        }
        let terms = quotients(alloc, &self.terms, d)?;
        Ok(Poly { terms })
    }
}
