//! Leads.

ghost use Rattle.std.specs.Prelude.{◌≡◌, ◌≢◌, ◌≤◌, [], pos};
ghost use Rattle.std.specs.Int.RustNames.{unsigned_abs};
ghost use Rattle.std.specs.Ordering.{nat_cmp};
ghost use Rattle.alg_mono.specs.FiniteMaps.{IsCanonical};
ghost use Rattle.alg_mono.specs.Numbers.{exponents};
ghost use Rattle.alg_mono.specs.Polynomials.{MAX};
ghost use Rattle.alg_groebner.specs.Leads.{lead, leading, coprime};

use alg_mono::Mono;
use alg_poly::Poly;

/// The greatest monomial.
pub(crate) fn lead_of(p: &Poly) -> &Mono
    requires { p.now ≢ [] }
    ensures value { result.now ≡ lead p.now }
    ensures sound { IsCanonical nat_cmp exponents result.now }
{
    match p.terms().first() {
        Some(term) => &term.0,
        None => unreachable!(),
    }
}

/// The coefficient of the greatest monomial.
pub(crate) fn leading_of(p: &Poly) -> i128
    requires { p.now ≢ [] }
    ensures value { result ≡ leading p.now }
    ensures some { result ≢ pos 0 }
    ensures fits { unsigned_abs result ≤ MAX }
{
    match p.terms().first() {
        Some(term) => term.1,
        None => unreachable!(),
    }
}

/// Whether two monomials have no common atom.
pub(crate) fn are_coprime(m: &Mono, n: &Mono) -> bool
    ensures { result ≡ coprime m.now n.now }
{
    m.pairs().iter().all(|pair| n.exponent(pair.0) == 0)
}
