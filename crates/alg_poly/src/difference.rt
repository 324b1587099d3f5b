//! Coefficients, leads, and where two polynomials differ.

ghost use Rattle.std.specs.Prelude.{◌≡◌, ◌↔◌, [], IsTrue, IsNone, MatchOption, IfSome, option_map};
ghost use Rattle.std.specs.Ordering.{nat_cmp};
ghost use Rattle.alg_mono.specs.FiniteMaps.{IsCanonical};
ghost use Rattle.alg_mono.specs.Numbers.{integers};
ghost use Rattle.alg_mono.specs.NumberedPolynomials.{before, coefficient_of, lead_of, IsLead, DifferFirst};

use crate::poly::Poly;
use alg_mono::Mono;
use alg_mono::terms::Term;
use std::cmp::Ordering;

/// The coefficient of the term with this monomial, and 0 where there is none.
fn coefficient_in(terms: &[Term], m: &Mono) -> i128
    requires { IsCanonical before integers.amounts terms.now }
    ensures { result ≡ coefficient_of m.now terms.now }
{
    for term in terms {
        if term.0.same(m) {
            return term.1;
        }
    }
    0
}

/// The first place where two lists of terms differ.
fn first_difference_of<'a>(a: &'a [Term], b: &'a [Term]) -> Option<(&'a Mono, i128, i128)>
    requires falls_a { IsCanonical before integers.amounts a.now }
    requires falls_b { IsCanonical before integers.amounts b.now }
    ensures { MatchOption result (a.now ≡ b.now)
        (λ d. DifferFirst a.now b.now d.0.now d.1 d.2) }
{
    let mut i = 0;
    while i < a.len() && i < b.len() {
        let x = &a[i];
        let y = &b[i];
        match x.0.cmp_grevlex(&y.0) {
            Ordering::Greater => return Some((&x.0, x.1, 0)),
            Ordering::Less => return Some((&y.0, 0, y.1)),
            Ordering::Equal => {
                if x.1 != y.1 {
                    return Some((&x.0, x.1, y.1));
                }
                i += 1;
            }
        }
    }
    if i < a.len() {
        let x = &a[i];
        return Some((&x.0, x.1, 0));
    }
    if i < b.len() {
        let y = &b[i];
        return Some((&y.0, 0, y.1));
    }
    None
}

impl Poly {
    /// The coefficient of a monomial, and 0 where the polynomial does not have it, by at most one
    /// comparison for each term. It takes no memory.
    pub fn coefficient(&self, m: &Mono) -> i128
        ensures { result ≡ coefficient_of m.now self.now }
    {
        coefficient_in(&self.terms, m)
    }

    /// The greatest monomial with its coefficient, and `None` exactly for 0. It takes no memory.
    pub fn lead(&self) -> Option<(&Mono, i128)>
        ensures first { option_map (λ t. (t.0.now, t.1)) result ≡ lead_of self.now }
        ensures greatest { MatchOption result (self.now ≡ [])
            (λ t. IsLead self.now t.0.now t.1) }
    {
        match self.terms.first() {
            None => None,
            Some(term) => Some((&term.0, term.1)),
        }
    }

    /// The greatest monomial whose coefficients differ, with the coefficient here and that in
    /// `other`, and `None` exactly where the two are equal. Its cost is one comparison for each
    /// term up to there. It takes no memory.
    pub fn first_difference<'a>(&'a self, other: &'a Poly) -> Option<(&'a Mono, i128, i128)>
        ensures none { IsNone result ↔ (self.now ≡ other.now) }
        ensures greatest { IfSome result (λ d. DifferFirst self.now other.now d.0.now d.1 d.2) }
    {
        first_difference_of(&self.terms, &other.terms)
    }

    /// Whether the two are equal, by one comparison for each term up to the first difference. It
    /// takes no memory.
    pub fn same(&self, other: &Poly) -> bool
        ensures { IsTrue result ↔ (self.now ≡ other.now) }
    {
        self.first_difference(other).is_none()
    }
}
