//! Sums, differences and opposites.

ghost use Rattle.std.specs.Prelude.{◌≡◌, IfOk, IfErr};
ghost use Rattle.alg_mono.specs.Outcomes.{Outcome, sum_outcome};
ghost use Rattle.alg_mono.specs.Polynomials.{poly_neg};
ghost use Rattle.alg_mono.specs.Refusals.{RefusesWith};
ghost use Rattle.alg_mono.specs.NumberedPolynomials.{sum_of, difference_of};

use crate::NoMemory;
use crate::poly::{GREATEST_NORM, Poly};
use crate::terms::{norm_of, opposites};
use alg_mono::Overrun;
use alg_mono::terms::merge;
use std::alloc::Global;

impl Poly {
    /// The sum, by one comparison and at most one addition for each term of both.
    ///
    /// `Range` exactly where the norms add up to more than 2^127 - 1, and never `Degree`.
    pub fn add(&self, alloc: Global, other: &Poly) -> Result<Poly, Overrun>
        ensures sum { IfOk result (λ p. p ≡ sum_of self.now other.now) }
        ensures fine { IfOk result (λ p. sum_outcome self.now other.now ≡ Outcome.Fine) }
        ensures refused { IfErr result (λ e. RefusesWith e (sum_outcome self.now other.now)) }
    {
        if norm_of(&self.terms) + norm_of(&other.terms) > GREATEST_NORM {
            return Err(Overrun::Range);
        }
        let terms = merge(alloc, &self.terms, &other.terms)?;
        Ok(Poly { terms })
    }

    /// The difference, by the opposite of `other` and a sum.
    ///
    /// `Range` exactly where the norms add up to more than 2^127 - 1, and never `Degree`.
    pub fn sub(&self, alloc: Global, other: &Poly) -> Result<Poly, Overrun>
        ensures difference { IfOk result (λ p. p ≡ difference_of self.now other.now) }
        ensures fine { IfOk result (λ p. sum_outcome self.now other.now ≡ Outcome.Fine) }
        ensures refused { IfErr result (λ e. RefusesWith e (sum_outcome self.now other.now)) }
    {
        let opposite = other.neg(alloc)?;
        self.add(alloc, &opposite)
    }

    /// The opposite, by one copy of each term. It breaks no rule.
    pub fn neg(&self, alloc: Global) -> Result<Poly, NoMemory>
        ensures { IfOk result (λ p. p ≡ poly_neg self.now) }
    {
        let terms = opposites(alloc, &self.terms)?;
        Ok(Poly { terms })
    }
}
