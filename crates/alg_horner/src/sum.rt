//! Sums, differences and opposites.

ghost use Rattle.std.specs.Prelude.{◌≡◌, ◌+◌, ◌≤◌, IfOk, IfErr};
ghost use Rattle.alg_mono.specs.NumberedPolynomials.{sum_of, difference_of};
ghost use Rattle.alg_mono.specs.Outcomes.{Outcome, sum_outcome};
ghost use Rattle.alg_mono.specs.Polynomials.{MAX, norm, poly_neg};
ghost use Rattle.alg_mono.specs.Refusals.{RefusesWith};

use crate::NoMemory;
use crate::accumulate::add_multiple;
use crate::horner::boxed;
use crate::poly::{GREATEST_NORM, HornerPoly};
use crate::scale::multiple;
use alg_mono::Overrun;
use std::alloc::Global;

impl HornerPoly {
    /// The opposite. It breaks no rule.
    pub fn neg(&self, alloc: Global) -> Result<HornerPoly, NoMemory>
        ensures { IfOk result (λ p. p ≡ poly_neg self.now) }
    {
        let form = multiple(alloc, -1, 0, &self.form)?;
        Ok(HornerPoly {
            form: Box::into_inner(form),
        })
    }

    // The sum, in the boxes of `self`.
    pub(crate) fn sum(self, alloc: Global, other: &HornerPoly) -> Result<HornerPoly, NoMemory>
        requires { norm self + norm other.now ≤ MAX }
        ensures { IfOk result (λ p. p ≡ sum_of self other.now) }
    {
        let HornerPoly { form } = self;
        let total = boxed(alloc, form)?;
        let form = add_multiple(alloc, total, 1, &other.form)?;
        Ok(HornerPoly {
            form: Box::into_inner(form),
        })
    }

    // The difference, in the boxes of `self`.
    pub(crate) fn difference(
        self,
        alloc: Global,
        other: &HornerPoly,
    ) -> Result<HornerPoly, NoMemory>
        requires { norm self + norm other.now ≤ MAX }
        ensures { IfOk result (λ p. p ≡ difference_of self other.now) }
    {
        let HornerPoly { form } = self;
        let total = boxed(alloc, form)?;
        let form = add_multiple(alloc, total, -1, &other.form)?;
        Ok(HornerPoly {
            form: Box::into_inner(form),
        })
    }

    /// The sum, by a copy of `self`.
    ///
    /// `Range` exactly where the norms add up to more than 2^127 - 1, and never `Degree`.
    pub fn add(&self, alloc: Global, other: &HornerPoly) -> Result<HornerPoly, Overrun>
        ensures sum { IfOk result (λ p. p ≡ sum_of self.now other.now) }
        ensures fine { IfOk result (λ p. sum_outcome self.now other.now ≡ Outcome.Fine) }
        ensures refused { IfErr result (λ e. RefusesWith e (sum_outcome self.now other.now)) }
    {
        if self.size() + other.size() > GREATEST_NORM {
            return Err(Overrun::Range);
        }
        let total = self.copy(alloc)?;
        Ok(total.sum(alloc, other)?)
    }

    /// The difference, by a copy of `self`.
    ///
    /// `Range` exactly where the norms add up to more than 2^127 - 1, and never `Degree`.
    pub fn sub(&self, alloc: Global, other: &HornerPoly) -> Result<HornerPoly, Overrun>
        ensures difference { IfOk result (λ p. p ≡ difference_of self.now other.now) }
        ensures fine { IfOk result (λ p. sum_outcome self.now other.now ≡ Outcome.Fine) }
        ensures refused { IfErr result (λ e. RefusesWith e (sum_outcome self.now other.now)) }
    {
        if self.size() + other.size() > GREATEST_NORM {
            return Err(Overrun::Range);
        }
        let total = self.copy(alloc)?;
        Ok(total.difference(alloc, other)?)
    }
}
