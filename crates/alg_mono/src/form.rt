//! What the forms of polynomials in memory have in common.

ghost use Rattle.std.specs.Prelude.{◌≡◌, ◌≤◌, [], ◌∷◌, IfOk, IfErr};
ghost use Rattle.std.specs.Int.RustNames.{unsigned_abs};
ghost use Rattle.alg_mono.specs.NumberedPolynomials.{Polynomial, atom_of, term_of, sum_of, difference_of, product_of, power_of};
ghost use Rattle.alg_mono.specs.Outcomes.{Outcome, sum_outcome, product_outcome, power_outcome};
ghost use Rattle.alg_mono.specs.Polynomials.{MAX, poly_neg};
ghost use Rattle.alg_mono.specs.Refusals.{RefusesWith};

use crate::{NoMemory, Overrun};
use std::alloc::Global;

/// A type whose values are polynomials over atoms by number, within the limits on norm and degree.
/// Its operations take the polynomials that they are done with by value, so that they may use
/// their parts again.
pub trait PolynomialForm: Drop {
    // The polynomial that the value is.
    ghost map: { Self → Polynomial };

    /// The polynomial that is the number `c`, which is not `i128::MIN`.
    fn constant(alloc: Global, c: i128) -> Result<Self, NoMemory>
        requires { unsigned_abs c ≤ MAX }
        ensures { IfOk result (λ p. map p ≡ term_of [] c) };

    /// The polynomial that is one atom.
    fn atom(alloc: Global, k: u32) -> Result<Self, NoMemory>
        ensures { IfOk result (λ p. map p ≡ atom_of k) };

    /// The opposite. It breaks no rule.
    fn opposite(self, alloc: Global) -> Result<Self, NoMemory>
        ensures { IfOk result (λ p. map p ≡ poly_neg (map self)) };

    /// The sum. `Range` comes exactly where the norms add up to more than 2^127 - 1.
    fn plus(self, alloc: Global, other: Self) -> Result<Self, Overrun>
        ensures sum { IfOk result (λ p. map p ≡ sum_of (map self) (map other)) }
        ensures fine { IfOk result (λ p. sum_outcome (map self) (map other) ≡ Outcome.Fine) }
        ensures refused { IfErr result (λ e. RefusesWith e (sum_outcome (map self) (map other))) };

    /// The difference, refused where the sum is.
    fn minus(self, alloc: Global, other: Self) -> Result<Self, Overrun>
        ensures difference { IfOk result (λ p. map p ≡ difference_of (map self) (map other)) }
        ensures fine { IfOk result (λ p. sum_outcome (map self) (map other) ≡ Outcome.Fine) }
        ensures refused { IfErr result (λ e. RefusesWith e (sum_outcome (map self) (map other))) };

    /// The product. Where neither factor is zero, `Range` comes exactly where the product of the
    /// norms is over 2^127 - 1, else `Degree` exactly where the degrees add up to more than 1,000.
    fn product(self, alloc: Global, other: Self) -> Result<Self, Overrun>
        ensures product { IfOk result (λ p. map p ≡ product_of (map self) (map other)) }
        ensures fine { IfOk result (λ p.
            product_outcome (map self ∷ map other ∷ []) ≡ Outcome.Fine) }
        ensures refused { IfErr result (λ e.
            RefusesWith e (product_outcome (map self ∷ map other ∷ []))) };

    /// The power, refused as a product of `n` factors is. The power 0 is 1.
    fn raised(self, alloc: Global, n: u32) -> Result<Self, Overrun>
        ensures power { IfOk result (λ p. map p ≡ power_of (map self) n) }
        ensures fine { IfOk result (λ p. power_outcome (map self) n ≡ Outcome.Fine) }
        ensures refused { IfErr result (λ e. RefusesWith e (power_outcome (map self) n)) };
}
