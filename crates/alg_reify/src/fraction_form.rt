//! What the forms of fractions in memory have in common.

ghost use Rattle.std.specs.Prelude.{◌≡◌, ◌≤◌, ℕ, [], false, IfOk};
ghost use Rattle.std.specs.Int.RustNames.{unsigned_abs};
ghost use Rattle.std.specs.Ordering.{nat_cmp};
ghost use Rattle.alg_mono.specs.NumberedPolynomials.{atom_of, term_of};
ghost use Rattle.alg_mono.specs.Outcomes.{is_nothing};
ghost use Rattle.alg_mono.specs.Polynomials.{MAX};
ghost use Rattle.alg_meaning.specs.FractionRules.{sum_of_fractions, product_of_fractions, quotient_of_fractions, power_of_fraction};
ghost use Rattle.alg_meaning.specs.FractionsOver.{FractionOver, is_unit, is_constant, frac_opposite, frac_sum, frac_difference, frac_product, frac_quotient, frac_power};
ghost use Rattle.alg_reify.specs.Making.{Gives};

use crate::{NoMemory, Overrun};
use std::alloc::Global;

/// A type whose values are fractions over atoms by number: a polynomial over a product of factors,
/// within the limits on norm and degree. At each operation the rule on norms comes before that on
/// degrees. Operations take the fractions that they are done with by value.
pub trait FractionForm: Drop {
    // The fraction that the value is.
    ghost fraction: { Self → FractionOver ℕ };

    /// The number `c`, which is not `i128::MIN`.
    fn constant(alloc: Global, c: i128) -> Result<Self, NoMemory>
        requires { unsigned_abs c ≤ MAX }
        ensures { IfOk result (λ f. fraction f ≡ record { top = term_of [] c; below = [] }) };

    /// One atom.
    fn atom(alloc: Global, k: u32) -> Result<Self, NoMemory>
        ensures { IfOk result (λ f. fraction f ≡ record { top = atom_of k; below = [] }) };

    /// Whether the numerator is 0.
    fn is_zero(&self) -> bool
        ensures { result ≡ is_nothing (fraction self.now).top };

    /// Whether the numerator is 1 or -1.
    fn is_unit(&self) -> bool
        ensures { result ≡ is_unit nat_cmp (fraction self.now).top };

    /// Whether the numerator is a number other than 0.
    fn is_constant(&self) -> bool
        ensures { result ≡ is_constant (fraction self.now).top };

    /// The opposite. It breaks no rule.
    fn opposite(self, alloc: Global) -> Result<Self, NoMemory>
        ensures { IfOk result (λ f. fraction f ≡ frac_opposite (fraction self)) };

    /// The sum, over the common factors. It is not made where a product for it breaks a rule.
    fn sum(self, alloc: Global, other: Self) -> Result<Self, Overrun>
        ensures { Gives fraction (frac_sum nat_cmp (fraction self) (fraction other))
            (sum_of_fractions nat_cmp (fraction self) (fraction other)) result };

    /// The difference, over the common factors, refused where the sum is.
    fn difference(self, alloc: Global, other: Self) -> Result<Self, Overrun>
        ensures { Gives fraction (frac_difference nat_cmp (fraction self) (fraction other))
            (sum_of_fractions nat_cmp (fraction self) (fraction other)) result };

    /// The product.
    fn product(self, alloc: Global, other: Self) -> Result<Self, Overrun>
        ensures { Gives fraction (frac_product nat_cmp (fraction self) (fraction other))
            (product_of_fractions nat_cmp (fraction self) (fraction other)) result };

    /// The quotient by a fraction whose numerator is not 0.
    fn quotient(self, alloc: Global, other: Self) -> Result<Self, Overrun>
        requires { is_nothing (fraction other).top ≡ false }
        ensures { Gives fraction
            (frac_quotient nat_cmp (is_unit nat_cmp (fraction other).top) (fraction self) (fraction other))
            (quotient_of_fractions nat_cmp (fraction self) (fraction other)) result };

    /// The power.
    fn power(self, alloc: Global, n: u32) -> Result<Self, Overrun>
        ensures { Gives fraction (frac_power nat_cmp (fraction self) n)
            (power_of_fraction nat_cmp (fraction self) n) result };
}
