//! Fractions: polynomials over products of factors.

ghost use Rattle.std.specs.Prelude.{◌≡◌, ◌∷◌, ◌++◌, [], IfOk, IfErr, true, false};
ghost use Rattle.std.specs.Ordering.{nat_cmp};
ghost use Rattle.alg_mono.specs.FiniteMaps.{IsCanonical};
ghost use Rattle.alg_mono.specs.NumberedPolynomials.{Polynomial, sum_of, difference_of, product_of};
ghost use Rattle.alg_mono.specs.Numbers.{exponents};
ghost use Rattle.alg_mono.specs.Outcomes.{Outcome, is_nothing, first_breach, sum_outcome, product_outcome};
ghost use Rattle.alg_mono.specs.Refusals.{RefusesWith};
ghost use Rattle.alg_meaning.specs.FractionRules.{worse, all_factors, over_outcome, below_outcome, cleared_outcome, sum_of_fractions, product_of_fractions, quotient_of_fractions, power_of_fraction};
ghost use Rattle.alg_meaning.specs.FractionsOver.{is_unit, cleared, frac_opposite, frac_sum, frac_difference, frac_product, frac_quotient, frac_power};
ghost use Rattle.alg_reify.specs.FactorMaps.{order, times_map, product};
ghost use Rattle.alg_field.specs.Fractions.{fraction_of, MakesFraction};
ghost use Rattle.alg_reify.specs.Making.{Gives};

use crate::common::{Lacks, cleared, lacks_of};
use crate::constants::is_unit;
use crate::factors::Factors;
use crate::multiply::times;
use crate::rules::{kept, worse_end};
use crate::{HornerPoly, NoMemory};
use alg_mono::{Overrun, PolynomialForm};
use std::alloc::Global;

/// A polynomial divided by a product of factors.
#[derive(Drop)]
pub(crate) struct Fraction {
    pub(crate) top: HornerPoly,
    pub(crate) below: Factors,
}

/// A numerator that was made or refused, over the factors of two products.
fn over_both(
    alloc: Global,
    top: Result<HornerPoly, Overrun>,
    own: Factors,
    more: &Factors,
) -> Result<Fraction, Overrun>
    ensures canonical { IsCanonical order exponents own }
    ensures made { (p : Polynomial) (o : Outcome) → Gives (λ q. q) p o top →
        MakesFraction (record { top = p; below = times_map own more.now })
        (worse o (below_outcome (times_map own more.now))) result }
{
    let rule = own.rule_with(more);
    match top {
        Err(end) => Err(worse_end(end, rule)),
        Ok(top) => {
            kept(rule)?;
            let below = own.times(alloc, more)?;
            Ok(Fraction { top, below })
        }
    }
}

/// The sum of two numerators, each times the factors that its fraction lacks.
fn added(
    alloc: Global,
    left: HornerPoly,
    right: HornerPoly,
    lacks: &Lacks,
) -> Result<HornerPoly, Overrun>
    ensures { let first = product_of left (product lacks.now.left) in
        let second = product_of right (product lacks.now.right) in
        Gives (λ q. q) (sum_of first second)
        (first_breach (worse (over_outcome left lacks.now.left) (over_outcome right lacks.now.right))
        (sum_outcome first second)) result }
{
    let (left, right) = cleared(alloc, left, right, lacks)?;
    left.plus(alloc, right)
}

/// Their difference.
fn subtracted(
    alloc: Global,
    left: HornerPoly,
    right: HornerPoly,
    lacks: &Lacks,
) -> Result<HornerPoly, Overrun>
    ensures { let first = product_of left (product lacks.now.left) in
        let second = product_of right (product lacks.now.right) in
        Gives (λ q. q) (difference_of first second)
        (first_breach (worse (over_outcome left lacks.now.left) (over_outcome right lacks.now.right))
        (sum_outcome first second)) result }
{
    let (left, right) = cleared(alloc, left, right, lacks)?;
    left.minus(alloc, right)
}

/// A numerator times factors.
fn multiplied(alloc: Global, top: HornerPoly, factors: &Factors) -> Result<HornerPoly, Overrun>
    ensures { Gives (λ q. q) (product_of top (product factors.now)) (over_outcome top factors.now) result }
{
    kept(factors.rule_over(&top))?;
    Ok(factors.over(alloc, top)?)
}

/// A numerator times factors and times 1 or -1.
fn times_unit(
    alloc: Global,
    top: HornerPoly,
    factors: &Factors,
    unit: HornerPoly,
) -> Result<HornerPoly, Overrun>
    requires { is_unit nat_cmp unit ≡ true }
    ensures { Gives (λ q. q) (product_of (product_of top (product factors.now)) unit)
        (product_outcome (top ∷ (all_factors factors.now ++ unit ∷ []))) result }
{
    let top = multiplied(alloc, top, factors)?;
    Ok(times(alloc, &top, &unit)?)
}

impl Fraction {
    /// The opposite.
    pub(crate) fn opposite(self, alloc: Global) -> Result<Fraction, NoMemory>
        ensures { IfOk result (λ f. fraction_of f ≡ frac_opposite (fraction_of self)) }
    {
        let Fraction { top, below } = self;
        Ok(Fraction {
            top: top.opposite(alloc)?,
            below,
        })
    }

    /// The sum, over the common factors. It is not made where a product for it breaks a rule.
    pub(crate) fn sum(self, alloc: Global, other: Fraction) -> Result<Fraction, Overrun>
        ensures { MakesFraction (frac_sum nat_cmp (fraction_of self) (fraction_of other))
            (sum_of_fractions nat_cmp (fraction_of self) (fraction_of other)) result }
    {
        let lacks = lacks_of(alloc, &self.below, &other.below)?;
        let Fraction { top, below } = self;
        let top = added(alloc, top, other.top, &lacks);
        over_both(alloc, top, below, &lacks.left)
    }

    /// The difference, over the common factors, refused where the sum is.
    pub(crate) fn difference(self, alloc: Global, other: Fraction) -> Result<Fraction, Overrun>
        ensures { MakesFraction (frac_difference nat_cmp (fraction_of self) (fraction_of other))
            (sum_of_fractions nat_cmp (fraction_of self) (fraction_of other)) result }
    {
        let lacks = lacks_of(alloc, &self.below, &other.below)?;
        let Fraction { top, below } = self;
        let top = subtracted(alloc, top, other.top, &lacks);
        over_both(alloc, top, below, &lacks.left)
    }

    /// The product.
    pub(crate) fn product(self, alloc: Global, other: Fraction) -> Result<Fraction, Overrun>
        ensures { MakesFraction (frac_product nat_cmp (fraction_of self) (fraction_of other))
            (product_of_fractions nat_cmp (fraction_of self) (fraction_of other)) result }
    {
        let Fraction { top, below } = self;
        let top = top.product(alloc, other.top);
        over_both(alloc, top, below, &other.below)
    }

    /// The quotient by a fraction whose numerator is not 0: the numerator takes the other's factors,
    /// and the other's numerator becomes a factor unless it is 1 or -1.
    pub(crate) fn quotient(self, alloc: Global, other: Fraction) -> Result<Fraction, Overrun>
        requires { is_nothing other.top ≡ false }
        ensures { MakesFraction
            (frac_quotient nat_cmp (is_unit nat_cmp other.top) (fraction_of self) (fraction_of other))
            (quotient_of_fractions nat_cmp (fraction_of self) (fraction_of other)) result }
    {
        let Fraction { top, below } = self;
        let Fraction {
            top: divisor,
            below: factors,
        } = other;
        if is_unit(&divisor) {
            let top = times_unit(alloc, top, &factors, divisor);
            let none = Factors::none(alloc);
            return over_both(alloc, top, below, &none);
        }
        let top = multiplied(alloc, top, &factors);
        let one = Factors::one(alloc, divisor)?;
        over_both(alloc, top, below, &one)
    }

    /// The power: of the numerator, and of each factor.
    pub(crate) fn power(self, alloc: Global, n: u32) -> Result<Fraction, Overrun>
        ensures { MakesFraction (frac_power nat_cmp (fraction_of self) n)
            (power_of_fraction nat_cmp (fraction_of self) n) result }
    {
        let Fraction { top, below } = self;
        let rule = below.rule_to(n);
        match top.raised(alloc, n) {
            Err(end) => Err(worse_end(end, rule)),
            Ok(top) => {
                kept(rule)?;
                Ok(Fraction {
                    top,
                    below: below.raised(n),
                })
            }
        }
    }
}

/// The numerators of two fractions over their common factors.
pub(crate) fn numerators(
    alloc: Global,
    left: Fraction,
    right: Fraction,
) -> Result<(HornerPoly, HornerPoly), Overrun>
    ensures left { IfOk result (λ n. n.0 ≡ cleared nat_cmp (fraction_of left) (fraction_of right)) }
    ensures right { IfOk result (λ n. n.1 ≡ cleared nat_cmp (fraction_of right) (fraction_of left)) }
    ensures fine { IfOk result (λ n.
        cleared_outcome nat_cmp (fraction_of left) (fraction_of right) ≡ Outcome.Fine) }
    ensures refused { IfErr result (λ e.
        RefusesWith e (cleared_outcome nat_cmp (fraction_of left) (fraction_of right))) }
{
    let lacks = lacks_of(alloc, &left.below, &right.below)?;
    cleared(alloc, left.top, right.top, &lacks)
}
