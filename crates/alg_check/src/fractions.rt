//! Fractions of plain polynomials.

ghost use Rattle.std.specs.Prelude.{◌≡◌, ◌++◌};
ghost use Rattle.alg_mono.specs.NumberedPolynomials.{Polynomial, sum_of, difference_of, product_of};
ghost use Rattle.alg_mono.specs.Outcomes.{Outcome, first_breach, sum_outcome};
ghost use Rattle.alg_meaning.specs.FractionRules.{worse, over_outcome, below_outcome, cleared_outcome};
ghost use Rattle.std.specs.Ordering.{nat_cmp};
ghost use Rattle.alg_meaning.specs.FractionsOver.{cleared};
ghost use Rattle.alg_reify.specs.FactorMaps.{product};
ghost use Rattle.alg_reify.specs.Making.{Gives};
ghost use Rattle.alg_check.specs.Factors.{as_map, fraction_of};

use crate::bounds::{size_of, size_of_both};
use crate::factor_lists::{append, lacking, repeated};
use crate::numbers::{is_constant, is_unit, is_zero};
use crate::product::over;
use crate::worse::{both, kept};
use crate::{NoMemory, Overrun, Poly};
use alg_reify::FractionForm;
use std::alloc::Global;

/// A polynomial over the product of factors, each as often as it is one, in any order.
#[derive(Drop)]
pub(crate) struct Fraction {
    pub(crate) top: Poly,
    pub(crate) below: Vec<Poly>,
}

/// A numerator that was made or refused, over the factors of two lists.
fn over_both(
    alloc: Global,
    top: Result<Poly, Overrun>,
    own: Vec<Poly>,
    more: &[Poly],
) -> Result<Fraction, Overrun>
    ensures { (p : Polynomial) (o : Outcome) → Gives (λ q. q) p o top →
        Gives fraction_of (record { top = p; below = as_map (own.items ++ more.now) })
        (worse o (below_outcome (as_map (own.items ++ more.now)))) result }
{
    match kept(top, size_of_both(&own, more).fits()) {
        Ok(top) => {
            let mut below = own;
            append(alloc, &mut below, more)?;
            Ok(Fraction { top, below })
        }
        Err(end) => Err(end),
    }
}

/// Two numerators, each times the factors that its fraction lacks.
fn cleared(
    alloc: Global,
    left: Poly,
    own: &[Poly],
    right: Poly,
    others: &[Poly],
) -> Result<(Poly, Poly), Overrun>
    ensures { Gives (λ n. n)
        (product_of left (product (as_map own.now)), product_of right (product (as_map others.now)))
        (worse (over_outcome left (as_map own.now)) (over_outcome right (as_map others.now))) result }
{
    both(over(alloc, left, own), over(alloc, right, others))
}

/// Their sum.
fn added(
    alloc: Global,
    left: Poly,
    own: &[Poly],
    right: Poly,
    others: &[Poly],
) -> Result<Poly, Overrun>
    ensures { let first = product_of left (product (as_map own.now)) in
        let second = product_of right (product (as_map others.now)) in
        Gives (λ q. q) (sum_of first second)
        (first_breach (worse (over_outcome left (as_map own.now))
        (over_outcome right (as_map others.now))) (sum_outcome first second)) result }
{
    match cleared(alloc, left, own, right, others) {
        Ok((left, right)) => left.add(alloc, &right),
        Err(end) => Err(end),
    }
}

/// Their difference.
fn subtracted(
    alloc: Global,
    left: Poly,
    own: &[Poly],
    right: Poly,
    others: &[Poly],
) -> Result<Poly, Overrun>
    ensures { let first = product_of left (product (as_map own.now)) in
        let second = product_of right (product (as_map others.now)) in
        Gives (λ q. q) (difference_of first second)
        (first_breach (worse (over_outcome left (as_map own.now))
        (over_outcome right (as_map others.now))) (sum_outcome first second)) result }
{
    match cleared(alloc, left, own, right, others) {
        Ok((left, right)) => left.sub(alloc, &right),
        Err(end) => Err(end),
    }
}

/// The numerators of two fractions over their common factors.
pub(crate) fn numerators(
    alloc: Global,
    left: Fraction,
    right: Fraction,
) -> Result<(Poly, Poly), Overrun>
    ensures { Gives (λ n. n) (
      cleared nat_cmp (fraction_of left) (fraction_of right),
      cleared nat_cmp (fraction_of right) (fraction_of left),
    )
        (cleared_outcome nat_cmp (fraction_of left) (fraction_of right)) result }
{
    let own = lacking(alloc, &left.below, &right.below)?;
    let others = lacking(alloc, &right.below, &left.below)?;
    cleared(alloc, left.top, &own, right.top, &others)
}

impl FractionForm for Fraction {
    ghost use Rattle.alg_check.specs.Factors.{fraction_of};

    ghost fraction = { fraction_of };

    fn constant(alloc: Global, c: i128) -> Result<Fraction, NoMemory> {
        Ok(Fraction {
            top: Poly::constant(alloc, c)?,
            below: Vec::new(alloc),
        })
    }

    fn atom(alloc: Global, k: u32) -> Result<Fraction, NoMemory> {
        Ok(Fraction {
            top: Poly::atom(alloc, k)?,
            below: Vec::new(alloc),
        })
    }

    fn is_zero(&self) -> bool {
        is_zero(&self.top)
    }

    fn is_unit(&self) -> bool {
        is_unit(&self.top)
    }

    fn is_constant(&self) -> bool {
        is_constant(&self.top)
    }

    fn opposite(self, alloc: Global) -> Result<Fraction, NoMemory> {
        let Fraction { top, below } = self;
        Ok(Fraction {
            top: top.neg(alloc)?,
            below,
        })
    }

    fn sum(self, alloc: Global, other: Fraction) -> Result<Fraction, Overrun> {
        let own = lacking(alloc, &self.below, &other.below)?;
        let others = lacking(alloc, &other.below, &self.below)?;
        let Fraction { top, below } = self;
        let top = added(alloc, top, &own, other.top, &others);
        over_both(alloc, top, below, &own)
    }

    fn difference(self, alloc: Global, other: Fraction) -> Result<Fraction, Overrun> {
        let own = lacking(alloc, &self.below, &other.below)?;
        let others = lacking(alloc, &other.below, &self.below)?;
        let Fraction { top, below } = self;
        let top = subtracted(alloc, top, &own, other.top, &others);
        over_both(alloc, top, below, &own)
    }

    fn product(self, alloc: Global, other: Fraction) -> Result<Fraction, Overrun> {
        let Fraction { top, below } = self;
        let top = top.times(alloc, &other.top);
        over_both(alloc, top, below, &other.below)
    }

    // A divisor whose numerator is 1 or -1 is a factor of the numerator, and any other is one below.
    fn quotient(self, alloc: Global, other: Fraction) -> Result<Fraction, Overrun> {
        let Fraction { top, below } = self;
        if is_unit(&other.top) {
            // Its contract says that the terms are those of a polynomial.
            top.terms();
            let mut factors = other.below;
            factors.push(other.top)?;
            let top = over(alloc, top, &factors);
            return over_both(alloc, top, below, &[]);
        }
        let top = over(alloc, top, &other.below);
        let mut more = Vec::new(alloc);
        more.push(other.top)?;
        over_both(alloc, top, below, &more)
    }

    fn power(self, alloc: Global, n: u32) -> Result<Fraction, Overrun> {
        let Fraction { top, below } = self;
        let size = size_of(&below).power(n);
        match kept(top.power(alloc, n), size.fits()) {
            Ok(top) => Ok(Fraction {
                top,
                below: repeated(alloc, &below, n)?,
            }),
            Err(end) => Err(end),
        }
    }
}
