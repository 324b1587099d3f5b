//! Fractions of Horner forms as a form of fractions.

ghost use Rattle.std.specs.Prelude.{◌≡◌, []};
ghost use Rattle.alg_field.specs.Fractions.{fraction_of};

use crate::constants::{is_constant, is_unit, is_zero};
use crate::factors::Factors;
use crate::fraction::Fraction;
use crate::{HornerPoly, NoMemory};
use alg_mono::Overrun;
use alg_reify::FractionForm;
use std::alloc::Global;

/// A polynomial as a fraction without factors.
fn whole(alloc: Global, top: HornerPoly) -> Fraction
    ensures { fraction_of result ≡ record { top = top; below = [] } }
{
    Fraction {
        top,
        below: Factors::none(alloc),
    }
}

impl FractionForm for Fraction {
    ghost use Rattle.alg_field.specs.Fractions.{fraction_of};

    ghost fraction = { fraction_of };

    fn constant(alloc: Global, c: i128) -> Result<Fraction, NoMemory> {
        Ok(whole(alloc, HornerPoly::constant(c)))
    }

    fn atom(alloc: Global, k: u32) -> Result<Fraction, NoMemory> {
        Ok(whole(alloc, HornerPoly::atom(alloc, k)?))
    }

    fn is_zero(&self) -> bool {
        is_zero(&self.top)
    }

    fn is_unit(&self) -> bool {
        is_unit(&self.top)
    }

    fn is_constant(&self) -> bool {
        is_constant(&self.top)
    }

    fn opposite(self, alloc: Global) -> Result<Fraction, NoMemory> {
        self.opposite(alloc)
    }

    fn sum(self, alloc: Global, other: Fraction) -> Result<Fraction, Overrun> {
        self.sum(alloc, other)
    }

    fn difference(self, alloc: Global, other: Fraction) -> Result<Fraction, Overrun> {
        self.difference(alloc, other)
    }

    fn product(self, alloc: Global, other: Fraction) -> Result<Fraction, Overrun> {
        self.product(alloc, other)
    }

    fn quotient(self, alloc: Global, other: Fraction) -> Result<Fraction, Overrun> {
        self.quotient(alloc, other)
    }

    fn power(self, alloc: Global, n: u32) -> Result<Fraction, Overrun> {
        self.power(alloc, n)
    }
}
