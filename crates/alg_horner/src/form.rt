//! `HornerPoly` as a form of polynomials.

use crate::poly::GREATEST_NORM;
use crate::{HornerPoly, NoMemory, Overrun};
use alg_mono::PolynomialForm;
use std::alloc::Global;

impl PolynomialForm for HornerPoly {
    ghost map = { λ p. p };

    fn constant(_alloc: Global, c: i128) -> Result<HornerPoly, NoMemory> {
        Ok(HornerPoly::constant(c))
    }

    fn atom(alloc: Global, k: u32) -> Result<HornerPoly, NoMemory> {
        HornerPoly::atom(alloc, k)
    }

    fn opposite(self, alloc: Global) -> Result<HornerPoly, NoMemory> {
        self.neg(alloc)
    }

    fn plus(self, alloc: Global, other: HornerPoly) -> Result<HornerPoly, Overrun> {
        if self.size() + other.size() > GREATEST_NORM {
            return Err(Overrun::Range);
        }
        Ok(self.sum(alloc, &other)?)
    }

    fn minus(self, alloc: Global, other: HornerPoly) -> Result<HornerPoly, Overrun> {
        if self.size() + other.size() > GREATEST_NORM {
            return Err(Overrun::Range);
        }
        Ok(self.difference(alloc, &other)?)
    }

    fn product(self, alloc: Global, other: HornerPoly) -> Result<HornerPoly, Overrun> {
        self.times(alloc, &other)
    }

    fn raised(self, alloc: Global, n: u32) -> Result<HornerPoly, Overrun> {
        self.power(alloc, n)
    }
}
