//! `Poly` as a form of polynomials.

use crate::{NoMemory, Overrun, Poly};
use alg_mono::PolynomialForm;
use std::alloc::Global;

impl PolynomialForm for Poly {
    ghost map = { λ p. p };

    fn constant(alloc: Global, c: i128) -> Result<Poly, NoMemory> {
        Poly::constant(alloc, c)
    }

    fn atom(alloc: Global, k: u32) -> Result<Poly, NoMemory> {
        Poly::atom(alloc, k)
    }

    fn opposite(self, alloc: Global) -> Result<Poly, NoMemory> {
        self.neg(alloc)
    }

    fn plus(self, alloc: Global, other: Poly) -> Result<Poly, Overrun> {
        self.add(alloc, &other)
    }

    fn minus(self, alloc: Global, other: Poly) -> Result<Poly, Overrun> {
        self.sub(alloc, &other)
    }

    fn product(self, alloc: Global, other: Poly) -> Result<Poly, Overrun> {
        self.times(alloc, &other)
    }

    fn raised(self, alloc: Global, n: u32) -> Result<Poly, Overrun> {
        self.power(alloc, n)
    }
}
