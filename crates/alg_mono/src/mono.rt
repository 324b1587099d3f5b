ghost use Rattle.std.specs.Prelude.{◌≡◌, ◌≤◌, [], IfOk};
ghost use Rattle.std.specs.Ordering.{nat_cmp};
ghost use Rattle.alg_mono.specs.Monomials.{MAX_DEGREE, IsMono, degree, exponent};
ghost use Rattle.alg_mono.specs.Mono.{Monomial};

use crate::NoMemory;
use crate::search::search;
use std::alloc::Global;
use std::marker::Model;

/// The greatest degree of a monomial.
pub(crate) const DEGREE_LIMIT: u32 = 1000;

/// A product of powers of atoms by number, of degree at most 1,000. Each monomial has one form:
/// its atoms rise, and no exponent is 0.
#[derive(Debug, Drop)]
pub struct Mono {
    pub(crate) pairs: Vec<(u32, u32)>,
}

impl Model for Mono {
    ghost Value = { Monomial };

    ghost view = { λ m. m.pairs.items };

    ghost invariant = { λ m. IsMono nat_cmp m.pairs.items };
}

impl Mono {
    /// The monomial 1. It takes no memory.
    pub fn one(alloc: Global) -> Mono
        ensures { result ≡ [] }
    {
        Mono {
            pairs: Vec::new(alloc),
        }
    }

    /// The atoms with their exponents, the atoms rising.
    pub fn pairs(&self) -> &[(u32, u32)]
        ensures all { result.now ≡ self.now }
        ensures sound { IsMono nat_cmp self.now }
    {
        &self.pairs
    }

    /// An equal monomial.
    pub fn copy(&self, alloc: Global) -> Result<Mono, NoMemory>
        ensures { IfOk result (λ m. m ≡ self.now) }
    {
        let pairs = Vec::from_slice(alloc, &self.pairs)?;
        Ok(Mono { pairs })
    }

    /// The sum of the exponents.
    pub fn degree(&self) -> u32
        ensures sum { result ≡ degree self.now }
        ensures small { result ≤ MAX_DEGREE }
    {
        self.pairs.iter().map(|pair| pair.1).sum()
    }

    /// The exponent of an atom, and 0 where the monomial does not have it. The atom is found by
    /// halving.
    pub fn exponent(&self, atom: u32) -> u32
        ensures { result ≡ exponent nat_cmp atom self.now }
    {
        match search(&self.pairs, atom) {
            Ok(at) => self.pairs[at].1,
            Err(_) => 0,
        }
    }
}
