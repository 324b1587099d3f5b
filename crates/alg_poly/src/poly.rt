//! The type, what it shows of itself, and the polynomials that are made from numbers and atoms.

ghost use Rattle.std.specs.Prelude.{◌≡◌, ◌≤◌, ◌↔◌, [], IfOk, IsTrue, pos};
ghost use Rattle.std.specs.Int.RustNames.{unsigned_abs};
ghost use Rattle.std.specs.Ordering.{nat_cmp};
ghost use Rattle.alg_mono.specs.Monomials.{MAX_DEGREE};
ghost use Rattle.alg_mono.specs.Polynomials.{IsPoly, MAX, norm, poly_degree};
ghost use Rattle.alg_mono.specs.NumberedPolynomials.{atom_of, term_of};

use crate::NoMemory;
use crate::terms::norm_of;
use alg_mono::terms::{Term, push_copies};
use alg_mono::{Mono, MonoEnd};
use std::alloc::Global;
use std::marker::Model;

/// The greatest norm of a polynomial.
pub(crate) const GREATEST_NORM: u128 = i128::MAX as u128;

/// The greatest degree of a polynomial.
pub(crate) const GREATEST_DEGREE: u32 = 1000;

/// A polynomial with integer coefficients over atoms by number, of norm at most 2^127 - 1 and
/// degree at most 1,000. Each polynomial has one form: the monomials fall in grevlex, and no
/// coefficient is 0.
#[derive(Debug, Drop)]
pub struct Poly {
    pub(crate) terms: Vec<Term>,
}

impl Model for Poly {
    ghost use Rattle.std.specs.Ordering.{nat_cmp};
    ghost use Rattle.alg_mono.specs.Polynomials.{IsPoly};
    ghost use Rattle.alg_mono.specs.NumberedPolynomials.{Polynomial};

    ghost Value = { Polynomial };

    ghost view = { λ p. p.terms.items };

    ghost invariant = { λ p. IsPoly nat_cmp p.terms.items };
}

impl Poly {
    /// The polynomial 0. It takes no memory.
    pub fn zero(alloc: Global) -> Poly
        ensures { result ≡ [] }
    {
        Poly {
            terms: Vec::new(alloc),
        }
    }

    /// The polynomial that is the number `c`, which is not `i128::MIN`.
    pub fn constant(alloc: Global, c: i128) -> Result<Poly, NoMemory>
        requires { unsigned_abs c ≤ MAX }
        ensures { IfOk result (λ p. p ≡ term_of [] c) }
    {
        let mut terms = Vec::new(alloc);
        if c != 0 {
            terms.push((Mono::one(alloc), c))?;
        }
        Ok(Poly { terms })
    }

    /// The polynomial that is one atom.
    pub fn atom(alloc: Global, k: u32) -> Result<Poly, NoMemory>
        ensures { IfOk result (λ p. p ≡ atom_of k) }
    {
        let mono = match Mono::from_pairs(alloc, &[(k, 1)]) {
            Ok(mono) => mono,
            Err(MonoEnd::Degree) => unreachable!(),
            Err(MonoEnd::NoMemory) => return Err(NoMemory),
        };
        let mut terms = Vec::new(alloc);
        terms.push((mono, 1))?;
        Ok(Poly { terms })
    }

    /// The polynomial with these terms: the monomials fall in grevlex, no coefficient is 0, and the
    /// norm and the degree are within the limits. It takes no memory.
    pub fn from_terms(terms: Vec<Term>) -> Poly
        requires { IsPoly nat_cmp terms.items }
        ensures { result ≡ terms.items }
    {
        Poly { terms }
    }

    /// The terms, the greatest monomial first. It takes no memory.
    pub fn terms(&self) -> &[(Mono, i128)]
        ensures all { result.now ≡ self.now }
        ensures sound { IsPoly nat_cmp self.now }
    {
        &self.terms
    }

    /// An equal polynomial, by one copy of each term.
    pub fn copy(&self, alloc: Global) -> Result<Poly, NoMemory>
        ensures { IfOk result (λ p. p ≡ self.now) }
    {
        let mut terms = Vec::new(alloc);
        push_copies(alloc, &mut terms, &self.terms)?;
        Ok(Poly { terms })
    }

    /// The sum of the magnitudes of the coefficients, by one addition for each term. It takes no
    /// memory.
    pub fn norm(&self) -> i128
        ensures sum { result ≡ pos (norm self.now) }
        ensures small { norm self.now ≤ MAX }
    {
        norm_of(&self.terms) as i128
    }

    /// The greatest degree of a monomial, and 0 for 0: that of the first term. It takes no memory.
    pub fn degree(&self) -> u32
        ensures greatest { result ≡ poly_degree self.now }
        ensures small { result ≤ MAX_DEGREE }
    {
        match self.terms.first() {
            None => 0,
            Some(term) => term.0.degree(),
        }
    }
}
