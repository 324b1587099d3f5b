//! Polynomials as canonical forms.

ghost use Rattle.std.specs.Prelude.{◌≡◌, ◌≤◌, ◌↔◌, [], IfOk, IsTrue, pos};
ghost use Rattle.std.specs.Int.RustNames.{unsigned_abs};
ghost use Rattle.std.specs.Ordering.{nat_cmp};
ghost use Rattle.alg_mono.specs.Monomials.{MAX_DEGREE};
ghost use Rattle.alg_mono.specs.Polynomials.{IsPoly, MAX, norm, poly_degree};
ghost use Rattle.alg_mono.specs.NumberedPolynomials.{atom_of, term_of};
ghost use Rattle.alg_horner.specs.Maps.{map_of, IsSound};
ghost use Rattle.alg_horner.specs.Trees.{form_of};

use crate::NoMemory;
use crate::build::is_zero;
use crate::horner::{self, Horner, boxed};
use crate::measure::{height, weight};
use crate::terms::{collected, push_terms};
use alg_mono::Mono;
use std::alloc::Global;
use std::marker::Model;

/// The greatest norm of a polynomial.
pub(crate) const GREATEST_NORM: u128 = i128::MAX as u128;

/// The greatest degree of a polynomial.
pub(crate) const GREATEST_DEGREE: u32 = 1000;

/// A polynomial with integer coefficients over atoms by number, of norm at most 2^127 - 1 and
/// degree at most 1,000, as its one canonical form.
#[derive(Debug, Drop)]
pub struct HornerPoly {
    pub(crate) form: Horner,
}

impl Model for HornerPoly {
    ghost use Rattle.alg_mono.specs.NumberedPolynomials.{Polynomial};
    ghost use Rattle.alg_horner.specs.Maps.{map_of, IsSound};
    ghost use Rattle.alg_horner.specs.Trees.{form_of};

    ghost Value = { Polynomial };

    ghost view = { λ p. map_of 0 (form_of p.form) };

    ghost invariant = { λ p. IsSound (form_of p.form) };
}

impl HornerPoly {
    /// The polynomial that is the number `c`, which is not `i128::MIN`. It takes no memory.
    pub fn constant(c: i128) -> HornerPoly
        requires { unsigned_abs c ≤ MAX }
        ensures { result ≡ term_of [] c }
    {
        HornerPoly {
            form: Horner::Const(c),
        }
    }

    /// The polynomial that is one atom.
    pub fn atom(alloc: Global, k: u32) -> Result<HornerPoly, NoMemory>
        ensures { IfOk result (λ p. p ≡ atom_of k) }
    {
        let one = boxed(alloc, Horner::Const(1))?;
        let none = boxed(alloc, Horner::Const(0))?;
        if k == 0 {
            return Ok(HornerPoly {
                form: Horner::Mix(one, 1, none),
            });
        }
        let first = boxed(alloc, Horner::Mix(one, 1, none))?;
        Ok(HornerPoly {
            form: Horner::Skip(k, first),
        })
    }

    /// An equal polynomial, by one copy of each node.
    pub fn copy(&self, alloc: Global) -> Result<HornerPoly, NoMemory>
        ensures { IfOk result (λ p. p ≡ self.now) }
    {
        let form = horner::copy(alloc, &self.form)?;
        Ok(HornerPoly {
            form: Box::into_inner(form),
        })
    }

    /// The canonical form of the polynomial: the only one, as the law `equal_maps` has it.
    pub fn form(&self) -> &Horner
        ensures canonical { IsSound (form_of result.now) }
        ensures map { map_of 0 (form_of result.now) ≡ self.now }
        ensures sound { IsPoly nat_cmp self.now }
    {
        &self.form
    }

    /// Whether two polynomials are equal. It takes no memory.
    pub fn same(&self, other: &HornerPoly) -> bool
        ensures { IsTrue result ↔ (self.now ≡ other.now) }
    {
        horner::same(&self.form, &other.form)
    }

    /// The sum of the magnitudes of the coefficients. It takes no memory.
    pub fn norm(&self) -> i128
        ensures sum { result ≡ pos (norm self.now) }
        ensures small { norm self.now ≤ MAX }
    {
        self.size() as i128
    }

    // The norm, without a sign.
    pub(crate) fn size(&self) -> u128
        ensures sum { result ≡ norm self.now }
        ensures small { norm self.now ≤ MAX }
    {
        weight(&self.form)
    }

    // Whether it is the polynomial 0.
    pub(crate) fn is_nothing(&self) -> bool
        ensures { IsTrue result ↔ (self.now ≡ []) }
    {
        is_zero(&self.form)
    }

    /// The greatest degree of a monomial, and 0 for 0. It takes no memory.
    pub fn degree(&self) -> u32
        ensures greatest { result ≡ poly_degree self.now }
        ensures small { result ≤ MAX_DEGREE }
    {
        height(&self.form)
    }

    /// The terms, the greatest monomial first, by sums of halves.
    pub fn terms(&self, alloc: Global) -> Result<Vec<(Mono, i128)>, NoMemory>
        ensures all { IfOk result (λ v. v.items ≡ self.now) }
        ensures sound { IsPoly nat_cmp self.now }
    {
        let one = Mono::one(alloc);
        let mut terms = Vec::new(alloc);
        push_terms(alloc, &mut terms, &one, 0, &self.form)?;
        collected(alloc, &terms)
    }
}
