//! Monomials of answers: their faults, and the monomials over the numbers of a table's atoms.

ghost use Rattle.std.specs.Prelude.{◌≡◌, ◌≤◌, [], nat_lt, unwrap_or, All, IfOk, flat_map, map, sum_by};
ghost use Rattle.alg_mono.specs.Monomials.{MAX_DEGREE};
ghost use Rattle.alg_reader.specs.WellRead.{IsWellMono};
ghost use Rattle.alg_reify.specs.Numbered.{number_of};
ghost use Rattle.alg_typing.specs.Faults.{first_of};
ghost use Rattle.alg_annotated.specs.Monomials.{HasNames, exponent_of, factor_names, mono_names, factor_atom, factor_fault, factor_pair, mono_faults, monomial_of};

use crate::atoms::{find, names_of};
use crate::scope::Scope;
use alg_mono::{Mono, MonoEnd};
use alg_reader::{RawFactor, RawMono};
use alg_reify::Atoms;
use alg_terms::{Atom, NoMemory};
use alg_tokens::{Code, Refusal};
use alg_typing::{earlier, fault_where};
use std::alloc::{AllocError, Global};

/// The greatest degree of a monomial.
const DEGREE_LIMIT: u128 = 1_000;

/// The exponent of a factor: 1 where none is written.
fn exponent_of(factor: &RawFactor) -> u128
    ensures { result ≡ exponent_of factor.now }
{
    match factor.exponent {
        Some(number) => number.value.unsigned_abs(),
        None => 1,
    }
}

/// Whether the exponents of some factors add up to more than the greatest degree.
fn are_too_many(factors: &[RawFactor]) -> bool
    ensures { result ≡ nat_lt MAX_DEGREE (sum_by exponent_of factors.now) }
{
    let mut left = DEGREE_LIMIT;
    for factor in factors {
        let exponent = exponent_of(factor);
        if exponent > left {
            return true;
        }
        left -= exponent;
    }
    false
}

impl Scope<'_> {
    /// The first fault of the names of a factor.
    fn factor_names(&self, alloc: Global, factor: &RawFactor) -> Result<Option<Refusal>, NoMemory>
        requires { HasNames self.now.text.now factor.now }
        ensures { IfOk result
            (λ fault. fault ≡ first_of (factor_names self.now.declared.now self.now.text.now factor.now)) }
    {
        let names = names_of(alloc, factor)?;
        Ok(self.atom_names(&names))
    }

    /// The first fault of the names of several factors.
    fn factors_names(
        &self,
        alloc: Global,
        factors: &[RawFactor],
    ) -> Result<Option<Refusal>, NoMemory>
        requires { All (HasNames self.now.text.now) factors.now }
        ensures { IfOk result (λ fault. fault
            ≡ first_of (flat_map (factor_names self.now.declared.now self.now.text.now) factors.now)) }
    {
        let mut first = None;
        for factor in factors {
            let fault = self.factor_names(alloc, factor)?;
            first = earlier(first, fault);
        }
        Ok(first)
    }

    /// The first fault of the names of a monomial.
    pub(crate) fn mono_names(
        &self,
        alloc: Global,
        mono: &RawMono,
    ) -> Result<Option<Refusal>, NoMemory>
        requires { IsWellMono self.now.text.now mono.now }
        ensures { IfOk result
            (λ fault. fault ≡ first_of (mono_names self.now.declared.now self.now.text.now mono.now)) }
    {
        self.factors_names(alloc, mono.factors.as_slice())
    }

    /// The whole atom of a factor.
    fn factor_atom(&self, alloc: Global, factor: &RawFactor) -> Result<Atom, NoMemory>
        requires { HasNames self.now.text.now factor.now }
        ensures { IfOk result
            (λ atom. atom ≡ factor_atom self.now.declared.now self.now.text.now factor.now) }
    {
        let names = names_of(alloc, factor)?;
        self.atom_of(alloc, &names)
    }

    /// The fault of a factor whose atom is not in the table.
    fn factor_fault(
        &self,
        alloc: Global,
        atoms: &Option<Atoms>,
        factor: &RawFactor,
    ) -> Result<Option<Refusal>, NoMemory>
        requires { HasNames self.now.text.now factor.now }
        ensures { IfOk result (λ fault. fault ≡ first_of
            (factor_fault self.now.declared.now self.now.text.now (unwrap_or atoms.now []) factor.now)) }
    {
        let atom = self.factor_atom(alloc, factor)?;
        let unknown = find(atoms, &atom).is_none();
        Ok(fault_where(unknown, Code::Line, factor.name.start))
    }

    /// The first fault of the factors of a monomial.
    fn factors_fault(
        &self,
        alloc: Global,
        atoms: &Option<Atoms>,
        factors: &[RawFactor],
    ) -> Result<Option<Refusal>, NoMemory>
        requires { All (HasNames self.now.text.now) factors.now }
        ensures { IfOk result (λ fault. fault ≡ first_of (flat_map
            (factor_fault self.now.declared.now self.now.text.now (unwrap_or atoms.now [])) factors.now)) }
    {
        let mut first = None;
        for factor in factors {
            let fault = self.factor_fault(alloc, atoms, factor)?;
            first = earlier(first, fault);
        }
        Ok(first)
    }

    /// The first fault of a monomial, by the atoms of the goal's table.
    #[tactic(auto, using(alg_typing::proofs::Firsts::firsts))]
    pub(crate) fn mono_fault(
        &self,
        alloc: Global,
        atoms: &Option<Atoms>,
        mono: &RawMono,
    ) -> Result<Option<Refusal>, NoMemory>
        requires { IsWellMono self.now.text.now mono.now }
        ensures { IfOk result (λ fault. fault ≡ first_of
            (mono_faults self.now.declared.now self.now.text.now (unwrap_or atoms.now []) mono.now)) }
    {
        let factors = self.factors_fault(alloc, atoms, mono.factors.as_slice())?;
        let degree = fault_where(
            are_too_many(mono.factors.as_slice()),
            Code::Line,
            mono.start,
        );
        Ok(earlier(degree, factors))
    }

    /// The number of the atom of a factor, which is in the table.
    fn factor_number(
        &self,
        alloc: Global,
        atoms: &Option<Atoms>,
        factor: &RawFactor,
    ) -> Result<u32, NoMemory>
        requires names { HasNames self.now.text.now factor.now }
        requires there { factor_fault self.now.declared.now self.now.text.now (unwrap_or atoms.now []) factor.now ≡ [] }
        ensures { IfOk result (λ number. number
            ≡ number_of (unwrap_or atoms.now []) (factor_atom self.now.declared.now self.now.text.now factor.now)) }
    {
        let atom = self.factor_atom(alloc, factor)?;
        match find(atoms, &atom) {
            Some(number) => Ok(number),
            None => unreachable!(),
        }
    }

    /// The factors of a monomial, each as the number of its atom with its exponent.
    fn pairs_of(
        &self,
        alloc: Global,
        atoms: &Option<Atoms>,
        factors: &[RawFactor],
    ) -> Result<Vec<(u32, u32)>, NoMemory>
        requires names { All (HasNames self.now.text.now) factors.now }
        requires low { sum_by exponent_of factors.now ≤ MAX_DEGREE }
        requires there { flat_map (factor_fault self.now.declared.now self.now.text.now (unwrap_or atoms.now []))
            factors.now ≡ [] }
        ensures { IfOk result (λ pairs. pairs.items
            ≡ map (factor_pair self.now.declared.now self.now.text.now (unwrap_or atoms.now [])) factors.now) }
    {
        let mut pairs = Vec::new(alloc);
        for factor in factors {
            let number = self.factor_number(alloc, atoms, factor)?;
            let exponent = exponent_of(factor) as u32;
            pairs.push((number, exponent))?;
        }
        Ok(pairs)
    }

    /// A monomial without faults, over the numbers of the atoms of the goal's table.
    pub(crate) fn monomial_of(
        &self,
        alloc: Global,
        atoms: &Option<Atoms>,
        mono: &RawMono,
    ) -> Result<Mono, NoMemory>
        requires well_read { IsWellMono self.now.text.now mono.now }
        requires faultless { mono_faults self.now.declared.now self.now.text.now (unwrap_or atoms.now []) mono.now ≡ [] }
        ensures { IfOk result (λ m. m
            ≡ monomial_of self.now.declared.now self.now.text.now (unwrap_or atoms.now []) mono.now) }
    {
        let pairs = self.pairs_of(alloc, atoms, mono.factors.as_slice())?;
        match Mono::from_pairs(alloc, &pairs) {
            Ok(monomial) => Ok(monomial),
            Err(MonoEnd::NoMemory) => Err(AllocError),
            Err(MonoEnd::Degree) => unreachable!(),
        }
    }
}
