//! Terms with the numbers of what they name.

ghost use Rattle.std.specs.Prelude.{◌≡◌, ◌<◌, ◌^◌, map, All, IfOk, IfSome};
ghost use Rattle.std.specs.Int.RustNames.{unsigned_abs};
ghost use Rattle.alg_reader.specs.WellRead.{IsNameAt, IsWellUse, IsWellMethod};
ghost use Rattle.alg_typing.specs.Resolved.{number_at, term_of, equation_of, use_of, method_of, option_of};
ghost use Rattle.alg_typing.specs.TermsOf.{IsSmallTermOf, HasSmallOptions};

use crate::scope::Scope;
use alg_reader::{RawEquation, RawMethod, RawNode, RawNumber, RawTerm, RawUse, Span};
use alg_terms::{Equation, Method, NoMemory, Seq, Term, USUAL_LIMIT, USUAL_POWER, Use};
use sqlite_items::Boxed;
use std::alloc::Global;

impl Scope<'_> {
    /// The term with the numbers of what it names. Linear in the term.
    #[cycle(terms)]
    #[tactic(auto, using(alg_reader::proofs::Built::raw_built))]
    pub(crate) fn term_of(&self, alloc: Global, raw: &RawTerm) -> Result<Term, NoMemory>
        requires { IsSmallTermOf self.now.text.now raw.now }
        ensures { IfOk result (λ term. term ≡ term_of self.now.declared.now self.now.text.now raw.now) }
    {
        match &raw.node {
            RawNode::Var(name) => Ok(Term::Var(self.number_at(*name))),
            RawNode::Int(value) => Ok(Term::Int(*value)),
            RawNode::Neg(part) => Ok(Term::Neg(self.part_of(alloc, part.get())?)),
            RawNode::Add(left, right) => {
                let left = self.part_of(alloc, left.get())?;
                Ok(Term::Add(left, self.part_of(alloc, right.get())?))
            }
            RawNode::Sub(left, right) => {
                let left = self.part_of(alloc, left.get())?;
                Ok(Term::Sub(left, self.part_of(alloc, right.get())?))
            }
            RawNode::Mul(left, right) => {
                let left = self.part_of(alloc, left.get())?;
                Ok(Term::Mul(left, self.part_of(alloc, right.get())?))
            }
            RawNode::Div(left, right) => {
                let left = self.part_of(alloc, left.get())?;
                Ok(Term::Div(left, self.part_of(alloc, right.get())?))
            }
            RawNode::Pow(part, exponent) => {
                let part = self.part_of(alloc, part.get())?;
                Ok(Term::Pow(part, exponent.value.unsigned_abs() as u32))
            }
            RawNode::Hom(name, part) => {
                let part = self.part_of(alloc, part.get())?;
                Ok(Term::Hom(self.number_at(*name), part))
            }
        }
    }

    /// A part of a term with the numbers of what it names.
    #[cycle(terms)]
    fn part_of(&self, alloc: Global, raw: &RawTerm) -> Result<Boxed<Term>, NoMemory>
        requires { IsSmallTermOf self.now.text.now raw.now }
        ensures { IfOk result (λ term. term ≡ term_of self.now.declared.now self.now.text.now raw.now) }
    {
        Boxed::new(alloc, self.term_of(alloc, raw)?)
    }

    /// An equation with the numbers of what it names, and its sort.
    pub(crate) fn equation_of(&self, alloc: Global, e: &RawEquation) -> Result<Equation, NoMemory>
        requires left { IsSmallTermOf self.now.text.now e.now.left }
        requires right { IsSmallTermOf self.now.text.now e.now.right }
        ensures { IfOk result
            (λ equation. equation ≡ equation_of self.now.declared.now self.now.text.now e.now) }
    {
        let sort = self.sort_of_sides(e);
        let left = self.term_of(alloc, &e.left)?;
        let right = self.term_of(alloc, &e.right)?;
        Ok(Equation {
            sort: sort.unwrap_or(0),
            left,
            right,
        })
    }

    /// The numbers of the morphisms of a path.
    pub(crate) fn path_of(&self, alloc: Global, path: &[Span]) -> Result<Vec<u32>, NoMemory>
        requires { All (IsNameAt self.now.text.now) path.now }
        ensures { IfOk result
            (λ numbers. numbers.items ≡ map (number_at self.now.declared.now self.now.text.now) path.now) }
    {
        let mut numbers = Vec::new(alloc);
        for name in path {
            numbers.push(self.number_at(*name))?;
        }
        Ok(numbers)
    }

    /// A use with the numbers of what it names.
    fn use_of(&self, alloc: Global, used: &RawUse) -> Result<Use, NoMemory>
        requires { IsWellUse self.now.text.now used.now }
        ensures { IfOk result (λ u. u ≡ use_of self.now.declared.now self.now.text.now used.now) }
    {
        Ok(Use {
            path: Seq::from_vec(self.path_of(alloc, used.path.items())?),
            hyp: self.number_at(used.hyp),
        })
    }

    /// Uses with the numbers of what they name.
    fn uses_of(&self, alloc: Global, uses: &[RawUse]) -> Result<Vec<Use>, NoMemory>
        requires { All (IsWellUse self.now.text.now) uses.now }
        ensures { IfOk result
            (λ all. all.items ≡ map (use_of self.now.declared.now self.now.text.now) uses.now) }
    {
        let mut all = Vec::new(alloc);
        for used in uses {
            all.push(self.use_of(alloc, used)?)?;
        }
        Ok(all)
    }

    /// A method with the numbers of what it names.
    pub(crate) fn method_of(&self, alloc: Global, method: &RawMethod) -> Result<Method, NoMemory>
        requires well { IsWellMethod self.now.text.now method.now }
        requires options { HasSmallOptions method.now }
        ensures { IfOk result (λ m. m ≡ method_of self.now.declared.now self.now.text.now method.now) }
    {
        match method {
            RawMethod::Ring => Ok(Method::ByRing),
            RawMethod::Field => Ok(Method::ByField),
            RawMethod::Nsatz { uses, power, limit } => Ok(Method::ByNsatz {
                uses: Seq::from_vec(self.uses_of(alloc, uses.items())?),
                power: option_of(USUAL_POWER, *power),
                limit: option_of(USUAL_LIMIT, *limit),
            }),
        }
    }
}

/// The numeral of an option, or what it is where it is not written.
fn option_of(default: u32, number: Option<RawNumber>) -> u32
    requires { IfSome number (λ n. unsigned_abs n.value < 2 ^ 32) }
    ensures { result ≡ option_of default number }
{
    match number {
        Some(n) => n.value.unsigned_abs() as u32,
        None => default,
    }
}
