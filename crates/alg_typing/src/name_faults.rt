//! The faults of the names that a statement uses or declares.

ghost use Rattle.std.specs.Prelude.{◌≡◌, ◌++◌, [], All, flat_map, IfOk};
ghost use Rattle.alg_reader.specs.WellRead.{IsNameAt, IsWellEquation, IsWellUse, IsWellMethod, IsWellKind};
ghost use Rattle.alg_typing.specs.Faults.{first_of};
ghost use Rattle.alg_typing.specs.NameFaults.{used_name, term_names, equation_names, use_names, method_names, new_name, new_names, name_faults};
ghost use Rattle.alg_typing.specs.Names.{is_hom};
ghost use Rattle.alg_typing.specs.TermsOf.{IsTermOf};
ghost use Rattle.alg_typing.specs.Wanted.{is_wanted};

use crate::declaration::Wanted;
use crate::faults::{earlier, fault_where};
use crate::names::name_in;
use crate::scope::Scope;
use alg_reader::{RawEquation, RawKind, RawMethod, RawNode, RawTerm, RawUse, Span};
use alg_terms::NoMemory;
use alg_tokens::{Code, Refusal};
use indexmap::IndexSet;
use std::alloc::Global;

impl Scope<'_> {
    /// The fault of a name that is used where something is wanted.
    pub(crate) fn used_name(&self, name: Span, wanted: Wanted) -> Option<Refusal>
        requires { IsNameAt self.now.text.now name }
        ensures { result ≡ first_of (used_name self.now.declared.now self.now.text.now (is_wanted wanted) name) }
    {
        match self.declared_as(name) {
            None => fault_where(true, Code::Unknown, name.start),
            Some(declaration) => fault_where(!wanted.is(declaration), Code::WrongUse, name.start),
        }
    }

    /// The first fault of the names of a term.
    #[tactic(auto, using(alg_reader::proofs::Built::raw_built, crate::proofs::Firsts::firsts))]
    pub(crate) fn term_names(&self, term: &RawTerm) -> Option<Refusal>
        requires { IsTermOf self.now.text.now term.now }
        ensures { result ≡ first_of (term_names self.now.declared.now self.now.text.now term.now) }
    {
        match &term.node {
            RawNode::Var(name) => self.used_name(*name, Wanted::Var),
            RawNode::Int(_) => None,
            RawNode::Neg(part) | RawNode::Pow(part, _) => self.term_names(part.get()),
            RawNode::Add(left, right)
            | RawNode::Sub(left, right)
            | RawNode::Mul(left, right)
            | RawNode::Div(left, right) => {
                earlier(self.term_names(left.get()), self.term_names(right.get()))
            }
            RawNode::Hom(name, part) => earlier(
                self.used_name(*name, Wanted::Hom),
                self.term_names(part.get()),
            ),
        }
    }

    /// The first fault of the names of an equation.
    #[tactic(auto, using(crate::proofs::Firsts::firsts))]
    fn equation_names(&self, equation: &RawEquation) -> Option<Refusal>
        requires { IsWellEquation self.now.text.now equation.now }
        ensures { result ≡ first_of (equation_names self.now.declared.now self.now.text.now equation.now) }
    {
        earlier(
            self.term_names(&equation.left),
            self.term_names(&equation.right),
        )
    }

    /// The first fault of the names of a path of morphisms.
    pub(crate) fn path_names(&self, path: &[Span]) -> Option<Refusal>
        requires { All (IsNameAt self.now.text.now) path.now }
        ensures { result ≡ first_of (flat_map (used_name self.now.declared.now self.now.text.now is_hom) path.now) }
    {
        let mut first = None;
        for name in path {
            first = earlier(first, self.used_name(*name, Wanted::Hom));
        }
        first
    }

    /// The first fault of the names of several uses.
    fn uses_names(&self, uses: &[RawUse]) -> Option<Refusal>
        requires { All (IsWellUse self.now.text.now) uses.now }
        ensures { result ≡ first_of (flat_map (use_names self.now.declared.now self.now.text.now) uses.now) }
    {
        let mut first = None;
        for used in uses {
            first = earlier(first, self.use_names(used));
        }
        first
    }

    /// The first fault of the names of a use.
    #[tactic(auto, using(crate::proofs::Firsts::firsts))]
    fn use_names(&self, used: &RawUse) -> Option<Refusal>
        requires { IsWellUse self.now.text.now used.now }
        ensures { result ≡ first_of (use_names self.now.declared.now self.now.text.now used.now) }
    {
        earlier(
            self.path_names(used.path.items()),
            self.used_name(used.hyp, Wanted::Hyp),
        )
    }

    /// The first fault of the names of a method.
    fn method_names(&self, method: &RawMethod) -> Option<Refusal>
        requires { IsWellMethod self.now.text.now method.now }
        ensures { result ≡ first_of (method_names self.now.declared.now self.now.text.now method.now) }
    {
        match method {
            RawMethod::Ring | RawMethod::Field => None,
            RawMethod::Nsatz { uses, .. } => self.uses_names(uses.items()),
        }
    }

    /// The fault of a name that is to be declared.
    fn new_name(&self, name: Span) -> Option<Refusal>
        requires { IsNameAt self.now.text.now name }
        ensures { result ≡ first_of (new_name self.now.declared.now self.now.text.now [] name) }
    {
        fault_where(self.declared_as(name).is_some(), Code::Again, name.start)
    }

    /// The first fault of names that are to be declared, one after the other. Linear in their bytes.
    fn new_names(&self, alloc: Global, names: &[Span]) -> Result<Option<Refusal>, NoMemory>
        requires { All (IsNameAt self.now.text.now) names.now }
        ensures { IfOk result
            (λ fault. fault ≡ first_of (new_names self.now.declared.now self.now.text.now [] names.now)) }
    {
        let mut before: IndexSet<String> = IndexSet::new(alloc);
        let mut first = None;
        for name in names {
            let text = name_in(self.text, *name);
            let again = self.declared.declared_as(text).is_some() || before.contains(text);
            first = earlier(first, fault_where(again, Code::Again, name.start));
            before.insert(String::from_str(alloc, text)?)?;
        }
        Ok(first)
    }

    /// The first fault of the names of a statement. Linear in the statement.
    #[tactic(auto, using(crate::proofs::Firsts::firsts))]
    pub(crate) fn name_faults(
        &self,
        alloc: Global,
        kind: &RawKind,
    ) -> Result<Option<Refusal>, NoMemory>
        requires { IsWellKind self.now.text.now kind.now }
        ensures { IfOk result
            (λ fault. fault ≡ first_of (name_faults self.now.declared.now self.now.text.now kind.now)) }
    {
        match kind {
            RawKind::End | RawKind::Answer(_) | RawKind::Line { .. } | RawKind::Step { .. } => Ok(
                None,
            ),
            RawKind::Sort { name, .. } => Ok(self.new_name(*name)),
            RawKind::Hom { name, from, to } => {
                let sorts = earlier(
                    self.used_name(*from, Wanted::Sort),
                    self.used_name(*to, Wanted::Sort),
                );
                Ok(earlier(self.new_name(*name), sorts))
            }
            RawKind::Vars { names, sort } => {
                let first = self.new_names(alloc, names.items())?;
                Ok(earlier(first, self.used_name(*sort, Wanted::Sort)))
            }
            RawKind::Hyp { name, equation } => Ok(earlier(
                self.new_name(*name),
                self.equation_names(equation),
            )),
            RawKind::Goal {
                equation,
                method,
                ..
            } => Ok(earlier(self.equation_names(equation), self.method_names(method))),
        }
    }
}
