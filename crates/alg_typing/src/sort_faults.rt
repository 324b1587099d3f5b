//! The faults of the sorts, quotients and options of a statement, once all names are resolved.

ghost use Rattle.std.specs.Prelude.{◌≡◌, ℕ, List, All, flat_map};
ghost use Rattle.alg_terms.specs.declared.file.File.{File};
ghost use Rattle.alg_reader.specs.WellRead.{IsNameAt, IsWellEquation, IsWellUse, IsWellMethod, IsWellKind};
ghost use Rattle.alg_typing.specs.Faults.{first_of};
ghost use Rattle.alg_typing.specs.TermsOf.{IsTermOf};
ghost use Rattle.alg_typing.specs.SortFaults.{sort_of_sides, equation_sorts, sort_along, path_sorts, is_bad_unequal, use_sorts, method_sorts, option_range, may_divide_by, start_of, sort_faults};

use crate::faults::{earlier, fault_where};
use crate::scope::Scope;
use crate::sorts::{Context, differ, is_field};
use alg_reader::{RawEquation, RawKind, RawMethod, RawNumber, RawUse, Span};
use alg_terms::{GREATEST_LIMIT, GREATEST_POWER, Kind, LEAST_LIMIT, LEAST_POWER};
use alg_tokens::{Code, Refusal};

/// Whether a goal by this method may have quotients.
fn may_divide_by(method: &RawMethod) -> bool
    ensures { (file : File) (text : List ℕ) → result ≡ may_divide_by file text method.now }
{
    match method {
        RawMethod::Field => true,
        RawMethod::Ring | RawMethod::Nsatz { .. } => false,
    }
}

/// Where a use begins.
fn start_of(used: &RawUse) -> u32
    ensures { result ≡ start_of used.now }
{
    match used.path.items() {
        [] => used.hyp.start,
        [name, ..] => name.start,
    }
}

/// The fault of an option's numeral that is not from the least to the greatest.
fn option_fault(low: u32, high: u32, number: Option<RawNumber>) -> Option<Refusal>
    ensures { result ≡ first_of (option_range low high number) }
{
    match number {
        Some(n) => {
            let value = n.value.unsigned_abs();
            fault_where(
                value < low as u128 || value > high as u128,
                Code::Option,
                n.at,
            )
        }
        None => None,
    }
}

impl Scope<'_> {
    /// The sort of an equation, where a side has an own sort.
    pub(crate) fn sort_of_sides(&self, e: &RawEquation) -> Option<u32>
        requires left { IsTermOf self.now.text.now e.now.left }
        requires right { IsTermOf self.now.text.now e.now.right }
        ensures { result ≡ sort_of_sides self.now.declared.now self.now.text.now e.now }
    {
        self.own_sort(&e.left).or(self.own_sort(&e.right))
    }

    /// The first fault of the sorts of an equation, which has this sort.
    fn equation_fault(
        &self,
        e: &RawEquation,
        sort: Option<u32>,
        may_divide: bool,
    ) -> Option<Refusal>
        requires well { IsWellEquation self.now.text.now e.now }
        requires sort { sort ≡ sort_of_sides self.now.declared.now self.now.text.now e.now }
        ensures { result ≡ first_of (equation_sorts self.now.declared.now self.now.text.now may_divide e.now) }
    {
        let at = Context {
            sort,
            in_fields: true,
            may_divide,
        };
        let left = self.check(&e.left, at);
        let right = self.check(&e.right, at);
        let differs = fault_where(differ(left.own, right.own), Code::Sort, e.relation);
        let missing = fault_where(sort.is_none(), Code::NoSort, e.relation);
        earlier(left.fault, earlier(right.fault, earlier(differs, missing)))
    }

    /// The sort of a hypothesis under a path of morphisms.
    fn sort_along(&self, path: &[Span], hyp: u32) -> u32
        requires { All (IsNameAt self.now.text.now) path.now }
        ensures { result ≡ sort_along self.now.declared.now self.now.text.now path.now hyp }
    {
        match path {
            [] => self.declared.sort_of_hyp(hyp),
            [name, ..] => self.declared.target_of(self.number_at(*name)),
        }
    }

    /// The first fault of the sorts of a path.
    fn path_fault(&self, path: &[Span], hyp: u32) -> Option<Refusal>
        requires { All (IsNameAt self.now.text.now) path.now }
        ensures { result ≡ first_of (path_sorts self.now.declared.now self.now.text.now path.now hyp) }
    {
        let mut first = None;
        for (i, name) in path.iter().enumerate() {
            let source = self.declared.source_of(self.number_at(*name));
            let differs = self.sort_along(&path[i + 1..], hyp) != source;
            first = earlier(first, fault_where(differs, Code::Sort, name.start));
        }
        first
    }

    /// Whether a hypothesis that is used under this path is a `<>` of no field.
    fn is_bad_unequal(&self, path: &[Span], hyp: u32) -> bool
        ensures { result ≡ is_bad_unequal self.now.declared.now self.now.text.now path.now hyp }
    {
        match path {
            [] => false,
            [_, ..] => self.is_unequal_of_no_field(hyp),
        }
    }

    /// The first fault of the sorts of a use in a goal of this sort.
    #[tactic(auto, using(crate::proofs::Firsts::firsts_grouped))]
    fn use_fault(&self, sort: Option<u32>, used: &RawUse) -> Option<Refusal>
        requires { IsWellUse self.now.text.now used.now }
        ensures { result ≡ first_of (use_sorts self.now.declared.now self.now.text.now sort used.now) }
    {
        let hyp = self.number_at(used.hyp);
        let path = used.path.items();
        let start = start_of(used);
        let own = Some(self.sort_along(path, hyp));
        let differs = fault_where(differ(own, sort), Code::Sort, start);
        let unequal = fault_where(self.is_bad_unequal(path, hyp), Code::NotField, start);
        earlier(self.path_fault(path, hyp), earlier(differs, unequal))
    }

    /// The first fault of the sorts of several uses in a goal of this sort.
    fn uses_fault(&self, sort: Option<u32>, uses: &[RawUse]) -> Option<Refusal>
        requires { All (IsWellUse self.now.text.now) uses.now }
        ensures { result ≡ first_of (flat_map (use_sorts self.now.declared.now self.now.text.now sort) uses.now) }
    {
        let mut first = None;
        for used in uses {
            first = earlier(first, self.use_fault(sort, used));
        }
        first
    }

    /// The first fault of a method in a goal of this sort.
    #[tactic(auto, using(crate::proofs::Firsts::firsts_grouped))]
    fn method_fault(&self, sort: Option<u32>, method_at: u32, method: &RawMethod) -> Option<Refusal>
        requires { IsWellMethod self.now.text.now method.now }
        ensures { result ≡ first_of (method_sorts self.now.declared.now self.now.text.now sort method_at method.now) }
    {
        match method {
            RawMethod::Ring => None,
            RawMethod::Field => fault_where(self.is_no_field(sort), Code::NotField, method_at),
            RawMethod::Nsatz { uses, power, limit } => {
                let ring = fault_where(self.is_no_domain(sort), Code::NotDomain, method_at);
                let uses = self.uses_fault(sort, uses.items());
                let options = earlier(
                    option_fault(LEAST_POWER, GREATEST_POWER, *power),
                    option_fault(LEAST_LIMIT, GREATEST_LIMIT, *limit),
                );
                earlier(ring, earlier(uses, options))
            }
        }
    }

    /// The first fault of the sorts of a statement. Linear in the statement.
    #[tactic(auto, using(crate::proofs::Firsts::firsts))]
    pub(crate) fn sort_faults(&self, kind: &RawKind) -> Option<Refusal>
        requires { IsWellKind self.now.text.now kind.now }
        ensures { result ≡ first_of (sort_faults self.now.declared.now self.now.text.now kind.now) }
    {
        match kind {
            RawKind::End
            | RawKind::Sort { .. }
            | RawKind::Hom { .. }
            | RawKind::Vars { .. }
            | RawKind::Answer(_)
            | RawKind::Line { .. }
            | RawKind::Step { .. } => { None }
            RawKind::Hyp { equation, .. } => {
                self.equation_fault(equation, self.sort_of_sides(equation), false)
            }
            RawKind::Goal {
                equation,
                method,
                method_at,
            } => {
                let sort = self.sort_of_sides(equation);
                let sides = self.equation_fault(equation, sort, may_divide_by(method));
                earlier(sides, self.method_fault(sort, *method_at, method))
            }
        }
    }
}
