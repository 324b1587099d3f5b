//! The sorts of terms, and the first fault of the sorts, exponents and quotients in a term.

ghost use Rattle.std.specs.Prelude.{◌≡◌, ◌&&◌, not, false, Some, None};
ghost use Rattle.std.specs.Option.{option_or, option_map_or};
ghost use Rattle.alg_terms.specs.Members.{kind_of, source_of, target_of, hyp_at};
ghost use Rattle.alg_tokens.specs.declared.code.Code.TheVariants as code;
ghost use Rattle.alg_typing.specs.Faults.{first_of, fault_if, earlier_of};
ghost use Rattle.alg_typing.specs.TermSorts.{is_ring, is_field, differ, exponent, is_no_field, quotient, sorted};
ghost use Rattle.alg_typing.specs.Checks.{IsCheckOf};
ghost use Rattle.alg_typing.specs.TermsOf.{IsTermOf};

use crate::faults::{earlier, fault_where};
use crate::scope::Scope;
use alg_reader::{RawNode, RawNumber, RawTerm};
use alg_terms::{GREATEST_EXPONENT, Kind};
use alg_tokens::{Code, Refusal};

/// Where a term stands: its final sort, where it has one, whether all morphisms over it go to
/// fields, and whether there may be quotients at all.
#[derive(Clone, Copy, PartialEq, Eq, Debug)]
pub(crate) struct Context {
    pub(crate) sort: Option<u32>,
    pub(crate) in_fields: bool,
    pub(crate) may_divide: bool,
}

/// A term's own sort, where it has one, and its first fault.
#[derive(Clone, Copy, PartialEq, Eq, Debug)]
pub(crate) struct Checked {
    pub(crate) own: Option<u32>,
    pub(crate) fault: Option<Refusal>,
}

/// Whether a kind has the laws of fields.
pub(crate) fn is_field(kind: Kind) -> bool
    ensures { result ≡ is_field kind }
{
    match kind {
        Kind::Field => true,
        Kind::Ring | Kind::Domain => false,
    }
}

/// Whether a kind has the laws of rings alone.
fn is_ring(kind: Kind) -> bool
    ensures { result ≡ is_ring kind }
{
    match kind {
        Kind::Ring => true,
        Kind::Domain | Kind::Field => false,
    }
}

/// Whether two own sorts are both there and differ.
pub(crate) fn differ(first: Option<u32>, second: Option<u32>) -> bool
    ensures { result ≡ differ first second }
{
    match (first, second) {
        (Some(s), Some(t)) => s != t,
        _ => false,
    }
}

/// The fault of an exponent.
fn exponent_fault(numeral: RawNumber) -> Option<Refusal>
    ensures { result ≡ first_of (exponent numeral) }
{
    let over = numeral.value.unsigned_abs() > GREATEST_EXPONENT as u128;
    fault_where(over, Code::Exponent, numeral.at)
}

impl Scope<'_> {
    /// Whether a sort is there and is no field.
    pub(crate) fn is_no_field(&self, sort: Option<u32>) -> bool
        ensures { result ≡ is_no_field self.now.declared.now self.now.text.now sort }
    {
        match sort {
            Some(sort) => !is_field(self.declared.kind_of(sort)),
            None => false,
        }
    }

    /// Whether a sort is there and is no domain.
    pub(crate) fn is_no_domain(&self, sort: Option<u32>) -> bool
        ensures { result ≡ option_map_or (λ s. is_ring (kind_of self.now.declared.now s)) sort false }
    {
        match sort {
            Some(sort) => is_ring(self.declared.kind_of(sort)),
            None => false,
        }
    }

    /// Whether a hypothesis is a `<>` whose sort is no field.
    pub(crate) fn is_unequal_of_no_field(&self, hyp: u32) -> bool
        ensures { result ≡ ((hyp_at self.now.declared.now hyp).nonzero
            && not (is_field (kind_of self.now.declared.now (hyp_at self.now.declared.now hyp).equation.sort))) }
    {
        let in_field = is_field(self.declared.kind_of(self.declared.sort_of_hyp(hyp)));
        self.declared.is_unequal(hyp) && !in_field
    }

    /// A term's own sort. Names are resolved as in a term without faults of names.
    #[tactic(auto, using(alg_reader::proofs::Built::raw_built))]
    pub(crate) fn own_sort(&self, term: &RawTerm) -> Option<u32>
        requires { IsTermOf self.now.text.now term.now }
        ensures { result ≡ (sorted self.now.declared.now self.now.text.now false term.now).own }
    {
        match &term.node {
            RawNode::Var(name) => Some(self.declared.sort_of_var(self.number_at(*name))),
            RawNode::Int(_) => None,
            RawNode::Neg(part) | RawNode::Pow(part, _) => self.own_sort(part.get()),
            RawNode::Add(left, right)
            | RawNode::Sub(left, right)
            | RawNode::Mul(left, right)
            | RawNode::Div(left, right) => {
                self.own_sort(left.get()).or(self.own_sort(right.get()))
            }
            RawNode::Hom(name, _) => Some(self.declared.target_of(self.number_at(*name))),
        }
    }

    /// A term's own sort, and the first fault of the sorts, exponents and quotients in it where it
    /// stands so. Linear in the term.
    #[tactic(auto, using(alg_reader::proofs::Built::raw_built, crate::proofs::Firsts::firsts))]
    pub(crate) fn check(&self, term: &RawTerm, at: Context) -> Checked
        requires { IsTermOf self.now.text.now term.now }
        ensures { IsCheckOf self.now.declared.now self.now.text.now at term.now result }
    {
        match &term.node {
            RawNode::Var(name) => { leaf(Some(self.declared.sort_of_var(self.number_at(*name)))) }
            RawNode::Int(_) => leaf(None),
            RawNode::Neg(part) => self.check(part.get(), at),
            RawNode::Add(left, right) | RawNode::Sub(left, right) | RawNode::Mul(left, right) => {
                operator(
                    term.head,
                    self.check(left.get(), at),
                    self.check(right.get(), at),
                )
            }
            RawNode::Div(left, right) => behind(
                self.quotient_fault(term.head, at),
                operator(
                    term.head,
                    self.check(left.get(), at),
                    self.check(right.get(), at),
                ),
            ),
            RawNode::Pow(part, exponent) => {
                behind(exponent_fault(*exponent), self.check(part.get(), at))
            }
            RawNode::Hom(name, part) => {
                let hom = self.number_at(*name);
                self.image(term.head, hom, self.check(part.get(), self.below(at, hom)))
            }
        }
    }

    /// The fault of a quotient that stands so.
    fn quotient_fault(&self, head: u32, at: Context) -> Option<Refusal>
        ensures { result ≡ first_of
            (quotient self.now.declared.now self.now.text.now at.may_divide head at.sort at.in_fields) }
    {
        let refused = !at.may_divide || self.is_no_field(at.sort) || !at.in_fields;
        fault_where(refused, Code::Division, head)
    }

    /// Where the argument of a morphism stands.
    fn below(&self, at: Context, hom: u32) -> Context
        ensures { result ≡ record at {
          sort = Some (source_of self.now.declared.now hom);
          in_fields = at.in_fields && is_field (kind_of self.now.declared.now (target_of self.now.declared.now hom));
        } }
    {
        let to_field = is_field(self.declared.kind_of(self.declared.target_of(hom)));
        Context {
            sort: Some(self.declared.source_of(hom)),
            in_fields: at.in_fields && to_field,
            may_divide: at.may_divide,
        }
    }

    /// The image under a morphism of an argument that was checked.
    #[tactic(auto, using(crate::proofs::Firsts::firsts))]
    fn image(&self, head: u32, hom: u32, part: Checked) -> Checked
        ensures own { result.own ≡ Some (target_of self.now.declared.now hom) }
        ensures fault { result.fault ≡ earlier_of
            (first_of (fault_if (differ part.own (Some (source_of self.now.declared.now hom))) code.Sort head))
            part.fault }
    {
        let differs = differ(part.own, Some(self.declared.source_of(hom)));
        Checked {
            own: Some(self.declared.target_of(hom)),
            fault: earlier(fault_where(differs, Code::Sort, head), part.fault),
        }
    }
}

/// A leaf, which has no fault.
fn leaf(own: Option<u32>) -> Checked
    ensures own { result.own ≡ own }
    ensures fault { result.fault ≡ None }
{
    Checked { own, fault: None }
}

/// What was checked, behind a fault.
fn behind(fault: Option<Refusal>, checked: Checked) -> Checked
    ensures own { result.own ≡ checked.own }
    ensures fault { result.fault ≡ earlier_of fault checked.fault }
{
    Checked {
        own: checked.own,
        fault: earlier(fault, checked.fault),
    }
}

/// An operator on two parts that were checked.
fn operator(head: u32, left: Checked, right: Checked) -> Checked
    ensures own { result.own ≡ option_or left.own right.own }
    ensures fault { result.fault
        ≡ earlier_of (first_of (fault_if (differ left.own right.own) code.Sort head))
        (earlier_of left.fault right.fault) }
{
    let parts = earlier(left.fault, right.fault);
    Checked {
        own: left.own.or(right.own),
        fault: earlier(
            fault_where(differ(left.own, right.own), Code::Sort, head),
            parts,
        ),
    }
}
