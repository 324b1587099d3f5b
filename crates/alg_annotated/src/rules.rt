//! The first faults of answers, lines and steps: of depth, of names, and of all else.

ghost use Rattle.std.specs.Prelude.{◌≡◌, ◌<◌, ◌-◌, [], length, unwrap_or, All, IfOk, flat_map};
ghost use Rattle.std.specs.Option.{option_map_or};
ghost use Rattle.alg_reader.specs.WellRead.{IsWellAnswer, IsWellKind, IsWellTerm};
ghost use Rattle.alg_reify.specs.Table.{goal_atoms};
ghost use Rattle.alg_typing.specs.AnswerTerms.{answer_sorts};
ghost use Rattle.alg_typing.specs.Faults.{first_of};
ghost use Rattle.alg_annotated.specs.Parts.{IsAnswerPart};
ghost use Rattle.alg_annotated.specs.Reading.{first_fault};
ghost use Rattle.alg_annotated.specs.Rules.{last_goal, belongs, count_fault, version_fault, part_faults, answer_faults, statement_faults};

use crate::scope::Scope;
use alg_reader::{Raw, RawAnswer, RawKind, RawNumber, RawTerm};
use alg_reify::Atoms;
use alg_terms::{Method, NoMemory};
use alg_tokens::{Code, Refusal};
use alg_typing::{earlier, fault_where};
use std::alloc::Global;

/// The greatest line number, power and count.
const GREATEST_COUNT: u128 = u32::MAX as u128;

/// Whether the form of an answer belongs to a method.
fn belongs(method: &Method, said: &RawAnswer) -> bool
    ensures { result ≡ belongs method.now said.now }
{
    match (method, said) {
        (_, RawAnswer::Range) | (_, RawAnswer::Degree) | (_, RawAnswer::Atoms) => true,
        (Method::ByRing, RawAnswer::Proved { .. }) | (Method::ByRing, RawAnswer::No { .. }) => true,
        (Method::ByField, RawAnswer::Proved { .. })
        | (Method::ByField, RawAnswer::No { .. })
        | (Method::ByField, RawAnswer::ZeroDenominator { .. }) => true,
        (Method::ByNsatz { .. }, RawAnswer::Certified { .. })
        | (Method::ByNsatz { .. }, RawAnswer::NoneUpTo(_))
        | (Method::ByNsatz { .. }, RawAnswer::GaveUp(_)) => true,
        _ => false,
    }
}

/// The fault of a line number, a power or a count that is too great.
fn count_fault(number: &RawNumber) -> Option<Refusal>
    ensures { result ≡ first_of (count_fault number.now) }
{
    let great = number.value.unsigned_abs() > GREATEST_COUNT;
    fault_where(great, Code::Line, number.at)
}

/// The fault of a version that there is not.
fn version_fault(version: &Option<RawNumber>) -> Option<Refusal>
    ensures { result ≡ first_of (option_map_or version_fault version.now []) }
{
    match version {
        Some(version) => {
            let number = version.value.unsigned_abs();
            fault_where(!(number == 1 || number == 2), Code::Line, version.at)
        }
        None => None,
    }
}

impl Scope<'_> {
    /// The number of the last goal.
    pub(crate) fn last_goal(&self) -> u32
        requires { 0 < length self.now.declared.now.goals }
        ensures { result ≡ length self.now.declared.now.goals - 1 }
    {
        self.declared.file().goals.items().len() as u32 - 1
    }

    /// The first fault of the sorts of several terms of an answer to the last goal.
    fn terms_sorts(&self, terms: &[RawTerm]) -> Option<Refusal>
        requires well_read { All (IsWellTerm self.now.text.now) terms.now }
        requires there { 0 < length self.now.declared.now.goals }
        ensures { result ≡ first_of (flat_map
            (answer_sorts self.now.declared.now self.now.text.now (last_goal self.now.declared.now)) terms.now) }
    {
        let goal = self.last_goal();
        let mut first = None;
        for term in terms {
            first = earlier(first, self.declared.term_sorts(self.text, term, goal));
        }
        first
    }

    /// The first fault of the parts of an answer to the last goal.
    #[tactic(auto, using(alg_typing::proofs::Firsts::firsts))]
    fn parts_fault(
        &self,
        alloc: Global,
        atoms: &Option<Atoms>,
        said: &RawAnswer,
    ) -> Result<Option<Refusal>, NoMemory>
        requires well_read { IsWellAnswer self.now.text.now said.now }
        requires there { 0 < length self.now.declared.now.goals }
        requires atoms { unwrap_or atoms.now [] ≡ goal_atoms self.now.declared.now (last_goal self.now.declared.now) }
        ensures { IfOk result (λ fault. fault ≡ first_of
            (part_faults self.now.declared.now self.now.text.now (last_goal self.now.declared.now) said.now)) }
    {
        match said {
            RawAnswer::Proved { conditions } => Ok(self.terms_sorts(conditions.items())),
            RawAnswer::Certified { version, power, .. } => {
                Ok(earlier(version_fault(version), count_fault(power)))
            }
            RawAnswer::No { at, .. } => self.mono_fault(alloc, atoms, at),
            RawAnswer::ZeroDenominator { denominator } => {
                Ok(
                    self.declared
                        .term_sorts(self.text, denominator, self.last_goal()),
                )
            }
            RawAnswer::NoneUpTo(number) | RawAnswer::GaveUp(number) => Ok(count_fault(number)),
            RawAnswer::Range | RawAnswer::Degree | RawAnswer::Atoms => Ok(None),
        }
    }

    /// The first fault of an answer to the last goal, once its names are resolved.
    #[tactic(auto, using(alg_typing::proofs::Firsts::firsts))]
    fn answer_fault(
        &self,
        alloc: Global,
        atoms: &Option<Atoms>,
        start: u32,
        said: &RawAnswer,
    ) -> Result<Option<Refusal>, NoMemory>
        requires well_read { IsWellAnswer self.now.text.now said.now }
        requires there { 0 < length self.now.declared.now.goals }
        requires atoms { unwrap_or atoms.now [] ≡ goal_atoms self.now.declared.now (last_goal self.now.declared.now) }
        ensures { IfOk result (λ fault. fault ≡ first_of (answer_faults self.now.declared.now self.now.text.now
            (last_goal self.now.declared.now) start said.now)) }
    {
        let parts = self.parts_fault(alloc, atoms, said)?;
        let goal = self.declared.goal_at(self.last_goal());
        let form = fault_where(!belongs(&goal.method, said), Code::Answer, start);
        Ok(earlier(form, parts))
    }

    /// The first fault of an answer, a line or a step that begins at a byte, once its names are resolved.
    #[tactic(auto, using(alg_typing::proofs::Firsts::firsts))]
    fn resolved_fault(
        &self,
        alloc: Global,
        atoms: &Option<Atoms>,
        start: u32,
        kind: &RawKind,
    ) -> Result<Option<Refusal>, NoMemory>
        requires well_read { IsWellKind self.now.text.now kind.now }
        requires part { IsAnswerPart kind.now }
        requires there { 0 < length self.now.declared.now.goals }
        requires atoms { unwrap_or atoms.now [] ≡ goal_atoms self.now.declared.now (last_goal self.now.declared.now) }
        ensures { IfOk result (λ fault. fault
            ≡ first_of (statement_faults self.now.declared.now self.now.text.now start kind.now)) }
    {
        match kind {
            RawKind::Answer(said) => self.answer_fault(alloc, atoms, start, said),
            RawKind::Line { m, i, n, j, .. } => {
                let first = self.mono_fault(alloc, atoms, m)?;
                let second = self.mono_fault(alloc, atoms, n)?;
                let later = earlier(count_fault(i), earlier(second, count_fault(j)));
                Ok(earlier(first, later))
            }
            RawKind::Step { n, j, .. } => {
                let first = self.mono_fault(alloc, atoms, n)?;
                Ok(earlier(first, count_fault(j)))
            }
            _ => unreachable!(),
        }
    }

    /// The first fault of an answer, a line or a step. Linear in the statement.
    #[tactic(none)]
    pub(crate) fn first_fault(
        &self,
        alloc: Global,
        atoms: &Option<Atoms>,
        raw: &Raw,
    ) -> Result<Option<Refusal>, NoMemory>
        requires well_read { IsWellKind self.now.text.now raw.now.kind }
        requires part { IsAnswerPart raw.now.kind }
        requires there { 0 < length self.now.declared.now.goals }
        requires atoms { unwrap_or atoms.now [] ≡ goal_atoms self.now.declared.now (last_goal self.now.declared.now) }
        ensures { IfOk result
            (λ fault. fault ≡ first_fault self.now.declared.now self.now.text.now raw.now) }
    {
        if let Some(at) = raw.too_deep {
            return Ok(Some(Code::Depth.at(at)));
        }
        match self.part_names(alloc, &raw.kind)? {
            Some(fault) => Ok(Some(fault)),
            None => self.resolved_fault(alloc, atoms, raw.start, &raw.kind),
        }
    }
}
