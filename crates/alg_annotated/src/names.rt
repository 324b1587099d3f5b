//! The first faults of the names of answers, lines and steps.

ghost use Rattle.std.specs.Prelude.{◌≡◌, All, IfOk, flat_map};
ghost use Rattle.alg_reader.specs.WellRead.{IsWellAnswer, IsWellKind, IsWellTerm};
ghost use Rattle.alg_typing.specs.Faults.{first_of};
ghost use Rattle.alg_typing.specs.NameFaults.{term_names};
ghost use Rattle.alg_annotated.specs.Names.{answer_names, statement_names};
ghost use Rattle.alg_annotated.specs.Parts.{IsAnswerPart};

use crate::scope::Scope;
use alg_reader::{RawAnswer, RawKind, RawTerm};
use alg_terms::NoMemory;
use alg_tokens::Refusal;
use alg_typing::earlier;
use std::alloc::Global;

impl Scope<'_> {
    /// The first fault of the names of several terms.
    fn terms_names(&self, terms: &[RawTerm]) -> Option<Refusal>
        requires { All (IsWellTerm self.now.text.now) terms.now }
        ensures { result ≡ first_of
            (flat_map (term_names self.now.declared.now self.now.text.now) terms.now) }
    {
        let mut first = None;
        for term in terms {
            first = earlier(first, self.declared.term_names(self.text, term));
        }
        first
    }

    /// The first fault of the names of an answer.
    fn answer_names(&self, alloc: Global, said: &RawAnswer) -> Result<Option<Refusal>, NoMemory>
        requires { IsWellAnswer self.now.text.now said.now }
        ensures { IfOk result
            (λ fault. fault ≡ first_of (answer_names self.now.declared.now self.now.text.now said.now)) }
    {
        match said {
            RawAnswer::Proved { conditions } => Ok(self.terms_names(conditions.items())),
            RawAnswer::No { at, .. } => self.mono_names(alloc, at),
            RawAnswer::ZeroDenominator { denominator } => {
                Ok(self.declared.term_names(self.text, denominator))
            }
            RawAnswer::Certified { .. }
            | RawAnswer::NoneUpTo(_)
            | RawAnswer::GaveUp(_)
            | RawAnswer::Range
            | RawAnswer::Degree
            | RawAnswer::Atoms => Ok(None),
        }
    }

    /// The first fault of the names of an answer, a line or a step.
    #[tactic(auto, using(alg_typing::proofs::Firsts::firsts))]
    pub(crate) fn part_names(
        &self,
        alloc: Global,
        kind: &RawKind,
    ) -> Result<Option<Refusal>, NoMemory>
        requires well_read { IsWellKind self.now.text.now kind.now }
        requires part { IsAnswerPart kind.now }
        ensures { IfOk result
            (λ fault. fault ≡ first_of (statement_names self.now.declared.now self.now.text.now kind.now)) }
    {
        match kind {
            RawKind::Answer(said) => self.answer_names(alloc, said),
            RawKind::Line { m, n, .. } => {
                let first = self.mono_names(alloc, m)?;
                Ok(earlier(first, self.mono_names(alloc, n)?))
            }
            RawKind::Step { n, .. } => self.mono_names(alloc, n),
            _ => unreachable!(),
        }
    }
}
