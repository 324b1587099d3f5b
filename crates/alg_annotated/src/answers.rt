//! Answers without faults, with the numbers of what they name.

ghost use Rattle.std.specs.Prelude.{◌≡◌, ◌≤◌, ◌<◌, [], map, length, unwrap_or, All, IfOk, None};
ghost use Rattle.std.specs.Int.RustNames.{unsigned_abs};
ghost use Rattle.alg_reader.specs.WellRead.{IsWellAnswer, IsWellTerm};
ghost use Rattle.alg_reify.specs.Table.{goal_atoms};
ghost use Rattle.alg_typing.specs.AnswerTerms.{first_fault_of_term};
ghost use Rattle.alg_typing.specs.Resolved.{term_of};
ghost use Rattle.alg_annotated.specs.Names.{answer_names};
ghost use Rattle.alg_annotated.specs.Resolved.{answer_of};
ghost use Rattle.alg_annotated.specs.Rules.{last_goal, part_faults, MAX_COUNT};

use crate::scope::Scope;
use alg_lines::{Answer, Cert};
use alg_reader::{FileEnd, RawAnswer, RawNumber, RawTerm};
use alg_reify::Atoms;
use alg_terms::{NoMemory, Seq, Term};
use std::alloc::{AllocError, Global};

/// A line number, a power or a count.
pub(crate) fn count_of(number: &RawNumber) -> u32
    requires { unsigned_abs number.now.value ≤ MAX_COUNT }
    ensures { result ≡ unsigned_abs number.now.value }
{
    number.value.unsigned_abs() as u32
}

/// The values of some numerals.
fn values_of(alloc: Global, numbers: &[RawNumber]) -> Result<Vec<i128>, NoMemory>
    ensures { IfOk result (λ values. values.items ≡ map (λ n. n.value) numbers.now) }
{
    let mut values = Vec::new(alloc);
    for number in numbers {
        values.push(number.value)?;
    }
    Ok(values)
}

impl Scope<'_> {
    /// A term without faults.
    fn term_of(&self, alloc: Global, raw: &RawTerm) -> Result<Term, NoMemory>
        requires well_read { IsWellTerm self.now.text.now raw.now }
        requires there { 0 < length self.now.declared.now.goals }
        requires faultless { first_fault_of_term self.now.declared.now self.now.text.now
            (last_goal self.now.declared.now) raw.now ≡ None }
        ensures { IfOk result (λ term. term ≡ term_of self.now.declared.now self.now.text.now raw.now) }
    {
        match self.declared.term(alloc, self.text, raw, self.last_goal()) {
            Ok(term) => Ok(term),
            Err(FileEnd::NoMemory) => Err(AllocError),
            Err(FileEnd::Refused(_)) => unreachable!(),
        }
    }

    /// Terms without faults.
    fn terms_of(&self, alloc: Global, raws: &[RawTerm]) -> Result<Vec<Term>, NoMemory>
        requires well_read { All (IsWellTerm self.now.text.now) raws.now }
        requires there { 0 < length self.now.declared.now.goals }
        requires faultless { All (λ raw. first_fault_of_term self.now.declared.now self.now.text.now
            (last_goal self.now.declared.now) raw ≡ None) raws.now }
        ensures { IfOk result
            (λ terms. terms.items ≡ map (term_of self.now.declared.now self.now.text.now) raws.now) }
    {
        let mut terms = Vec::new(alloc);
        for raw in raws {
            terms.push(self.term_of(alloc, raw)?)?;
        }
        Ok(terms)
    }

    /// An answer to the last goal. Of a certificate its lines and steps are still to come.
    pub(crate) fn answer_of(
        &self,
        alloc: Global,
        atoms: &Option<Atoms>,
        said: &RawAnswer,
    ) -> Result<Answer, NoMemory>
        requires well_read { IsWellAnswer self.now.text.now said.now }
        requires there { 0 < length self.now.declared.now.goals }
        requires atoms { unwrap_or atoms.now [] ≡ goal_atoms self.now.declared.now (last_goal self.now.declared.now) }
        requires names { answer_names self.now.declared.now self.now.text.now said.now ≡ [] }
        requires parts { part_faults self.now.declared.now self.now.text.now
            (last_goal self.now.declared.now) said.now ≡ [] }
        ensures { IfOk result (λ answer. answer
            ≡ answer_of self.now.declared.now self.now.text.now (unwrap_or atoms.now []) said.now) }
    {
        match said {
            RawAnswer::Proved { conditions } => {
                let conditions = Seq::from_vec(self.terms_of(alloc, conditions.items())?);
                Ok(Answer::Proved { conditions })
            }
            RawAnswer::Certified {
                power,
                constants,
                ..
            } => Ok(Answer::Certified {
                constants: Seq::from_vec(values_of(alloc, constants.items())?),
                cert: Cert {
                    power: count_of(power),
                    lines: Seq::from_vec(Vec::new(alloc)),
                    steps: Seq::from_vec(Vec::new(alloc)),
                },
            }),
            RawAnswer::No { at, left, right } => Ok(Answer::No {
                at: self.monomial_of(alloc, atoms, at)?,
                left: left.value,
                right: right.value,
            }),
            RawAnswer::ZeroDenominator { denominator } => {
                let denominator = self.term_of(alloc, denominator)?;
                Ok(Answer::ZeroDenominator { denominator })
            }
            RawAnswer::NoneUpTo(power) => Ok(Answer::NoneUpTo {
                power: count_of(power),
            }),
            RawAnswer::GaveUp(limit) => Ok(Answer::GaveUp {
                limit: count_of(limit),
            }),
            RawAnswer::Range => Ok(Answer::Range),
            RawAnswer::Degree => Ok(Answer::Degree),
            RawAnswer::Atoms => Ok(Answer::Atoms),
        }
    }
}
