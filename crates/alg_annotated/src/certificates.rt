//! Certificates with one more line or step.

ghost use Rattle.std.specs.Prelude.{◌≡◌, ◌<◌, [], length, unwrap_or, IfOk, Some};
ghost use Rattle.alg_reader.specs.WellRead.{IsWellKind};
ghost use Rattle.alg_reify.specs.Table.{goal_atoms};
ghost use Rattle.alg_annotated.specs.Parts.{IsLineOrStep};
ghost use Rattle.alg_annotated.specs.Resolved.{with_line, with_step, with_part};
ghost use Rattle.alg_annotated.specs.Rules.{last_goal, statement_faults};

use crate::answers::count_of;
use crate::scope::Scope;
use alg_lines::{Answer, Cert, GoalStep, Line};
use alg_mono::Mono;
use alg_reader::{RawKind, RawNumber};
use alg_reify::Atoms;
use alg_terms::NoMemory;
use std::alloc::Global;

/// An answer whose certificate has one more line.
fn with_line(answer: Answer, line: Line) -> Result<Answer, NoMemory>
    ensures { IfOk result (λ a. Some a ≡ with_line line (Some answer)) }
{
    match answer {
        Answer::Certified { constants, cert } => {
            let Cert {
                power,
                mut lines,
                steps,
            } = cert;
            lines.push(line)?;
            let cert = Cert {
                power,
                lines,
                steps,
            };
            Ok(Answer::Certified { constants, cert })
        }
        other => Ok(other),
    }
}

/// An answer whose certificate has one more step.
fn with_step(answer: Answer, step: GoalStep) -> Result<Answer, NoMemory>
    ensures { IfOk result (λ a. Some a ≡ with_step step (Some answer)) }
{
    match answer {
        Answer::Certified { constants, cert } => {
            let Cert {
                power,
                lines,
                mut steps,
            } = cert;
            steps.push(step)?;
            let cert = Cert {
                power,
                lines,
                steps,
            };
            Ok(Answer::Certified { constants, cert })
        }
        other => Ok(other),
    }
}

/// A line of these parts.
fn made_line(a: &RawNumber, m: Mono, i: u32, b: &RawNumber, n: Mono, j: u32, d: &RawNumber) -> Line
    ensures { result ≡ record {
      a = a.now.value;
      m = m;
      i = i;
      b = b.now.value;
      n = n;
      j = j;
      d = d.now.value;
    } }
{
    Line {
        a: a.value,
        m,
        i,
        b: b.value,
        n,
        j,
        d: d.value,
    }
}

/// A step of these parts.
fn made_step(a: &RawNumber, b: &RawNumber, n: Mono, j: u32, d: &RawNumber) -> GoalStep
    ensures { result ≡ record { a = a.now.value; b = b.now.value; n = n; j = j; d = d.now.value } }
{
    GoalStep {
        a: a.value,
        b: b.value,
        n,
        j,
        d: d.value,
    }
}

impl Scope<'_> {
    /// An answer to the last goal whose certificate has one more line or step, which has no faults.
    pub(crate) fn with_part(
        &self,
        alloc: Global,
        atoms: &Option<Atoms>,
        answer: Answer,
        kind: &RawKind,
    ) -> Result<Answer, NoMemory>
        requires well_read { IsWellKind self.now.text.now kind.now }
        requires part { IsLineOrStep kind.now }
        requires atoms { unwrap_or atoms.now [] ≡ goal_atoms self.now.declared.now (last_goal self.now.declared.now) }
        requires faultless { statement_faults self.now.declared.now self.now.text.now 0 kind.now ≡ [] }
        ensures { IfOk result (λ a. Some a
            ≡ with_part self.now.declared.now self.now.text.now (unwrap_or atoms.now []) kind.now (Some answer)) }
    {
        match kind {
            RawKind::Line {
                a,
                m,
                i,
                b,
                n,
                j,
                d,
            } => {
                let m = self.monomial_of(alloc, atoms, m)?;
                let n = self.monomial_of(alloc, atoms, n)?;
                let i = count_of(i);
                let j = count_of(j);
                let line = made_line(a, m, i, b, n, j, d);
                with_line(answer, line)
            }
            RawKind::Step { a, b, n, j, d } => {
                let n = self.monomial_of(alloc, atoms, n)?;
                let j = count_of(j);
                let step = made_step(a, b, n, j, d);
                with_step(answer, step)
            }
            _ => unreachable!(),
        }
    }
}
