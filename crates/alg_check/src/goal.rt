//! The report on the answer to a goal.

ghost use Rattle.std.specs.Prelude.{◌≡◌, ◌↔◌, ◌+◌, ◌<◌, ◌^◌, All, IfOk, IfSome, IsTrue, length};
ghost use Rattle.std.specs.Option.{option_copied};
ghost use Rattle.alg_terms.specs.GoalRules.{IsEquation, IsGoal, IsHyp, DividesNowhere};
ghost use Rattle.alg_terms.specs.Members.{goal_at, uses_of};
ghost use Rattle.alg_terms.specs.Valid.{IsValid};
ghost use Rattle.alg_lines.specs.Constants.{constants};
ghost use Rattle.alg_reify.specs.Answers.{IsRingAnswer, IsFieldAnswer};
ghost use Rattle.alg_check.specs.Answers.{HasNoCertificate};
ghost use Rattle.alg_lines.specs.Accepting.{Acceptance};
ghost use Rattle.alg_check.specs.Reports.{Compares, IsCertReport, IsFew, IsNsatzReport, IsReport, IsReportBy, Judged, Judges, StopReport};

use crate::certificate::{CertAnswer, check_cert};
use crate::comparing::same_answer;
use crate::field::field_answer;
use crate::preparing::{Prepared, prepare};
use crate::ring::ring_answer;
use crate::{Cert, NoMemory, Overrun};
use alg_lines::{Answer, GoalCheck, constants_of};
use alg_reify::{Stop, has_char0};
use alg_terms::{Equation, File, Goal, Method, Use};
use std::alloc::Global;

/// The report on an answer, by the goal's own.
pub(crate) fn report(own: &Answer, given: &Answer) -> GoalCheck
    requires { HasNoCertificate own.now }
    ensures { Compares (given.now ≡ own.now) given.now result }
{
    if !same_answer(own, given) {
        return GoalCheck::Bad { at: 0 };
    }
    match given {
        Answer::Proved { .. } => GoalCheck::OkProved,
        _ => GoalCheck::OkOther,
    }
}

/// Whether two lists have the same numbers in the same order.
fn same_numbers(left: &[i128], right: &[i128]) -> bool
    ensures { IsTrue result ↔ (left.now ≡ right.now) }
{
    left == right
}

/// The report on a good certificate, by its constants and those that are printed with it.
fn constants_report(
    alloc: Global,
    numbers: &[i128],
    cert: &Cert,
    char0: bool,
) -> Result<GoalCheck, NoMemory>
    ensures { IfOk result (Judges (numbers.now ≡ constants cert.now char0) Acceptance.Good) }
{
    let own = constants_of(alloc, cert, char0)?;
    if !same_numbers(numbers, &own) {
        return Ok(GoalCheck::Bad { at: 0 });
    }
    Ok(GoalCheck::OkProved)
}

/// The report on a certificate, tried on what was prepared.
pub(crate) fn cert_report(
    alloc: Global,
    prepared: &Prepared,
    numbers: &[i128],
    cert: &Cert,
    char0: bool,
) -> Result<GoalCheck, NoMemory>
    requires few { length prepared.now.hyps.items + length cert.now.lines + length cert.now.steps < 2 ^ 31 }
    ensures { IfOk result (Judged prepared.now.hyps.items prepared.now.goal cert.now
        (numbers.now ≡ constants cert.now char0)) }
{
    match check_cert(alloc, &prepared.hyps, &prepared.goal, cert) {
        Ok(CertAnswer::Good) => constants_report(alloc, numbers, cert, char0),
        Ok(CertAnswer::Bad(at)) => Ok(GoalCheck::Bad { at }),
        Err(Overrun::Range) => Ok(GoalCheck::Range),
        Err(Overrun::Degree) => Ok(GoalCheck::Degree),
        Err(Overrun::NoMemory) => Err(NoMemory),
    }
}

/// The report where nothing could be prepared.
pub(crate) fn stop_report(stop: Stop) -> Result<GoalCheck, NoMemory>
    ensures { IfOk result (StopReport stop) }
{
    match stop {
        Stop::Atoms => Ok(GoalCheck::Atoms),
        Stop::Range => Ok(GoalCheck::Range),
        Stop::Degree => Ok(GoalCheck::Degree),
        Stop::NoMemory => Err(NoMemory),
    }
}

/// The report on an answer with a certificate to an equation with used hypotheses, of which powers up
/// to `power` may be proved.
fn check_certified(
    alloc: Global,
    file: &File,
    equation: &Equation,
    uses: &[Use],
    power: u32,
    numbers: &[i128],
    cert: &Cert,
) -> Result<GoalCheck, NoMemory>
    requires hyps { All (IsHyp file.now) file.now.hyps }
    requires equation { IsEquation file.now equation.now }
    requires plain { DividesNowhere equation.now }
    requires there { All (λ u. u.hyp < length file.now.hyps) uses.now }
    requires few { length uses.now + length cert.now.lines + length cert.now.steps < 2 ^ 31 }
    ensures { IfOk result (IsCertReport file.now equation.now uses.now power numbers.now cert.now) }
{
    if cert.power < 1 || cert.power > power {
        return Ok(GoalCheck::Bad { at: 0 });
    }
    match prepare(alloc, file, equation, uses) {
        Ok(prepared) => {
            let char0 = has_char0(file, equation.sort);
            cert_report(alloc, &prepared, numbers, cert, char0)
        }
        Err(stop) => stop_report(stop),
    }
}

/// The report on an answer to an equation by ring.
fn check_by_ring(
    alloc: Global,
    file: &File,
    equation: &Equation,
    answer: &Answer,
) -> Result<GoalCheck, NoMemory>
    requires equation { IsEquation file.now equation.now }
    requires plain { DividesNowhere equation.now }
    ensures { IfOk result (Compares (IsRingAnswer file.now equation.now answer.now) answer.now) }
{
    let own = ring_answer(alloc, file, equation)?;
    Ok(report(&own, answer))
}

/// The report on an answer to an equation by nsatz.
fn check_by_nsatz(
    alloc: Global,
    file: &File,
    equation: &Equation,
    uses: &[Use],
    power: u32,
    answer: &Answer,
) -> Result<GoalCheck, NoMemory>
    requires hyps { All (IsHyp file.now) file.now.hyps }
    requires equation { IsEquation file.now equation.now }
    requires plain { DividesNowhere equation.now }
    requires there { All (λ u. u.hyp < length file.now.hyps) uses.now }
    requires few { IsFew uses.now answer.now }
    ensures { IfOk result (IsNsatzReport file.now equation.now uses.now power answer.now) }
{
    match answer {
        Answer::Certified { constants, cert } => {
            check_certified(alloc, file, equation, uses, power, constants.items(), cert)
        }
        _ => Ok(GoalCheck::Unchecked),
    }
}

/// The report on an answer to an equation by field.
fn check_by_field(
    alloc: Global,
    file: &File,
    equation: &Equation,
    answer: &Answer,
) -> Result<GoalCheck, NoMemory>
    requires { IsEquation file.now equation.now }
    ensures { IfOk result (Compares (IsFieldAnswer file.now equation.now answer.now) answer.now) }
{
    let own = field_answer(alloc, file, equation)?;
    Ok(report(&own, answer))
}

/// The report on an answer to a goal of the file.
fn check_answer(
    alloc: Global,
    file: &File,
    goal: &Goal,
    answer: &Answer,
) -> Result<GoalCheck, NoMemory>
    requires hyps { All (IsHyp file.now) file.now.hyps }
    requires goal { IsGoal file.now goal.now }
    requires few { IsFew (uses_of goal.now.method) answer.now }
    ensures { IfOk result (IsReportBy file.now goal.now.equation goal.now.method answer.now) }
{
    match &goal.method {
        Method::ByRing => check_by_ring(alloc, file, &goal.equation, answer),
        Method::ByField => check_by_field(alloc, file, &goal.equation, answer),
        Method::ByNsatz {
            uses,
            power,
            limit: _,
        } => check_by_nsatz(alloc, file, &goal.equation, uses.items(), *power, answer),
    }
}

/// The report on the answer to a goal of a valid file, by its number, or on its having none.
///
/// Goals by ring and by field are decided anew, by plain polynomials; a certificate is tried on the
/// polynomials that are prepared for it anew. Nothing of what finds answers is used.
pub fn check_goal(
    alloc: Global,
    file: &File,
    goal: u32,
    answer: Option<&Answer>,
) -> Result<GoalCheck, NoMemory>
    requires valid { IsValid file.now }
    requires there { goal < length file.now.goals }
    requires few { IfSome answer (λ a. IsFew (uses_of (goal_at file.now goal).method) a.now) }
    ensures { IfOk result (IsReport file.now (goal_at file.now goal) (option_copied answer.entry)) }
{
    match answer {
        Some(answer) => check_answer(alloc, file, &file.goals.items()[goal as usize], answer),
        None => Ok(GoalCheck::Unchecked),
    }
}
