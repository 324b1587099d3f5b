//! Whether a certificate is good.

ghost use Rattle.std.specs.Prelude.{◌≡◌, ◌+◌, ◌++◌, ◌<◌, ◌^◌, [], IfOk, IfErr, length};
ghost use Rattle.alg_mono.specs.NumberedPolynomials.{power_of};
ghost use Rattle.alg_lines.specs.Accepting.{Accepting};
ghost use Rattle.alg_check.specs.Checking.{IsNextLine, IsNextRemainder, FollowsLines, FollowsSteps, acceptance_of, Refuses};

use crate::combined::divided;
use crate::given::{has_line, is_zero, line};
use alg_lines::{Cert, GoalStep, Line};
use alg_mono::{Mono, NoMemory, Overrun};
use alg_poly::Poly;
use std::alloc::Global;

/// The greatest power of a certificate.
const GREATEST_POWER: u32 = 16;

/// What trying a certificate comes to.
#[derive(Clone, Copy, Debug, PartialEq, Eq)]
pub enum CertAnswer {
    /// A power of the goal comes to zero by the hypotheses.
    Good,
    /// The first breach: 0 is the power, then the lines are counted from 1, then the steps; one more
    /// than all of them is a last remainder that is not zero.
    Bad(u32),
}

/// What following all steps comes to.
enum Followed {
    /// All are good, and this is the last remainder.
    To(Poly),
    /// The number of the first that is not, counted in the whole certificate.
    Breach(u32),
}

/// The polynomial that a line makes, and none where it is no good one.
fn next_line(
    alloc: Global,
    hyps: &[Poly],
    made: &[Poly],
    next: &Line,
) -> Result<Option<Poly>, NoMemory>
    ensures { IfOk result (IsNextLine (hyps.now ++ made.now) next.now) }
{
    if !has_line(hyps, made, next.i) || !has_line(hyps, made, next.j) {
        return Ok(None);
    }
    let p = line(hyps, made, next.i);
    let q = line(hyps, made, next.j);
    divided(alloc, next.a, &next.m, p, next.b, &next.n, q, next.d)
}

/// Makes the lines in turn, up to the first that is no good one, and gives its number.
fn follow_lines(
    alloc: Global,
    hyps: &[Poly],
    lines: &[Line],
    made: &mut Vec<Poly>,
) -> Result<Option<u32>, NoMemory>
    requires few { length lines.now < 2 ^ 31 }
    requires empty { made.old.items ≡ [] }
    ensures { IfOk result (FollowsLines hyps.now lines.now made.new.items) }
{
    let mut number = 0;
    for next in lines {
        number += 1;
        match next_line(alloc, hyps, made, next)? {
            Some(new) => made.push(new)?,
            None => return Ok(Some(number)),
        }
    }
    Ok(None)
}

/// The remainder after a step, and none where it is no good one.
fn next_remainder(
    alloc: Global,
    hyps: &[Poly],
    made: &[Poly],
    before: &Poly,
    step: &GoalStep,
) -> Result<Option<Poly>, NoMemory>
    ensures { IfOk result (IsNextRemainder (hyps.now ++ made.now) before.now step.now) }
{
    if step.a < 1 || !has_line(hyps, made, step.j) {
        return Ok(None);
    }
    let one = Mono::one(alloc);
    let q = line(hyps, made, step.j);
    divided(alloc, step.a, &one, before, step.b, &step.n, q, step.d)
}

/// The remainder after all steps, where `lines` lines were counted before them.
fn follow_steps(
    alloc: Global,
    hyps: &[Poly],
    made: &[Poly],
    first: Poly,
    steps: &[GoalStep],
    lines: u32,
) -> Result<Followed, NoMemory>
    requires few { lines + length steps.now < 2 ^ 31 }
    ensures { IfOk result (FollowsSteps (hyps.now ++ made.now) first steps.now lines) }
{
    let mut remainder = first;
    let mut number = lines;
    for step in steps {
        number += 1;
        match next_remainder(alloc, hyps, made, &remainder, step)? {
            Some(after) => remainder = after,
            None => return Ok(Followed::Breach(number)),
        }
    }
    Ok(Followed::To(remainder))
}

/// Whether a power of `goal` comes to zero by the certificate, where the first lines are `hyps`; or
/// the first breach.
///
/// `Range` and `Degree` come exactly where the power is one and `goal` to that power breaks that rule.
/// Its cost is that of the power, and of one combination for each line and each step.
pub fn check_cert(
    alloc: Global,
    hyps: &[Poly],
    goal: &Poly,
    cert: &Cert,
) -> Result<CertAnswer, Overrun>
    requires few { length hyps.now + length cert.now.lines + length cert.now.steps < 2 ^ 31 }
    ensures answer { IfOk result (λ a.
        Accepting hyps.now goal.now cert.now (acceptance_of a)) }
    ensures refused { IfErr result (Refuses hyps.now goal.now cert.now) }
{
    if cert.power < 1 || cert.power > GREATEST_POWER {
        return Ok(CertAnswer::Bad(0));
    }
    let first = goal.power(alloc, cert.power)?;
    let lines = cert.lines.items();
    let mut made = Vec::new(alloc);
    if let Some(number) = follow_lines(alloc, hyps, lines, &mut made)? {
        return Ok(CertAnswer::Bad(number));
    }
    let steps = cert.steps.items();
    let before = lines.len() as u32;
    match follow_steps(alloc, hyps, &made, first, steps, before)? {
        Followed::Breach(number) => Ok(CertAnswer::Bad(number)),
        Followed::To(last) => Ok(if is_zero(&last) {
            CertAnswer::Good
        } else {
            CertAnswer::Bad(before + steps.len() as u32 + 1)
        }),
    }
}
