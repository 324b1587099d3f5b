//! A certificate with the lines that it cites alone, renumbered.

ghost use Rattle.std.specs.Prelude.{◌≡◌, ◌+◌, ◌≤◌, ◌<◌, ◌^◌, ◌++◌, true, false, IfOk, drop, length, map, replicate};
ghost use Rattle.alg_groebner.specs.Pruning.{mark, mark_steps, mark_line, mark_lines, marks_of, numbers_after, number_of, renumbered_line, renumbered_step, kept_lines, certificate_from};

use crate::NoMemory;
use alg_lines::{Cert, GoalStep, Line};
use alg_terms::Seq;
use std::alloc::Global;

/// Marks line number `n`, from 1.
fn mark_it(marks: &mut Vec<bool>, n: u32)
    ensures { marks.new.items ≡ mark marks.old.items n }
{
    if let Some(mark) = marks.get_mut((n as usize).saturating_sub(1)) {
        *mark = true;
    }
}

/// Whether each line is a hypothesis.
fn hypotheses(alloc: Global, given: u32, made: usize) -> Result<Vec<bool>, NoMemory>
    ensures { IfOk result (λ v. v.items ≡ replicate given true ++ replicate made false) }
{
    let mut marks = Vec::new(alloc);
    let mut hyps = 0;
    while hyps < given {
        marks.push(true)?;
        hyps += 1;
    }
    let mut lines = 0;
    while lines < made {
        marks.push(false)?;
        lines += 1;
    }
    Ok(marks)
}

/// Marks what the steps cite.
fn mark_cited(marks: &mut Vec<bool>, steps: &[GoalStep])
    ensures { marks.new.items ≡ mark_steps steps.now marks.old.items }
{
    for step in steps {
        mark_it(marks, step.j);
    }
}

/// Marks what a line cites, where it is marked itself.
fn mark_from(marks: &mut Vec<bool>, place: usize, line: &Line)
    ensures { marks.new.items ≡ mark_line place line.now marks.old.items }
{
    if marks.get(place).copied().unwrap_or(false) {
        mark_it(marks, line.i);
        mark_it(marks, line.j);
    }
}

/// Marks what marked lines cite, from the last line back.
fn mark_through(marks: &mut Vec<bool>, given: u32, made: &[Line])
    requires { given + length made.now < 2 ^ 32 }
    ensures { marks.new.items ≡ mark_lines given made.now marks.old.items }
{
    let mut at = made.len();
    while at > 0 {
        at -= 1;
        mark_from(marks, given as usize + at, &made[at]);
    }
}

/// Marks the hypotheses, what the steps cite, and what marked lines cite.
fn all_marks(
    alloc: Global,
    given: u32,
    made: &[Line],
    steps: &[GoalStep],
) -> Result<Vec<bool>, NoMemory>
    requires { given + length made.now < 2 ^ 32 }
    ensures value { IfOk result (λ v. v.items ≡ marks_of given made.now steps.now) }
    ensures len { IfOk result (λ v. length v.items ≡ given + length made.now) }
{
    let mut marks = hypotheses(alloc, given, made.len())?;
    mark_cited(&mut marks, steps);
    mark_through(&mut marks, given, made);
    Ok(marks)
}

/// The new number of each line.
fn new_numbers(alloc: Global, marks: &[bool]) -> Result<Vec<u32>, NoMemory>
    requires { length marks.now < 2 ^ 32 }
    ensures { IfOk result (λ v. v.items ≡ numbers_after 0 marks.now) }
{
    let mut numbers = Vec::new(alloc);
    let mut last = 0;
    for &marked in marks {
        if marked {
            last += 1;
        }
        numbers.push(last)?;
    }
    Ok(numbers)
}

/// The new number of line number `n`.
fn new_number(numbers: &[u32], n: u32) -> u32
    ensures { result ≡ number_of numbers.now n }
{
    numbers
        .get((n as usize).saturating_sub(1))
        .copied()
        .unwrap_or(0)
}

/// The line with its new numbers.
fn renumber_line(alloc: Global, numbers: &[u32], line: &Line) -> Result<Line, NoMemory>
    ensures { IfOk result (λ l. l ≡ renumbered_line numbers.now line.now) }
{
    Ok(Line {
        a: line.a,
        m: line.m.copy(alloc)?,
        i: new_number(numbers, line.i),
        b: line.b,
        n: line.n.copy(alloc)?,
        j: new_number(numbers, line.j),
        d: line.d,
    })
}

/// The marked lines with their new numbers.
fn keep_lines(
    alloc: Global,
    numbers: &[u32],
    marks: &[bool],
    given: u32,
    made: &[Line],
) -> Result<Vec<Line>, NoMemory>
    requires all { length marks.now ≡ given + length made.now }
    requires few { length marks.now < 2 ^ 32 }
    ensures { IfOk result (λ v.
        v.items ≡ kept_lines numbers.now (drop given marks.now) made.now) }
{
    let mut out = Vec::new(alloc);
    let mut at = 0;
    while at < made.len() {
        if marks[given as usize + at] {
            out.push(renumber_line(alloc, numbers, &made[at])?)?;
        }
        at += 1;
    }
    Ok(out)
}

/// The step with its new number.
fn renumber_step(alloc: Global, numbers: &[u32], step: &GoalStep) -> Result<GoalStep, NoMemory>
    ensures { IfOk result (λ g. g ≡ renumbered_step numbers.now step.now) }
{
    Ok(GoalStep {
        a: step.a,
        b: step.b,
        n: step.n.copy(alloc)?,
        j: new_number(numbers, step.j),
        d: step.d,
    })
}

/// The steps with their new numbers.
fn renumber_steps(
    alloc: Global,
    numbers: &[u32],
    steps: &[GoalStep],
) -> Result<Vec<GoalStep>, NoMemory>
    ensures { IfOk result (λ v. v.items ≡ map (renumbered_step numbers.now) steps.now) }
{
    let mut out = Vec::new(alloc);
    for step in steps {
        out.push(renumber_step(alloc, numbers, step)?)?;
    }
    Ok(out)
}

/// The certificate of the lines beyond the hypotheses and of the steps that bring the power `power`
/// of a goal to zero: the steps, and the lines that they cite, directly or through other lines,
/// renumbered in their order. Lines are numbered from 1, the hypotheses first.
pub fn prune(
    alloc: Global,
    hyps: u32,
    lines: &[Line],
    steps: &[GoalStep],
    power: u32,
) -> Result<Cert, NoMemory>
    requires { hyps + length lines.now < 2 ^ 32 }
    ensures { IfOk result (λ c. c ≡ certificate_from hyps lines.now steps.now power) }
{
    let marks = all_marks(alloc, hyps, lines, steps)?;
    let numbers = new_numbers(alloc, &marks)?;
    let lines = keep_lines(alloc, &numbers, &marks, hyps, lines)?;
    let steps = renumber_steps(alloc, &numbers, steps)?;
    Ok(Cert {
        power,
        lines: Seq::from_vec(lines),
        steps: Seq::from_vec(steps),
    })
}
