//! One answer for each goal.

ghost use Rattle.std.specs.Prelude.{◌≡◌, ◌<◌, IfErr, IfOk, length, map, Some};
ghost use Rattle.alg_reify.specs.Preparing.{IsByNsatz};
ghost use Rattle.alg_terms.specs.GoalRules.{IsGoal};
ghost use Rattle.alg_terms.specs.Members.{goal_at};
ghost use Rattle.alg_terms.specs.Valid.{IsValid};
ghost use Rattle.alg_terms.specs.declared.goals.Method.TheVariants.{ByRing, ByField};
ghost use Rattle.alg_printer.specs.Printable.{ArePrintable, IsPrintable};
ghost use Rattle.alg_prover.specs.Answers.{IsAnswer, AreAnswers, StopsWith};

use crate::NoMemory;
use alg_field::{FieldAnswer, FieldDecision, decide_field};
use alg_lines::Answer;
use alg_nsatz::{NsatzAnswer, decide_nsatz};
use alg_ring::{RingAnswer, RingDecision, Stop, decide_ring};
use alg_terms::{File, Goal, Method, Seq};
use std::alloc::Global;

/// The answers to the goals of a file, one each, in their order. Each goal is answered as if alone:
/// one that stops for too many atoms or for a limit has that answer. The answers can be printed for
/// the file.
pub fn answers(alloc: Global, file: &File) -> Result<Vec<Answer>, NoMemory>
    requires valid { IsValid file.now }
    ensures answers { IfOk result (λ answers. AreAnswers file.now answers.items) }
    ensures printable { IfOk result (λ answers. ArePrintable file.now (map Some answers.items)) }
{
    let mut answers = Vec::new(alloc);
    for number in 0..file.goals.items().len() as u32 {
        answers.push(answer_one(alloc, file, number)?)?;
    }
    Ok(answers)
}

/// The answer to the goal of a number: that of its decision, or the name of what stopped it.
fn answer_one(alloc: Global, file: &File, number: u32) -> Result<Answer, NoMemory>
    requires valid { IsValid file.now }
    requires there { number < length file.now.goals }
    ensures answer { IfOk result (IsAnswer file.now (goal_at file.now number)) }
    ensures printable { IfOk result (IsPrintable file.now (goal_at file.now number)) }
{
    match decide(alloc, file, number) {
        Ok(answer) => Ok(answer),
        Err(Stop::Atoms) => Ok(Answer::Atoms),
        Err(Stop::Range) => Ok(Answer::Range),
        Err(Stop::Degree) => Ok(Answer::Degree),
        Err(Stop::NoMemory) => Err(NoMemory),
    }
}

/// The decision of a goal by its method.
fn decide(alloc: Global, file: &File, number: u32) -> Result<Answer, Stop>
    requires valid { IsValid file.now }
    requires there { number < length file.now.goals }
    ensures answer { IfOk result (IsAnswer file.now (goal_at file.now number)) }
    ensures printable { IfOk result (IsPrintable file.now (goal_at file.now number)) }
    ensures stop { IfErr result (StopsWith file.now (goal_at file.now number)) }
{
    let goal = &file.goals.items()[number as usize];
    match &goal.method {
        Method::ByRing => decide_by_ring(alloc, file, goal),
        Method::ByField => decide_by_field(alloc, file, goal),
        Method::ByNsatz { .. } => decide_by_nsatz(alloc, file, number),
    }
}

/// The decision of a goal by ring.
fn decide_by_ring(alloc: Global, file: &File, goal: &Goal) -> Result<Answer, Stop>
    requires goal { IsGoal file.now goal.now }
    requires by_ring { goal.now.method ≡ ByRing }
    ensures answer { IfOk result (IsAnswer file.now goal.now) }
    ensures printable { IfOk result (IsPrintable file.now goal.now) }
    ensures stop { IfErr result (StopsWith file.now goal.now) }
{
    alg_reify::laws::no_is_over_the_table();
    alg_reify::laws::no_is_within_range();
    let RingDecision {
        answer,
        left: _left,
        right: _right,
    } = decide_ring(alloc, file, &goal.equation)?;
    match answer {
        RingAnswer::Proved => Ok(Answer::Proved {
            conditions: Seq::from_vec(Vec::new(alloc)),
        }),
        RingAnswer::No { at, left, right } => {
            // Its contract says that the monomial is canonical.
            at.pairs();
            Ok(Answer::No { at, left, right })
        }
    }
}

/// The decision of a goal by field.
fn decide_by_field(alloc: Global, file: &File, goal: &Goal) -> Result<Answer, Stop>
    requires goal { IsGoal file.now goal.now }
    requires by_field { goal.now.method ≡ ByField }
    ensures answer { IfOk result (IsAnswer file.now goal.now) }
    ensures printable { IfOk result (IsPrintable file.now goal.now) }
    ensures stop { IfErr result (StopsWith file.now goal.now) }
{
    alg_reify::laws::field_no_is_over_the_table();
    alg_reify::laws::field_no_is_within_range();
    alg_reify::laws::field_terms_may_stand();
    let FieldDecision {
        answer,
        numerators: _numerators,
    } = decide_field(alloc, file, &goal.equation)?;
    match answer {
        FieldAnswer::Proved { conditions } => Ok(Answer::Proved { conditions }),
        FieldAnswer::No { at, left, right } => {
            // Its contract says that the monomial is canonical.
            at.pairs();
            Ok(Answer::No { at, left, right })
        }
        FieldAnswer::ZeroDenominator { denominator } => Ok(Answer::ZeroDenominator { denominator }),
    }
}

/// The decision of a goal by nsatz, with its certificate where there is one.
fn decide_by_nsatz(alloc: Global, file: &File, number: u32) -> Result<Answer, Stop>
    requires valid { IsValid file.now }
    requires there { number < length file.now.goals }
    requires by_nsatz { IsByNsatz (goal_at file.now number).method }
    ensures answer { IfOk result (IsAnswer file.now (goal_at file.now number)) }
    ensures printable { IfOk result (IsPrintable file.now (goal_at file.now number)) }
    ensures stop { IfErr result (StopsWith file.now (goal_at file.now number)) }
{
    alg_nsatz::laws::proved_is_within();
    match decide_nsatz(alloc, file, number)? {
        NsatzAnswer::Proved { constants, cert } => Ok(Answer::Certified { constants, cert }),
        NsatzAnswer::NoneUpTo(power) => Ok(Answer::NoneUpTo { power }),
        NsatzAnswer::GaveUp(limit) => Ok(Answer::GaveUp { limit }),
    }
}
