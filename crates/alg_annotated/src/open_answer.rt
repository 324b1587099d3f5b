//! What is open before the next statement: nothing, a goal without its answer, or an answer that may go on.

ghost use Rattle.std.specs.Prelude.{◌≡◌, ◌<◌, ◌++◌, ◌∷◌, [], length, unwrap_or, None, Some, IfOk, IfErr};
ghost use Rattle.alg_reader.specs.WellRead.{IsWellKind};
ghost use Rattle.alg_reify.specs.Table.{goal_atoms};
ghost use Rattle.alg_typing.specs.Ends.{RefusesWith};
ghost use Rattle.alg_annotated.specs.Parts.{IsLineOrStep};
ghost use Rattle.alg_annotated.specs.Places as places;
ghost use Rattle.alg_annotated.specs.Progress.{answers_open, opened};
ghost use Rattle.alg_annotated.specs.Reading as texts;
ghost use Rattle.alg_annotated.specs.Resolved.{with_part};
ghost use Rattle.alg_annotated.specs.Rules.{last_goal};

use crate::scope::Scope;
use alg_lines::Answer;
use alg_reader::{FileEnd, Place, Raw, RawAnswer, RawKind, RawNumber};
use alg_reify::Atoms;
use alg_terms::NoMemory;
use std::alloc::Global;

/// An answer to the last goal, with the atoms of that goal's table and the place behind what was read of
/// it so far.
#[derive(Drop)]
pub(crate) struct Answered {
    pub(crate) atoms: Option<Atoms>,
    pub(crate) place: Place,
    pub(crate) answer: Answer,
}

/// What was just before the next statement.
#[derive(Drop)]
pub(crate) enum Open {
    /// A declaration, or nothing.
    Nothing,
    /// A goal, whose answer may come.
    Goal,
    /// An answer, or lines or steps of it.
    Answer(Answered),
}

/// The place behind an answer.
pub(crate) fn place_behind_answer(said: &RawAnswer) -> Place
    ensures { result ≡ places.place_behind_answer said.now }
{
    match said {
        RawAnswer::Certified { version, .. } => lines_of(version),
        _ => Place::Start,
    }
}

/// The place of the lines of a certificate of a version.
fn lines_of(version: &Option<RawNumber>) -> Place
    ensures { result ≡ places.lines_of version.now }
{
    match version {
        Some(number) => {
            if number.value.unsigned_abs() == 2 {
                Place::LinesTwo
            } else {
                Place::Lines
            }
        }
        None => Place::Lines,
    }
}

/// The place of the steps that follow lines, or steps.
fn steps_of(place: Place) -> Place
    ensures { result ≡ places.steps_of place }
{
    match place {
        Place::Lines => Place::Steps,
        Place::LinesTwo => Place::StepsTwo,
        _ => place,
    }
}

/// The place behind a line or a step.
fn place_behind_part(place: Place, kind: &RawKind) -> Place
    requires { IsLineOrStep kind.now }
    ensures { result ≡ places.place_behind place kind.now }
{
    match kind {
        RawKind::Step { .. } => steps_of(place),
        _ => place,
    }
}

/// What is just before the statement behind a declaration or a goal.
pub(crate) fn opened(kind: &RawKind) -> Open
    ensures { result ≡ opened kind.now }
{
    match kind {
        RawKind::Goal { .. } => Open::Goal,
        _ => Open::Nothing,
    }
}

/// The answers with one more.
fn with_one(
    answers: Vec<Option<Answer>>,
    answer: Option<Answer>,
) -> Result<Vec<Option<Answer>>, NoMemory>
    ensures { IfOk result (λ all. all.items ≡ answers.items ++ answer ∷ []) }
{
    let mut all = answers;
    all.push(answer)?;
    Ok(all)
}

/// The answers to all goals so far, with what is open of the last one.
pub(crate) fn closed(
    answers: Vec<Option<Answer>>,
    last: Open,
) -> Result<Vec<Option<Answer>>, NoMemory>
    ensures { IfOk result (λ all. all.items ≡ answers.items ++ answers_open last) }
{
    match last {
        Open::Nothing => Ok(answers),
        Open::Goal => with_one(answers, None),
        Open::Answer(answered) => {
            let Answered {
                atoms,
                place: _,
                answer,
            } = answered;
            drop(atoms);
            with_one(answers, Some(answer))
        }
    }
}

impl Answered {
    /// With a line or a step.
    #[tactic(none)]
    pub(crate) fn with_part(
        self,
        alloc: Global,
        scope: &Scope,
        raw: &Raw,
    ) -> Result<Answered, FileEnd>
        requires well_read { IsWellKind scope.now.text.now raw.now.kind }
        requires part { IsLineOrStep raw.now.kind }
        requires there { 0 < length scope.now.declared.now.goals }
        requires table { unwrap_or self.atoms [] ≡ goal_atoms scope.now.declared.now (last_goal scope.now.declared.now) }
        ensures faultless { IfOk result
            (λ next. texts.first_fault scope.now.declared.now scope.now.text.now raw.now ≡ None) }
        ensures answer { IfOk result (λ next. Some next.answer ≡ with_part scope.now.declared.now scope.now.text.now
            (goal_atoms scope.now.declared.now (last_goal scope.now.declared.now)) raw.now.kind (Some self.answer)) }
        ensures place { IfOk result (λ next. next.place ≡ places.place_behind self.place raw.now.kind) }
        ensures table { IfOk result (λ next. next.atoms ≡ self.atoms) }
        ensures refused { IfErr result (λ end. RefusesWith end
            (λ fault. texts.first_fault scope.now.declared.now scope.now.text.now raw.now ≡ Some fault)) }
    {
        let Answered {
            atoms,
            place,
            answer,
        } = self;
        if let Some(fault) = scope.first_fault(alloc, &atoms, raw)? {
            return Err(FileEnd::Refused(fault));
        }
        let answer = scope.with_part(alloc, &atoms, answer, &raw.kind)?;
        Ok(Answered {
            atoms,
            place: place_behind_part(place, &raw.kind),
            answer,
        })
    }
}
