//! What an annotated text is so far, and with one more statement.

ghost use Rattle.std.specs.Prelude.{◌≡◌, ◌≤◌, ℕ, length, None, Some, IfOk, IfErr};
ghost use Rattle.alg_terms.specs.Limits.{MAX_TEXT};
ghost use Rattle.alg_terms.specs.Valid.{IsValid};
ghost use Rattle.alg_reader.specs.Places.{MayStand};
ghost use Rattle.alg_reader.specs.declared.raw.RawKind.TheVariants as raws;
ghost use Rattle.alg_reader.specs.WellRead.{IsWellKind, IsWellRead};
ghost use Rattle.alg_typing.specs.Ends.{RefusesWith};
ghost use Rattle.alg_typing.specs.Room.{HasRoom};
ghost use Rattle.alg_annotated.specs.Parts.{IsAnswerPart, IsLineOrStep};
ghost use Rattle.alg_annotated.specs.Progress.{place_of, so_far, HasTable};
ghost use Rattle.alg_annotated.specs.Reading.{nothing_yet, annotated_of};
ghost use Rattle.alg_annotated.specs.Reading as texts;

use crate::Annotated;
use crate::open_answer::{Answered, Open, closed, opened, place_behind_answer};
use crate::scope::Scope;
use alg_lines::Answer;
use alg_reader::{FileEnd, Place, Raw, RawAnswer, RawKind};
use alg_reify::goal_table;
use alg_terms::{NoMemory, Seq};
use alg_typing::Declared;
use std::alloc::Global;

/// A file so far, with the answers to its goals but the open one.
#[derive(Drop)]
pub(crate) struct Progress {
    declared: Declared,
    answers: Vec<Option<Answer>>,
    last: Open,
}

impl Progress {
    /// Before the first statement.
    pub(crate) fn new(alloc: Global) -> Progress
        ensures nothing { so_far result ≡ nothing_yet }
        ensures table { HasTable result.declared result.last }
        ensures valid { IsValid result.declared }
    {
        let declared = Declared::new(alloc);
        let _file = declared.file();
        Progress {
            declared,
            answers: Vec::new(alloc),
            last: Open::Nothing,
        }
    }

    /// The place of the next statement.
    pub(crate) fn place(&self) -> Place
        ensures { result ≡ place_of self.now.last }
    {
        match &self.last {
            Open::Nothing => Place::Start,
            Open::Goal => Place::AfterGoal,
            Open::Answer(answered) => answered.place,
        }
    }

    /// The annotated file, if the text ends here.
    pub(crate) fn finish(self) -> Result<Annotated, NoMemory>
        ensures ok { IfOk result (λ all. all ≡ annotated_of (so_far self)) }
        ensures valid { IfOk result (λ all. IsValid all.file) }
    {
        let Progress {
            declared,
            answers,
            last,
        } = self;
        let answers = closed(answers, last)?;
        Ok(Annotated {
            file: declared.into_file(),
            answers: Seq::from_vec(answers),
        })
    }

    /// With one more statement, or its first fault. Linear in the statement; the table of a goal is made
    /// at its answer.
    #[tactic(none)]
    pub(crate) fn with_statement(
        self,
        alloc: Global,
        text: &str,
        raw: Raw,
    ) -> Result<Progress, FileEnd>
        requires size { length text.now ≤ MAX_TEXT }
        requires well_read { (at : ℕ) × IsWellRead text.now at raw }
        requires may_stand { MayStand (place_of self.last) raw.kind }
        requires room { ¬ (IsAnswerPart raw.kind) → HasRoom self.declared raw.kind }
        requires count { length (so_far self).answers ≡ length self.declared.goals }
        requires table { HasTable self.declared self.last }
        ensures ok { IfOk result (λ now. (texts.first_fault self.declared text.now raw ≡ None)
            × (so_far now ≡ texts.with_statement (so_far self) text.now raw.kind)) }
        ensures table { IfOk result (λ now. HasTable now.declared now.last) }
        ensures refused { IfErr result
            (λ end. RefusesWith end (λ fault. texts.first_fault self.declared text.now raw ≡ Some fault)) }
    {
        match &raw.kind {
            RawKind::Answer(said) => {
                let next = self.with_answer(alloc, text, &raw, said);
                drop(raw);
                next
            }
            RawKind::Line { .. } | RawKind::Step { .. } => {
                let next = self.with_part(alloc, text, &raw);
                drop(raw);
                next
            }
            _ => self.with_declaration(alloc, text, raw),
        }
    }

    /// With a declaration or a goal.
    #[tactic(none)]
    fn with_declaration(self, alloc: Global, text: &str, raw: Raw) -> Result<Progress, FileEnd>
        requires size { length text.now ≤ MAX_TEXT }
        requires well_read { (at : ℕ) × IsWellRead text.now at raw }
        requires declared { ¬ (IsAnswerPart raw.kind) }
        requires room { HasRoom self.declared raw.kind }
        requires count { length (so_far self).answers ≡ length self.declared.goals }
        requires table { HasTable self.declared self.last }
        ensures ok { IfOk result (λ now. (texts.first_fault self.declared text.now raw ≡ None)
            × (so_far now ≡ texts.with_statement (so_far self) text.now raw.kind)) }
        ensures table { IfOk result (λ now. HasTable now.declared now.last) }
        ensures refused { IfErr result
            (λ end. RefusesWith end (λ fault. texts.first_fault self.declared text.now raw ≡ Some fault)) }
    {
        let Progress {
            mut declared,
            answers,
            last,
        } = self;
        let answers = closed(answers, last)?;
        let last = opened(&raw.kind);
        declared.add(alloc, text, raw)?;
        Ok(Progress {
            declared,
            answers,
            last,
        })
    }

    /// With an answer to the last goal.
    #[tactic(none)]
    fn with_answer(
        self,
        alloc: Global,
        text: &str,
        raw: &Raw,
        said: &RawAnswer,
    ) -> Result<Progress, FileEnd>
        requires well_read { IsWellKind text.now raw.now.kind }
        requires may_stand { MayStand (place_of self.last) raw.now.kind }
        requires said { raw.now.kind ≡ raws.Answer said.now }
        requires count { length (so_far self).answers ≡ length self.declared.goals }
        requires table { HasTable self.declared self.last }
        ensures ok { IfOk result (λ now. (texts.first_fault self.declared text.now raw.now ≡ None)
            × (so_far now ≡ texts.with_statement (so_far self) text.now raw.now.kind)) }
        ensures table { IfOk result (λ now. HasTable now.declared now.last) }
        ensures refused { IfErr result
            (λ end. RefusesWith end (λ fault. texts.first_fault self.declared text.now raw.now ≡ Some fault)) }
    {
        let Progress {
            declared,
            answers,
            last: _,
        } = self;
        let scope = Scope {
            declared: &declared,
            text,
        };
        let goal = declared.goal_at(scope.last_goal());
        let atoms = goal_table(alloc, declared.file(), goal)?;
        if let Some(fault) = scope.first_fault(alloc, &atoms, raw)? {
            return Err(FileEnd::Refused(fault));
        }
        let answer = scope.answer_of(alloc, &atoms, said)?;
        let answered = Answered {
            atoms,
            place: place_behind_answer(said),
            answer,
        };
        Ok(Progress {
            declared,
            answers,
            last: Open::Answer(answered),
        })
    }

    /// With a line or a step of the certificate of the last answer.
    #[tactic(none)]
    fn with_part(self, alloc: Global, text: &str, raw: &Raw) -> Result<Progress, FileEnd>
        requires well_read { IsWellKind text.now raw.now.kind }
        requires may_stand { MayStand (place_of self.last) raw.now.kind }
        requires part { IsLineOrStep raw.now.kind }
        requires count { length (so_far self).answers ≡ length self.declared.goals }
        requires table { HasTable self.declared self.last }
        ensures ok { IfOk result (λ now. (texts.first_fault self.declared text.now raw.now ≡ None)
            × (so_far now ≡ texts.with_statement (so_far self) text.now raw.now.kind)) }
        ensures table { IfOk result (λ now. HasTable now.declared now.last) }
        ensures refused { IfErr result
            (λ end. RefusesWith end (λ fault. texts.first_fault self.declared text.now raw.now ≡ Some fault)) }
    {
        let Progress {
            declared,
            answers,
            last,
        } = self;
        match last {
            Open::Answer(answered) => {
                let scope = Scope {
                    declared: &declared,
                    text,
                };
                let answered = answered.with_part(alloc, &scope, raw)?;
                Ok(Progress {
                    declared,
                    answers,
                    last: Open::Answer(answered),
                })
            }
            _ => unreachable!(),
        }
    }
}
