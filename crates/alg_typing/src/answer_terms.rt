//! Terms of answers to the goals of the file so far.

ghost use Rattle.std.specs.Prelude.{◌≡◌, ◌<◌, length, None, Some, IfOk, IfErr};
ghost use Rattle.alg_terms.specs.AnswerRules.{IsAnswerTerm};
ghost use Rattle.alg_terms.specs.Members.{goal_at};
ghost use Rattle.alg_reader.specs.WellRead.{IsWellTerm};
ghost use Rattle.alg_typing.specs.AnswerTerms.{may_divide, answer_sorts, first_fault_of_term};
ghost use Rattle.alg_typing.specs.Ends.{RefusesWith};
ghost use Rattle.alg_typing.specs.Faults.{first_of};
ghost use Rattle.alg_typing.specs.Resolved.{term_of};
ghost use Rattle.alg_typing.specs.TermsOf.{IsTermOf};

use crate::Declared;
use crate::scope::Scope;
use crate::sorts::Context;
use alg_reader::{FileEnd, RawTerm};
use alg_terms::{Goal, Method, Term};
use alg_tokens::Refusal;
use std::alloc::Global;

/// Whether an answer to a goal by this method may have quotients.
fn may_divide(method: &Method) -> bool
    ensures { result ≡ may_divide method.now }
{
    match method {
        Method::ByField => true,
        Method::ByRing | Method::ByNsatz { .. } => false,
    }
}

impl Scope<'_> {
    /// The first fault of the sorts of a term of an answer to a goal.
    #[tactic(none)]
    pub(crate) fn answer_sorts(&self, goal: &Goal, raw: &RawTerm) -> Option<Refusal>
        requires { IsTermOf self.now.text.now raw.now }
        ensures { result ≡ first_of (answer_sorts self.now.declared.now self.now.text.now goal.now raw.now) }
    {
        let at = Context {
            sort: Some(self.own_sort(raw).unwrap_or(goal.equation.sort)),
            in_fields: true,
            may_divide: may_divide(&goal.method),
        };
        self.check(raw, at).fault
    }

    /// The first fault of a term of an answer to a goal, of its names and then of its sorts.
    #[tactic(none)]
    fn answer_fault(&self, goal: &Goal, raw: &RawTerm) -> Option<Refusal>
        requires { IsTermOf self.now.text.now raw.now }
        ensures { result ≡ first_fault_of_term self.now.declared.now self.now.text.now goal.now raw.now }
    {
        match self.term_names(raw) {
            Some(fault) => Some(fault),
            None => self.answer_sorts(goal, raw),
        }
    }
}

impl Declared {
    /// The term of an answer to a goal, by the names that are declared so far, or its first fault.
    /// Its final sort is its own, or the goal's where it has none. Linear in the term.
    #[tactic(none)]
    pub fn term(&self, alloc: Global, text: &str, raw: &RawTerm, goal: u32) -> Result<Term, FileEnd>
        requires well_read { IsWellTerm text.now raw.now }
        requires goal { goal < length self.now.goals }
        ensures ok { IfOk result (λ term.
            (first_fault_of_term self.now text.now (goal_at self.now goal) raw.now ≡ None)
            × (term ≡ term_of self.now text.now raw.now)) }
        ensures rules { IfOk result (IsAnswerTerm self.now (goal_at self.now goal)) }
        ensures refused { IfErr result (λ end. RefusesWith end
            (λ fault. first_fault_of_term self.now text.now (goal_at self.now goal) raw.now ≡ Some fault)) }
    {
        let scope = Scope {
            declared: self,
            text,
        };
        match scope.answer_fault(self.goal_at(goal), raw) {
            Some(fault) => Err(FileEnd::Refused(fault)),
            None => Ok(scope.term_of(alloc, raw)?),
        }
    }
}
