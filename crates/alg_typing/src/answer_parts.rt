//! The faults of the terms and names of an answer, one group at a time, and the numbers of its names.

ghost use Rattle.std.specs.Prelude.{◌≡◌, ◌<◌, flat_map, length, map, All, IfOk};
ghost use Rattle.alg_terms.specs.Members.{goal_at};
ghost use Rattle.alg_reader.specs.WellRead.{IsNameAt, IsWellTerm};
ghost use Rattle.alg_typing.specs.AnswerTerms.{answer_sorts};
ghost use Rattle.alg_typing.specs.Faults.{first_of};
ghost use Rattle.alg_typing.specs.NameFaults.{term_names, used_name};
ghost use Rattle.alg_typing.specs.Names.{is_hom, is_var};
ghost use Rattle.alg_typing.specs.Resolved.{number_at};

use crate::Declared;
use crate::declaration::Wanted;
use crate::scope::Scope;
use alg_reader::{RawTerm, Span};
use alg_terms::NoMemory;
use alg_tokens::Refusal;
use std::alloc::Global;

impl Declared {
    /// The first fault of the names of a term, by the names that are declared so far.
    pub fn term_names(&self, text: &str, raw: &RawTerm) -> Option<Refusal>
        requires { IsWellTerm text.now raw.now }
        ensures { result ≡ first_of (term_names self.now text.now raw.now) }
    {
        let scope = Scope {
            declared: self,
            text,
        };
        scope.term_names(raw)
    }

    /// The first fault of the sorts of a term of an answer to a goal. Its final sort is its own, or the
    /// goal's where it has none.
    #[tactic(none)]
    pub fn term_sorts(&self, text: &str, raw: &RawTerm, goal: u32) -> Option<Refusal>
        requires well_read { IsWellTerm text.now raw.now }
        requires goal { goal < length self.now.goals }
        ensures { result ≡ first_of (answer_sorts self.now text.now (goal_at self.now goal) raw.now) }
    {
        let scope = Scope {
            declared: self,
            text,
        };
        scope.answer_sorts(self.goal_at(goal), raw)
    }

    /// The fault of a name that is used as one of a variable.
    pub fn var_fault(&self, text: &str, name: Span) -> Option<Refusal>
        requires { IsNameAt text.now name }
        ensures { result ≡ first_of (used_name self.now text.now is_var name) }
    {
        let scope = Scope {
            declared: self,
            text,
        };
        scope.used_name(name, Wanted::Var)
    }

    /// The first fault of the names of a path of morphisms.
    pub fn path_fault(&self, text: &str, path: &[Span]) -> Option<Refusal>
        requires { All (IsNameAt text.now) path.now }
        ensures { result ≡ first_of (flat_map (used_name self.now text.now is_hom) path.now) }
    {
        let scope = Scope {
            declared: self,
            text,
        };
        scope.path_names(path)
    }

    /// The numbers of the morphisms of a path.
    pub fn path_of(&self, alloc: Global, text: &str, path: &[Span]) -> Result<Vec<u32>, NoMemory>
        requires { All (IsNameAt text.now) path.now }
        ensures { IfOk result (λ numbers. numbers.items ≡ map (number_at self.now text.now) path.now) }
    {
        let scope = Scope {
            declared: self,
            text,
        };
        scope.path_of(alloc, path)
    }

    /// The number of what a name is declared as.
    pub fn number_at(&self, text: &str, name: Span) -> u32
        requires { IsNameAt text.now name }
        ensures { result ≡ number_at self.now text.now name }
    {
        let scope = Scope {
            declared: self,
            text,
        };
        scope.number_at(name)
    }
}
