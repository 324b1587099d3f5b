//! The members of the file so far, by their numbers. Where it has none of a number, the answer is the
//! one that `Members.antt` gives there.

ghost use Rattle.std.specs.Prelude.{◌≡◌, ◌<◌, length};
ghost use Rattle.alg_terms.specs.Members.{kind_of, source_of, target_of, sort_of_var, hyp_at, goal_at};

use crate::Declared;
use alg_terms::{Goal, Kind};

impl Declared {
    /// The kind of a sort.
    pub(crate) fn kind_of(&self, sort: u32) -> Kind
        ensures { result ≡ kind_of self.now sort }
    {
        match self.file().sorts.items().get(sort as usize) {
            Some(sort) => sort.kind,
            None => Kind::Ring,
        }
    }

    /// The sort from which a morphism goes.
    pub(crate) fn source_of(&self, hom: u32) -> u32
        ensures { result ≡ source_of self.now hom }
    {
        match self.file().homs.items().get(hom as usize) {
            Some(hom) => hom.from,
            None => 0,
        }
    }

    /// The sort to which a morphism goes.
    pub(crate) fn target_of(&self, hom: u32) -> u32
        ensures { result ≡ target_of self.now hom }
    {
        match self.file().homs.items().get(hom as usize) {
            Some(hom) => hom.to,
            None => 0,
        }
    }

    /// The sort of a variable.
    pub(crate) fn sort_of_var(&self, var: u32) -> u32
        ensures { result ≡ sort_of_var self.now var }
    {
        match self.file().vars.items().get(var as usize) {
            Some(var) => var.sort,
            None => 0,
        }
    }

    /// The sort of a hypothesis.
    pub(crate) fn sort_of_hyp(&self, hyp: u32) -> u32
        ensures { result ≡ (hyp_at self.now hyp).equation.sort }
    {
        match self.file().hyps.items().get(hyp as usize) {
            Some(hyp) => hyp.equation.sort,
            None => 0,
        }
    }

    /// Whether a hypothesis is a `<>`.
    pub(crate) fn is_unequal(&self, hyp: u32) -> bool
        ensures { result ≡ (hyp_at self.now hyp).nonzero }
    {
        match self.file().hyps.items().get(hyp as usize) {
            Some(hyp) => hyp.nonzero,
            None => false,
        }
    }

    /// A goal of the file so far.
    pub fn goal_at(&self, goal: u32) -> &Goal
        requires { goal < length self.now.goals }
        ensures { result.now ≡ goal_at self.now goal }
    {
        &self.file().goals.items()[goal as usize]
    }
}
