//! The answer that two polynomials come to, and whether two answers are one.

ghost use Rattle.std.specs.Prelude.{◌≡◌, ◌↔◌, List, IfOk, IsTrue};
ghost use Rattle.alg_check.specs.Answers.{IsComparison, IsStopped, HasNoCertificate};

use crate::{NoMemory, Poly};
use alg_lines::Answer;
use alg_reify::Stop;
use alg_terms::{Seq, Term, same};
use std::alloc::Global;

/// The answer where both sides were made: they are equal under conditions, or they differ first at a
/// monomial.
pub(crate) fn compared(
    alloc: Global,
    left: &Poly,
    right: &Poly,
    conditions: Seq<Term>,
) -> Result<Answer, NoMemory>
    ensures { IfOk result (IsComparison left.now right.now conditions) }
{
    match left.first_difference(right) {
        None => Ok(Answer::Proved { conditions }),
        Some((at, left, right)) => Ok(Answer::No {
            at: at.copy(alloc)?,
            left,
            right,
        }),
    }
}

/// The answer where the sides could not be made.
pub(crate) fn stopped(stop: Stop) -> Result<Answer, NoMemory>
    ensures { IfOk result (IsStopped stop) }
{
    match stop {
        Stop::Atoms => Ok(Answer::Atoms),
        Stop::Range => Ok(Answer::Range),
        Stop::Degree => Ok(Answer::Degree),
        Stop::NoMemory => Err(NoMemory),
    }
}

/// Whether two lists have the same trees in the same order. It takes no memory.
fn same_terms(left: &[Term], right: &[Term]) -> bool
    ensures { IsTrue result ↔ (left.now ≡ right.now) }
{
    if left.len() != right.len() {
        return false;
    }
    for i in 0..left.len() {
        if !same(&left[i], &right[i]) {
            return false;
        }
    }
    true
}

/// Whether two answers are one, the first of which has no certificate. It takes no memory.
pub(crate) fn same_answer(own: &Answer, given: &Answer) -> bool
    requires { HasNoCertificate own.now }
    ensures { IsTrue result ↔ (given.now ≡ own.now) }
{
    match (own, given) {
        (Answer::Proved { conditions: one }, Answer::Proved { conditions: other }) => {
            same_terms(one.items(), other.items())
        }
        (
            Answer::No { at, left, right },
            Answer::No {
                at: other,
                left: first,
                right: second,
            },
        ) => at.same(other) && *left == *first && *right == *second,
        (
            Answer::ZeroDenominator { denominator: one },
            Answer::ZeroDenominator { denominator: other },
        ) => { same(one, other) }
        (Answer::NoneUpTo { power: one }, Answer::NoneUpTo { power: other }) => *one == *other,
        (Answer::GaveUp { limit: one }, Answer::GaveUp { limit: other }) => *one == *other,
        (Answer::Atoms, Answer::Atoms)
        | (Answer::Range, Answer::Range)
        | (Answer::Degree, Answer::Degree) => true,
        _ => false,
    }
}
