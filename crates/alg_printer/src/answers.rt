//! The text of an answer.

ghost use Rattle.std.specs.Prelude.{◌≡◌, ◌<◌, ◌++◌, [], length, All, codes, decimal, unwrap_or, OnOk};
ghost use Rattle.alg_terms.specs.Members.{uses_of};
ghost use Rattle.alg_printer.specs.Answers.{conditions_text, no_text, answer_text};
ghost use Rattle.alg_printer.specs.Monomials.{IsAtomOf, IsOverAtoms};
ghost use Rattle.alg_reify.specs.Table.{goal_atoms};
ghost use Rattle.alg_printer.specs.Printable.{HasParts};
ghost use Rattle.alg_printer.specs.Terms.{IsNamed};

use crate::NoMemory;
use crate::certificates::put_cert;
use crate::monomials::put_monomial;
use crate::terms::put_term;
use crate::text::Text;
use alg_lines::Answer;
use alg_mono::Mono;
use alg_reify::{Atoms, goal_table};
use alg_terms::{File, Goal, Term};
use std::alloc::Global;

/// Conditions, if there are any.
fn put_conditions(text: &mut Text, file: &File, conditions: &[Term]) -> Result<(), NoMemory>
    requires { All (IsNamed file.now) conditions.now }
    ensures { OnOk result (text.new ≡ text.old ++ conditions_text file.now conditions.now) }
{
    let mut front: &[u8] = b" if ";
    for condition in conditions {
        text.put(front)?;
        put_term(text, file, condition)?;
        text.put(b" <> 0")?;
        front = b", ";
    }
    Ok(())
}

/// The greatest monomial where the sides of a goal differ, and its coefficients.
fn put_no(
    text: &mut Text,
    file: &File,
    atoms: &Option<Atoms>,
    at: &Mono,
    left: i128,
    right: i128,
) -> Result<(), NoMemory>
    requires known { All (IsAtomOf file.now) (unwrap_or atoms.now []) }
    requires over { IsOverAtoms (unwrap_or atoms.now []) at.now }
    ensures { OnOk result (text.new
        ≡ text.old ++ no_text file.now (unwrap_or atoms.now []) at.now left right) }
{
    text.put(b"  no at ")?;
    put_monomial(text, file, atoms, at)?;
    text.put(b" : ")?;
    text.integer(left)?;
    text.put(b" and ")?;
    text.integer(right)?;
    text.put(b".\n")
}

/// A line that ends with a number.
fn put_count(text: &mut Text, words: &[u8], count: u32) -> Result<(), NoMemory>
    ensures { OnOk result (text.new ≡ text.old ++ (words.now ++ decimal count ++ codes ".\n")) }
{
    text.put(words)?;
    text.natural(count)?;
    text.put(b".\n")
}

/// An answer to a goal.
pub(crate) fn put_answer(
    alloc: Global,
    text: &mut Text,
    file: &File,
    goal: &Goal,
    answer: &Answer,
) -> Result<(), NoMemory>
    requires parts { HasParts file.now goal.now answer.now }
    requires atoms { All (IsAtomOf file.now) (goal_atoms file.now goal.now) }
    requires hyps { All (λ u. u.hyp < length file.now.hyps) (uses_of goal.now.method) }
    ensures { OnOk result (text.new ≡ text.old ++ answer_text file.now goal.now answer.now) }
{
    match answer {
        Answer::Proved { conditions } => {
            text.put(b"  proved")?;
            put_conditions(text, file, conditions.items())?;
            text.put(b".\n")
        }
        Answer::Certified { constants, cert } => {
            let atoms = goal_table(alloc, file, goal)?;
            put_cert(text, file, &atoms, constants.items(), cert)
        }
        Answer::No { at, left, right } => {
            let atoms = goal_table(alloc, file, goal)?;
            put_no(text, file, &atoms, at, *left, *right)
        }
        Answer::ZeroDenominator { denominator } => {
            text.put(b"  zero denominator ")?;
            put_term(text, file, denominator)?;
            text.put(b".\n")
        }
        Answer::NoneUpTo { power } => put_count(text, b"  none up to power ", *power),
        Answer::GaveUp { limit } => put_count(text, b"  gave up after ", *limit),
        Answer::Atoms => text.put(b"  atoms.\n"),
        Answer::Range => text.put(b"  range.\n"),
        Answer::Degree => text.put(b"  degree.\n"),
    }
}
