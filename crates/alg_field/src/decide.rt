//! The answer to an equation by field.

ghost use Rattle.std.specs.Prelude.{◌≡◌, IfOk, IfErr};
ghost use Rattle.alg_terms.specs.GoalRules.{IsEquation};
ghost use Rattle.alg_reify.specs.FieldVerdict.{IsFieldVerdict};
ghost use Rattle.alg_reify.specs.RingVerdict.{own_table};
ghost use Rattle.alg_field.specs.Answers.{verdict_of, StopsWith, HasNumerators, IsComparison, MakesSides};

use crate::fraction::{Fraction, numerators};
use crate::{HornerPoly, Mono, NoMemory, Stop};
use alg_poly::Poly;
use alg_reify::{Atoms, FractionEnd, atoms_of, reify_sides};
use alg_terms::{Equation, File, Seq, Term};
use std::alloc::Global;

/// The answer to a goal by field that is not stopped.
#[derive(Debug, Drop)]
pub enum FieldAnswer {
    /// The cleared numerators are equal. The sides are equal wherever no condition is zero: the
    /// conditions are the denominators of both sides as written, each once, but those that are never
    /// zero.
    Proved { conditions: Seq<Term> },
    /// The cleared numerators differ: `at` is the greatest monomial where they do, over the atoms of
    /// the equation's table by their numbers, and `left` and `right` are its coefficients.
    No { at: Mono, left: i128, right: i128 },
    /// The first denominator in postorder whose numerator is zero, as it is written.
    ZeroDenominator { denominator: Term },
}

/// The answer to an equation, with the cleared numerators of its two sides, the left one first, over
/// the atoms of its table by their numbers, each in its one canonical form. There are none where a
/// denominator is zero.
#[derive(Debug, Drop)]
pub struct FieldDecision {
    pub answer: FieldAnswer,
    pub numerators: Option<(HornerPoly, HornerPoly)>,
}

/// The cleared numerators of both sides, with the conditions.
#[derive(Drop)]
struct Sides {
    left: HornerPoly,
    right: HornerPoly,
    conditions: Vec<Term>,
}

/// Decides whether the two sides of an equation of the file are equal wherever their denominators are
/// not zero, by their numerators over their common factors.
///
/// `Atoms` comes exactly where the equation has more than 1,000 atoms. Else the nodes of the left side
/// and then of the right are taken in postorder: the first that divides by zero, or breaks a rule on
/// norms or degrees, gives the answer `ZeroDenominator`, or `Range` or `Degree`; so do both cleared
/// numerators after them. At one node `Range` comes before `Degree`. Each product is made only after
/// its norm and degree were bounded, and the recursion is as deep as the terms.
pub fn decide_field(alloc: Global, file: &File, equation: &Equation) -> Result<FieldDecision, Stop>
    requires { IsEquation file.now equation.now }
    ensures answer { IfOk result (λ d. IsFieldVerdict file.now equation.now (verdict_of d.answer)) }
    ensures numerators { IfOk result (λ d.
        HasNumerators file.now equation.now d.answer d.numerators) }
    ensures stop { IfErr result (StopsWith file.now equation.now) }
{
    let table = atoms_of(alloc, file, equation, &[])?;
    match make_sides(alloc, file, &table, equation) {
        Ok(
            Sides {
                left,
                right,
                conditions,
            },
        ) => {
            let answer = compared(alloc, &left, &right, conditions)?;
            Ok(FieldDecision {
                answer,
                numerators: Some((left, right)),
            })
        }
        Err(FractionEnd::ZeroDenominator(denominator)) => Ok(FieldDecision {
            answer: FieldAnswer::ZeroDenominator { denominator },
            numerators: None,
        }),
        Err(FractionEnd::Refused(end)) => Err(Stop::from(end)),
    }
}

/// The cleared numerators of both sides: the left side is made first, then the right one, and then
/// both numerators.
fn make_sides(
    alloc: Global,
    file: &File,
    table: &Atoms,
    equation: &Equation,
) -> Result<Sides, FractionEnd>
    requires equation { IsEquation file.now equation.now }
    requires table { table.now ≡ own_table file.now equation.now }
    ensures { MakesSides file.now equation.now result }
{
    let mut conditions = Vec::new(alloc);
    let (left, right): (Fraction, Fraction) = reify_sides(
        alloc,
        file,
        equation,
        table,
        &mut conditions,
    )?;
    let (left, right) = numerators(alloc, left, right)?;
    Ok(Sides {
        left,
        right,
        conditions,
    })
}

/// The same polynomial as the list of its terms.
fn listed(alloc: Global, form: &HornerPoly) -> Result<Poly, NoMemory>
    ensures { IfOk result (λ p. p ≡ form.now) }
{
    Ok(Poly::from_terms(form.terms(alloc)?))
}

/// The answer where both numerators were made. Their terms are listed only where their forms differ.
fn compared(
    alloc: Global,
    left: &HornerPoly,
    right: &HornerPoly,
    conditions: Vec<Term>,
) -> Result<FieldAnswer, NoMemory>
    ensures { IfOk result (IsComparison left.now right.now conditions.items) }
{
    if !left.same(right) {
        let (first, second) = (listed(alloc, left)?, listed(alloc, right)?);
        if let Some((at, left, right)) = first.first_difference(&second) {
            return Ok(FieldAnswer::No {
                at: at.copy(alloc)?,
                left,
                right,
            });
        }
    }
    Ok(FieldAnswer::Proved {
        conditions: Seq::from_vec(conditions),
    })
}
