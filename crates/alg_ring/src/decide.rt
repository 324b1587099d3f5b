ghost use Rattle.std.specs.Prelude.{◌≡◌, IfOk, IfErr};
ghost use Rattle.alg_terms.specs.GoalRules.{IsEquation, DividesNowhere};
ghost use Rattle.alg_meaning.specs.PolynomialOf.{poly_of};
ghost use Rattle.alg_reify.specs.Numbered.{numbered};
ghost use Rattle.alg_reify.specs.RingVerdict.{IsRingVerdict, own_table};
ghost use Rattle.alg_ring.specs.Answers.{verdict_of, StopsWith, IsComparison};

use alg_horner::HornerPoly;
use alg_poly::Poly;
use alg_reify::{Mono, NoMemory, Stop, atoms_of, reify};
use alg_terms::{Equation, File};
use std::alloc::Global;

/// The answer to a goal by ring that is not stopped.
#[derive(Debug, Drop)]
pub enum RingAnswer {
    /// The two sides are one polynomial.
    Proved,
    /// The two sides differ: `at` is the greatest monomial where they do, over the atoms of the
    /// equation's table by their numbers, and `left` and `right` are its coefficients.
    No { at: Mono, left: i128, right: i128 },
}

/// The answer to an equation, with the polynomials of its two sides over the atoms of its table by
/// their numbers, each in its one canonical form.
#[derive(Debug, Drop)]
pub struct RingDecision {
    pub answer: RingAnswer,
    pub left: HornerPoly,
    pub right: HornerPoly,
}

/// Decides whether the two sides of an equation of the file, without quotients, are one polynomial.
///
/// `Atoms` comes exactly where the equation has more than 1,000 atoms; else `Range` or `Degree`
/// exactly where the first node of the left side, and then of the right, that breaks a rule breaks
/// that one. Its cost is that of the two polynomials, and of one comparison of their forms; their
/// terms are listed only where the forms differ.
pub fn decide_ring(alloc: Global, file: &File, equation: &Equation) -> Result<RingDecision, Stop>
    requires equation { IsEquation file.now equation.now }
    requires plain { DividesNowhere equation.now }
    ensures answer { IfOk result (λ d. IsRingVerdict file.now equation.now (verdict_of d.answer)) }
    ensures left { IfOk result (λ d.
        d.left ≡ numbered (own_table file.now equation.now) (poly_of equation.now.left)) }
    ensures right { IfOk result (λ d.
        d.right ≡ numbered (own_table file.now equation.now) (poly_of equation.now.right)) }
    ensures stop { IfErr result (StopsWith file.now equation.now) }
{
    let table = atoms_of(alloc, file, equation, &[])?;
    let left: HornerPoly = reify(alloc, file, &[], &equation.left, &table)?;
    let right: HornerPoly = reify(alloc, file, &[], &equation.right, &table)?;
    let answer = compare(alloc, &left, &right)?;
    Ok(RingDecision {
        answer,
        left,
        right,
    })
}

/// Whether two polynomials are equal, or else where they first differ.
fn compare(alloc: Global, left: &HornerPoly, right: &HornerPoly) -> Result<RingAnswer, NoMemory>
    ensures { IfOk result (IsComparison left.now right.now) }
{
    if left.same(right) {
        return Ok(RingAnswer::Proved);
    }
    first_difference(alloc, &to_poly(alloc, left)?, &to_poly(alloc, right)?)
}

/// Where two polynomials first differ, if they do.
fn first_difference(alloc: Global, left: &Poly, right: &Poly) -> Result<RingAnswer, NoMemory>
    ensures { IfOk result (IsComparison left.now right.now) }
{
    match left.first_difference(right) {
        None => Ok(RingAnswer::Proved),
        Some((at, left, right)) => Ok(RingAnswer::No {
            at: at.copy(alloc)?,
            left,
            right,
        }),
    }
}

/// The same polynomial as the list of its terms.
pub fn to_poly(alloc: Global, form: &HornerPoly) -> Result<Poly, NoMemory>
    ensures { IfOk result (λ p. p ≡ form.now) }
{
    Ok(Poly::from_terms(form.terms(alloc)?))
}
