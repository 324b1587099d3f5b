//! Goals by ring, decided anew by plain polynomials.

ghost use Rattle.std.specs.Prelude.{◌≡◌, IfOk, IfErr};
ghost use Rattle.alg_terms.specs.GoalRules.{IsEquation, DividesNowhere};
ghost use Rattle.alg_mono.specs.Outcomes.{Outcome, first_breach};
ghost use Rattle.alg_meaning.specs.PolynomialOf.{poly_of};
ghost use Rattle.alg_meaning.specs.TermOutcome.{term_outcome};
ghost use Rattle.alg_reify.specs.Answers.{IsRingAnswer};
ghost use Rattle.alg_reify.specs.Numbered.{numbered};
ghost use Rattle.alg_reify.specs.RingVerdict.{ComesTo, own_table};
ghost use Rattle.alg_reify.specs.Stops.{StopsWith};

use crate::comparing::{compared, stopped};
use crate::{NoMemory, Poly};
use alg_lines::Answer;
use alg_reify::{Stop, atoms_of, reify};
use alg_terms::{Equation, File, Seq};
use std::alloc::Global;

/// The polynomials of both sides over the numbers of the equation's atoms, the left one made first.
fn sides(alloc: Global, file: &File, equation: &Equation) -> Result<(Poly, Poly), Stop>
    requires equation { IsEquation file.now equation.now }
    requires plain { DividesNowhere equation.now }
    ensures left { IfOk result (λ s.
        s.0 ≡ numbered (own_table file.now equation.now) (poly_of equation.now.left)) }
    ensures right { IfOk result (λ s.
        s.1 ≡ numbered (own_table file.now equation.now) (poly_of equation.now.right)) }
    ensures fine { IfOk result (λ s. ComesTo file.now equation.now Outcome.Fine) }
    ensures stop { IfErr result (StopsWith (own_table file.now equation.now)
        (first_breach (term_outcome equation.now.left) (term_outcome equation.now.right))) }
{
    let table = atoms_of(alloc, file, equation, &[])?;
    let left: Poly = reify(alloc, file, &[], &equation.left, &table)?;
    let right: Poly = reify(alloc, file, &[], &equation.right, &table)?;
    Ok((left, right))
}

/// The answer to an equation by ring: whether both sides are one polynomial.
pub(crate) fn ring_answer(
    alloc: Global,
    file: &File,
    equation: &Equation,
) -> Result<Answer, NoMemory>
    requires equation { IsEquation file.now equation.now }
    requires plain { DividesNowhere equation.now }
    ensures { IfOk result (IsRingAnswer file.now equation.now) }
{
    match sides(alloc, file, equation) {
        Ok((left, right)) => compared(alloc, &left, &right, Seq::from_vec(Vec::new(alloc))),
        Err(stop) => stopped(stop),
    }
}
