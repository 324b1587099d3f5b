//! Goals by field, decided anew by fractions of plain polynomials.

ghost use Rattle.std.specs.Prelude.{◌≡◌, ◌≤◌, IfOk, IfErr, length};
ghost use Rattle.alg_terms.specs.GoalRules.{IsEquation};
ghost use Rattle.alg_reify.specs.Answers.{IsFieldAnswer};
ghost use Rattle.alg_reify.specs.RingVerdict.{own_table};
ghost use Rattle.alg_check.specs.Fields.{IsEnded, MakesSides};

use crate::comparing::{compared, stopped};
use crate::fractions::{Fraction, numerators};
use crate::{NoMemory, Poly};
use alg_lines::Answer;
use alg_reify::{Atoms, AtomsEnd, FractionEnd, Stop, atoms_of, reify_sides};
use alg_terms::{Equation, File, Seq, Term};
use std::alloc::Global;

/// The numerators of both sides over their common factors, with the conditions.
#[derive(Drop)]
struct Sides {
    left: Poly,
    right: Poly,
    conditions: Vec<Term>,
}

/// The numerators of both sides, the left side made first, and then the numerators.
fn make_sides(
    alloc: Global,
    file: &File,
    equation: &Equation,
    table: &Atoms,
) -> Result<Sides, FractionEnd>
    requires equation { IsEquation file.now equation.now }
    requires table { table.now ≡ own_table file.now equation.now }
    ensures { MakesSides file.now equation.now result }
{
    let mut conditions = Vec::new(alloc);
    let (left, right): (Fraction, Fraction) = reify_sides(
        alloc,
        file,
        equation,
        table,
        &mut conditions,
    )?;
    match numerators(alloc, left, right) {
        Ok((left, right)) => Ok(Sides {
            left,
            right,
            conditions,
        }),
        Err(end) => Err(FractionEnd::Refused(end)),
    }
}

/// The answer where the numerators could not be made.
fn ended(end: FractionEnd) -> Result<Answer, NoMemory>
    ensures { IfOk result (IsEnded end) }
{
    match end {
        FractionEnd::ZeroDenominator(denominator) => Ok(Answer::ZeroDenominator { denominator }),
        FractionEnd::Refused(end) => stopped(Stop::from(end)),
    }
}

/// The answer to an equation by field over its table.
fn answer_over(
    alloc: Global,
    file: &File,
    equation: &Equation,
    table: &Atoms,
) -> Result<Answer, NoMemory>
    requires equation { IsEquation file.now equation.now }
    requires table { table.now ≡ own_table file.now equation.now }
    requires small { length table.now ≤ 1000 }
    ensures { IfOk result (IsFieldAnswer file.now equation.now) }
{
    match make_sides(alloc, file, equation, table) {
        Ok(
            Sides {
                left,
                right,
                conditions,
            },
        ) => compared(alloc, &left, &right, Seq::from_vec(conditions)),
        Err(end) => ended(end),
    }
}

/// The answer to an equation by field: whether the numerators of both sides over their common factors
/// are one polynomial.
pub(crate) fn field_answer(
    alloc: Global,
    file: &File,
    equation: &Equation,
) -> Result<Answer, NoMemory>
    requires { IsEquation file.now equation.now }
    ensures { IfOk result (IsFieldAnswer file.now equation.now) }
{
    match atoms_of(alloc, file, equation, &[]) {
        Ok(table) => answer_over(alloc, file, equation, &table),
        Err(AtomsEnd::TooMany) => Ok(Answer::Atoms),
        Err(AtomsEnd::NoMemory) => Err(NoMemory),
    }
}
