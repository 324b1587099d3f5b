//! The fraction of a term over the numbers of a table's atoms, with the conditions on the way.

ghost use Rattle.std.specs.Prelude.{◌≡◌, ℕ, [], OnOk};
ghost use Rattle.alg_terms.specs.declared.term.Term.{Term};
ghost use Rattle.alg_terms.specs.GoalRules.{IsEquation};
ghost use Rattle.alg_terms.specs.Members.{sort_at};
ghost use Rattle.alg_mono.specs.Outcomes.{Outcome};
ghost use Rattle.alg_meaning.specs.FractionOutcome.{of_polynomials};
ghost use Rattle.alg_meaning.specs.FractionsOver.{FractionOver};
ghost use Rattle.alg_reify.specs.Ends.{GivesFraction};
ghost use Rattle.alg_reify.specs.MadeSides.{MakesBoth};
ghost use Rattle.alg_reify.specs.Making.{Gives};
ghost use Rattle.alg_reify.specs.MakingFractions.{IsFractionOver, HasParts, operation, Operation, Combines, MakesFraction};
ghost use Rattle.alg_reify.specs.RingVerdict.{own_table};

use crate::conditions::add_condition;
use crate::ends::FractionEnd;
use crate::fraction_form::FractionForm;
use crate::making::atom_number;
use crate::{Atoms, Overrun};
use alg_terms::{Equation, File, Term, copy};
use std::alloc::Global;

/// What an operation on fractions gave.
fn ended<F: FractionForm>(made: Result<F, Overrun>) -> Result<F, FractionEnd>
    ensures { (x : FractionOver ℕ) (o : Outcome) → Gives F.fraction x o made →
        GivesFraction F.fraction x (of_polynomials o) result }
{
    match made {
        Ok(fraction) => Ok(fraction),
        Err(end) => Err(FractionEnd::Refused(end)),
    }
}

/// The quotient, with its denominator among the conditions. A denominator that is zero ends it.
fn divided<F: FractionForm>(
    alloc: Global,
    char0: bool,
    conditions: &mut Vec<Term>,
    left: F,
    right: F,
    denominator: &Term,
) -> Result<F, FractionEnd>
    ensures { Combines F.fraction char0 (Operation.Quotient denominator.now) (F.fraction left)
        (F.fraction right) conditions.old.items conditions.new.items result }
{
    if right.is_zero() {
        return Err(FractionEnd::ZeroDenominator(copy(alloc, denominator)?));
    }
    add_condition(alloc, char0, conditions, denominator, &right)?;
    ended(left.quotient(alloc, right))
}

/// The fraction of a term with two parts by those of its parts.
fn combined<F: FractionForm>(
    alloc: Global,
    char0: bool,
    conditions: &mut Vec<Term>,
    term: &Term,
    left: F,
    right: F,
) -> Result<F, FractionEnd>
    requires { (l : Term) × (r : Term) × HasParts term.now l r }
    ensures { Combines F.fraction char0 (operation term.now) (F.fraction left) (F.fraction right)
        conditions.old.items conditions.new.items result }
{
    match term {
        Term::Add(_, _) => ended(left.sum(alloc, right)),
        Term::Sub(_, _) => ended(left.difference(alloc, right)),
        Term::Mul(_, _) => ended(left.product(alloc, right)),
        Term::Div(_, denominator) => {
            divided(alloc, char0, conditions, left, right, denominator.get())
        }
        _ => unreachable!(),
    }
}

/// The fraction of a term under a path, which is as before at the end. It is made node by node in
/// postorder, and each denominator on the way is added to the conditions.
fn make<F: FractionForm>(
    alloc: Global,
    table: &Atoms,
    char0: bool,
    path: &mut Vec<u32>,
    conditions: &mut Vec<Term>,
    term: &Term,
) -> Result<F, FractionEnd>
    requires { IsFractionOver table.now path.old.items term.now }
    ensures { MakesFraction F.fraction char0 table.now path.old.items path.new.items
        conditions.old.items conditions.new.items term.now result }
{
    match term {
        Term::Int(value) => Ok(F::constant(alloc, *value)?),
        Term::Var(var) => {
            let number = atom_number(alloc, table, path.as_slice(), *var)?;
            Ok(F::atom(alloc, number)?)
        }
        Term::Neg(part) => {
            let part: F = make(alloc, table, char0, path, conditions, part.get())?;
            Ok(part.opposite(alloc)?)
        }
        Term::Pow(part, exponent) => {
            let part: F = make(alloc, table, char0, path, conditions, part.get())?;
            ended(part.power(alloc, *exponent))
        }
        Term::Hom(morphism, part) => {
            path.push(*morphism)?;
            let image: F = make(alloc, table, char0, path, conditions, part.get())?;
            path.pop();
            Ok(image)
        }
        Term::Add(left, right)
        | Term::Sub(left, right)
        | Term::Mul(left, right)
        | Term::Div(left, right) => {
            let left: F = make(alloc, table, char0, path, conditions, left.get())?;
            let right: F = make(alloc, table, char0, path, conditions, right.get())?;
            combined(alloc, char0, conditions, term, left, right)
        }
    }
}

/// Whether a sort of the file is declared of characteristic 0.
pub fn has_char0(file: &File, sort: u32) -> bool
    ensures { result ≡ (sort_at file.now sort).char0 }
{
    match file.sorts.items().get(sort as usize) {
        Some(sort) => sort.char0,
        None => false,
    }
}

/// The fractions of both sides of an equation of the file over the numbers of its atoms, the left one
/// made first. The list of conditions, which is empty at first, gets those of the goal.
///
/// Nodes are made in postorder. The first that divides by zero ends it with its denominator, and the
/// first that breaks a rule on norms or degrees is refused.
pub fn reify_sides<F: FractionForm>(
    alloc: Global,
    file: &File,
    equation: &Equation,
    table: &Atoms,
    conditions: &mut Vec<Term>,
) -> Result<(F, F), FractionEnd>
    requires equation { IsEquation file.now equation.now }
    requires table { table.now ≡ own_table file.now equation.now }
    requires none { conditions.old.items ≡ [] }
    ensures { MakesBoth F.fraction file.now equation.now conditions.new.items result }
{
    let char0 = has_char0(file, equation.sort);
    let mut path = Vec::new(alloc);
    let left: F = make(alloc, table, char0, &mut path, conditions, &equation.left)?;
    let right: F = make(alloc, table, char0, &mut path, conditions, &equation.right)?;
    Ok((left, right))
}
