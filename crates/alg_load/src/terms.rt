//! Sums, products, quotients and squares of terms.

ghost use Rattle.std.specs.Prelude.{◌≡◌, IfOk};
ghost use Rattle.alg_terms.specs.declared.term.Term.TheVariants as Term;

use crate::NoMemory;
use alg_terms::Term;
use sqlite_items::Boxed;
use std::alloc::Global;

pub(crate) fn sum(alloc: Global, left: Term, right: Term) -> Result<Term, NoMemory>
    ensures { IfOk result (λ term. term ≡ Term.Add left right) }
{
    Ok(Term::Add(Boxed::new(alloc, left)?, Boxed::new(alloc, right)?))
}

pub(crate) fn product(alloc: Global, left: Term, right: Term) -> Result<Term, NoMemory>
    ensures { IfOk result (λ term. term ≡ Term.Mul left right) }
{
    Ok(Term::Mul(Boxed::new(alloc, left)?, Boxed::new(alloc, right)?))
}

pub(crate) fn quotient(alloc: Global, left: Term, right: Term) -> Result<Term, NoMemory>
    ensures { IfOk result (λ term. term ≡ Term.Div left right) }
{
    Ok(Term::Div(Boxed::new(alloc, left)?, Boxed::new(alloc, right)?))
}

pub(crate) fn square(alloc: Global, base: Term) -> Result<Term, NoMemory>
    ensures { IfOk result (λ term. term ≡ Term.Pow base 2) }
{
    Ok(Term::Pow(Boxed::new(alloc, base)?, 2))
}
