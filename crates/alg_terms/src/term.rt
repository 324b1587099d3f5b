//! Terms, and whether two are the same, how deep one is, and copies.

ghost use Rattle.std.specs.Prelude.{◌≡◌, ◌^◌, ◌<◌, ◌↔◌, IsTrue, IfOk};
ghost use Rattle.alg_terms.specs.Term.{depth_of};

use crate::{NoMemory, Seq};
use sqlite_items::Boxed;
use std::alloc::Global;

/// A term over declared variables and morphisms. Its sort is not stored in it.
#[derive(Debug, Drop)]
pub enum Term {
    /// A variable, by its number in the file.
    Var(u32),
    /// A literal. Its value is the sum of that many ones.
    Int(i128),
    Neg(Boxed<Term>),
    Add(Boxed<Term>, Boxed<Term>),
    Sub(Boxed<Term>, Boxed<Term>),
    Mul(Boxed<Term>, Boxed<Term>),
    Div(Boxed<Term>, Boxed<Term>),
    Pow(Boxed<Term>, u32),
    /// The image under a morphism, by its number in the file.
    Hom(u32, Boxed<Term>),
}

/// A variable under a path of morphisms, the outermost first.
#[derive(Debug, Drop, PartialEq, Eq, Hash)]
pub struct Atom {
    pub path: Seq<u32>,
    pub var: u32,
}

/// Whether two terms are the same tree. It takes no memory.
pub fn same(a: &Term, b: &Term) -> bool
    ensures { IsTrue result ↔ (a.now ≡ b.now) }
{
    match (a, b) {
        (Term::Var(i), Term::Var(j)) => *i == *j,
        (Term::Int(m), Term::Int(n)) => *m == *n,
        (Term::Neg(s), Term::Neg(t)) => same(s.get(), t.get()),
        (Term::Add(r, s), Term::Add(t, u)) => same(r.get(), t.get()) && same(s.get(), u.get()),
        (Term::Sub(r, s), Term::Sub(t, u)) => same(r.get(), t.get()) && same(s.get(), u.get()),
        (Term::Mul(r, s), Term::Mul(t, u)) => same(r.get(), t.get()) && same(s.get(), u.get()),
        (Term::Div(r, s), Term::Div(t, u)) => same(r.get(), t.get()) && same(s.get(), u.get()),
        (Term::Pow(s, m), Term::Pow(t, n)) => *m == *n && same(s.get(), t.get()),
        (Term::Hom(f, s), Term::Hom(g, t)) => *f == *g && same(s.get(), t.get()),
        _ => false,
    }
}

/// The number of nodes on the longest way down. It takes no memory.
#[tactic(auto, using(crate::proofs::Built::built))]
pub fn depth(t: &Term) -> u32
    requires { depth_of t.now < 2 ^ 32 }
    ensures { result ≡ depth_of t.now }
{
    match t {
        Term::Var(_) | Term::Int(_) => 1,
        Term::Neg(part) | Term::Pow(part, _) | Term::Hom(_, part) => 1 + depth(part.get()),
        Term::Add(left, right)
        | Term::Sub(left, right)
        | Term::Mul(left, right)
        | Term::Div(left, right) => 1 + depth(left.get()).max(depth(right.get())),
    }
}

/// An equal term.
#[cycle(copy)]
pub fn copy(alloc: Global, t: &Term) -> Result<Term, NoMemory>
    ensures { IfOk result (λ u. u ≡ t.now) }
{
    Ok(match t {
        Term::Var(number) => Term::Var(*number),
        Term::Int(value) => Term::Int(*value),
        Term::Neg(part) => Term::Neg(copy_part(alloc, part)?),
        Term::Add(left, right) => Term::Add(copy_part(alloc, left)?, copy_part(alloc, right)?),
        Term::Sub(left, right) => Term::Sub(copy_part(alloc, left)?, copy_part(alloc, right)?),
        Term::Mul(left, right) => Term::Mul(copy_part(alloc, left)?, copy_part(alloc, right)?),
        Term::Div(left, right) => Term::Div(copy_part(alloc, left)?, copy_part(alloc, right)?),
        Term::Pow(part, exponent) => Term::Pow(copy_part(alloc, part)?, *exponent),
        Term::Hom(number, part) => Term::Hom(*number, copy_part(alloc, part)?),
    })
}

#[cycle(copy)]
fn copy_part(alloc: Global, part: &Boxed<Term>) -> Result<Boxed<Term>, NoMemory>
    ensures { IfOk result (λ new. new ≡ part.now) }
{
    Boxed::new(alloc, copy(alloc, part.get())?)
}
