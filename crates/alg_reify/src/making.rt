//! The polynomial of a term over the numbers of a table's atoms.

ghost use Rattle.std.specs.Prelude.{◌≡◌, IfOk, IfErr, OnOk, All, Contains};
ghost use Rattle.alg_terms.specs.TermRules.{IsTerm, HasNoQuotient};
ghost use Rattle.alg_mono.specs.Outcomes.{Outcome};
ghost use Rattle.alg_mono.specs.Refusals.{RefusesWith};
ghost use Rattle.alg_mono.specs.NumberedPolynomials.{atom_of};
ghost use Rattle.alg_meaning.specs.PolynomialOf.{poly_of_under};
ghost use Rattle.alg_meaning.specs.TermOutcome.{term_outcome};
ghost use Rattle.alg_reify.specs.Table.{leaves};
ghost use Rattle.alg_reify.specs.Numbered.{number_of, numbered};
ghost use Rattle.alg_reify.specs.Making.{Makes, IsOverTable};

use crate::{Atoms, NoMemory};
use alg_mono::{Overrun, PolynomialForm};
use alg_terms::{Atom, File, Seq, Term};
use std::alloc::Global;

/// The polynomial of a term of the file under a path of morphisms, the outermost first, over the
/// numbers of the atoms in the table. The term has no quotients, and the table holds its atoms.
///
/// It is made node by node in postorder: `Range` or `Degree` exactly where the first node that breaks
/// a rule breaks that one. Each node costs one operation on polynomials, and each variable one
/// look-up of its atom.
pub fn reify<P: PolynomialForm>(
    alloc: Global,
    file: &File,
    path: &[u32],
    term: &Term,
    table: &Atoms,
) -> Result<P, Overrun>
    requires term { IsTerm file.now term.now }
    requires plain { HasNoQuotient term.now }
    requires held { All (Contains table.now) (leaves path.now term.now) }
    ensures ok { IfOk result (λ p. P.map p ≡ numbered table.now (poly_of_under path.now term.now)) }
    ensures fine { OnOk result (term_outcome term.now ≡ Outcome.Fine) }
    ensures refused { IfErr result (λ e. RefusesWith e (term_outcome term.now)) }
{
    let mut path = Vec::from_slice(alloc, path)?;
    make(alloc, table, &mut path, term)
}

/// The polynomial of a term under a path, which is as before at the end.
fn make<P: PolynomialForm>(
    alloc: Global,
    table: &Atoms,
    path: &mut Vec<u32>,
    term: &Term,
) -> Result<P, Overrun>
    requires { IsOverTable table.now path.old.items term.now }
    ensures path { OnOk result (path.new.items ≡ path.old.items) }
    ensures makes { Makes P.map (numbered table.now (poly_of_under path.old.items term.now))
        (term_outcome term.now) result }
{
    match term {
        Term::Int(value) => Ok(P::constant(alloc, *value)?),
        Term::Var(var) => Ok(make_atom(alloc, table, path.as_slice(), *var)?),
        Term::Neg(part) => {
            let part: P = make(alloc, table, path, part.get())?;
            Ok(part.opposite(alloc)?)
        }
        Term::Add(left, right) => {
            let left: P = make(alloc, table, path, left.get())?;
            let right: P = make(alloc, table, path, right.get())?;
            left.plus(alloc, right)
        }
        Term::Sub(left, right) => {
            let left: P = make(alloc, table, path, left.get())?;
            let right: P = make(alloc, table, path, right.get())?;
            left.minus(alloc, right)
        }
        Term::Mul(left, right) => {
            let left: P = make(alloc, table, path, left.get())?;
            let right: P = make(alloc, table, path, right.get())?;
            left.product(alloc, right)
        }
        Term::Pow(part, exponent) => {
            let part: P = make(alloc, table, path, part.get())?;
            part.raised(alloc, *exponent)
        }
        Term::Hom(morphism, part) => {
            path.push(*morphism)?;
            let image: P = make(alloc, table, path, part.get())?;
            path.pop();
            Ok(image)
        }
        Term::Div(_, _) => unreachable!(),
    }
}

/// The number of a variable's atom under a path: one look-up by its hash.
pub(crate) fn atom_number(
    alloc: Global,
    table: &Atoms,
    path: &[u32],
    var: u32,
) -> Result<u32, NoMemory>
    requires { Contains table.now (record { path = path.now; var = var }) }
    ensures { IfOk result (λ k. k ≡ number_of table.now (record { path = path.now; var = var })) }
{
    let path = Seq::from_vec(Vec::from_slice(alloc, path)?);
    match table.find(&Atom { path, var }) {
        Some(number) => Ok(number),
        None => unreachable!(),
    }
}

/// The polynomial that is one atom of the table, a variable under a path.
fn make_atom<P: PolynomialForm>(
    alloc: Global,
    table: &Atoms,
    path: &[u32],
    var: u32,
) -> Result<P, NoMemory>
    requires { Contains table.now (record { path = path.now; var = var }) }
    ensures { IfOk result (λ p.
        P.map p ≡ atom_of (number_of table.now (record { path = path.now; var = var }))) }
{
    let number = atom_number(alloc, table, path, var)?;
    P::atom(alloc, number)
}
