//! Tables: what stands in them, in which order, and how many atoms they may have. Polynomials over
//! them.

ghost use Rattle.std.specs.Prelude.{◌≡◌, ◌<◌, IfOk, length, pos};
ghost use Rattle.alg_terms.specs.GoalRules.{IsEquation, DividesNowhere};
ghost use Rattle.alg_reify.specs.TestTerms.{test_side};

use alg_reify::laws::{
    field_no_differs, field_no_is_a_monomial, field_no_is_over_the_table, field_no_is_within_range,
    field_terms_may_stand, field_terms_occur, fractions_under_paths, no_differs, no_is_a_monomial,
    no_is_over_the_table, no_is_within_range, one_field_verdict, one_ring_verdict,
    sides_by_numbers,
};
use alg_reify::{Atoms, AtomsEnd, NoMemory, Overrun, Poly, atoms_of, reify};
use alg_terms::{Atom, Equation, File, Hyp, Name, Seq, Term, Use, VarDecl};
use sqlite_items::Boxed;
use std::alloc::Global;
use std::test::Fail;

// The variables and the morphisms by their numbers.
const X: u32 = 0;

const Y: u32 = 1;

const F: u32 = 0;

const G: u32 = 1;

fn image(alloc: Global, morphism: u32, part: Term) -> Result<Term, NoMemory> {
    Ok(Term::Hom(morphism, Boxed::new(alloc, part)?))
}

fn sum(alloc: Global, left: Term, right: Term) -> Result<Term, NoMemory>
    ensures { IfOk result (λ term. term ≡ Term.Add left right) }
{
    Ok(Term::Add(Boxed::new(alloc, left)?, Boxed::new(alloc, right)?))
}

fn equation(left: Term, right: Term) -> Equation {
    Equation {
        sort: 0,
        left,
        right,
    }
}

// A file with one hypothesis.
fn file_with(alloc: Global, hypothesis: Equation) -> Result<File, NoMemory>
    ensures hyps { IfOk result (λ file. length file.hyps ≡ 1) }
    ensures vars { IfOk result (λ file. length file.vars ≡ 0) }
{
    let mut hyps = Seq::from_vec(Vec::new(alloc));
    hyps.push(Hyp {
        name: Name::new(alloc, "H")?,
        equation: hypothesis,
        nonzero: false,
    })?;
    Ok(File {
        sorts: Seq::from_vec(Vec::new(alloc)),
        homs: Seq::from_vec(Vec::new(alloc)),
        vars: Seq::from_vec(Vec::new(alloc)),
        hyps,
        goals: Seq::from_vec(Vec::new(alloc)),
        order: Seq::from_vec(Vec::new(alloc)),
    })
}

// The variable under the path, as an atom.
fn under(alloc: Global, path: &[u32], var: u32) -> Result<Atom, NoMemory> {
    Ok(Atom {
        path: Seq::from_vec(Vec::from_slice(alloc, path)?),
        var,
    })
}

// f(g(x)) + y = g(f(x)) + y
fn goal(alloc: Global) -> Result<Equation, NoMemory> {
    let left = image(alloc, F, image(alloc, G, Term::Var(X))?)?;
    let right = image(alloc, G, image(alloc, F, Term::Var(X))?)?;
    Ok(equation(
        sum(alloc, left, Term::Var(Y))?,
        sum(alloc, right, Term::Var(Y))?,
    ))
}

// The table of the goal, with x = g(y) used under f.
fn table_with_a_use(alloc: Global) -> Result<Result<Atoms, AtomsEnd>, NoMemory> {
    let hypothesis = equation(Term::Var(X), image(alloc, G, Term::Var(Y))?);
    let file = file_with(alloc, hypothesis)?;
    let used = Use {
        path: Seq::from_vec(Vec::from_slice(alloc, &[F])?),
        hyp: 0,
    };
    Ok(atoms_of(alloc, &file, &goal(alloc)?, &[used]))
}

#[test]
fn atoms_stand_in_the_order_of_their_first_occurrence(rt: HostRuntime) -> Result<(), Fail> {
    let alloc = rt.alloc();
    let table = table_with_a_use(alloc)??;
    let want: [(&[u32], u32); 5] = [
        (&[F, G], X),
        (&[], Y),
        (&[G, F], X),
        (&[F], X),
        (&[F, G], Y),
    ];
    assert_eq!(rt; table.len(), want.len());
    for (k, (path, var)) in (0..5).zip(want) {
        let atom = under(alloc, path, var)?;
        assert_eq!(rt; table.get(k), Some(&atom), "atom {k}");
        assert_eq!(rt; table.find(&atom), Some(k), "atom {k}");
    }
    assert_eq!(rt; table.get(5), None);
    let bare = under(alloc, &[], X)?;
    assert_eq!(rt; table.find(&bare), None, "x is there only under morphisms");
    Ok(())
}

// How many atoms the table of x0 + x1 + .. = 0 has, with so many variables.
fn atoms_of_variables(alloc: Global, count: u32) -> Result<Result<usize, AtomsEnd>, NoMemory> {
    let file = file_with(alloc, equation(Term::Var(X), Term::Int(0)))?;
    let mut left = Term::Int(0);
    for k in 0..count {
        left = sum(alloc, left, Term::Var(k))?;
    }
    let goal = equation(left, Term::Int(0));
    let atoms = atoms_of(alloc, &file, &goal, &[]).map(|table| table.len());
    drop(goal);
    drop(file);
    Ok(atoms)
}

/// Each row: a number of variables, and the number of their atoms.
const COUNTS: &[(u32, Result<usize, AtomsEnd>)] = &[
    (0, Ok(0)),
    (1000, Ok(1000)),
    (1001, Err(AtomsEnd::TooMany)),
    (1002, Err(AtomsEnd::TooMany)),
];

#[test]
fn a_table_has_at_most_1000_atoms(rt: HostRuntime) -> Result<(), Fail> {
    for (count, want) in COUNTS {
        assert_eq!(rt;
            atoms_of_variables(rt.alloc(), *count)?,
            *want,
            "{count} variables"
        );
    }
    Ok(())
}

// var x : R.
fn one_variable(alloc: Global) -> Result<File, NoMemory>
    ensures { IfOk result (λ file. length file.vars ≡ 1) }
{
    let mut file = file_with(alloc, equation(Term::Var(X), Term::Int(0)))?;
    file.vars.push(VarDecl {
        name: Name::new(alloc, "x")?,
        sort: 0,
    })?;
    Ok(file)
}

// (k*x)^n*x + c
fn side(alloc: Global, k: u64, n: u32, c: u64) -> Result<Term, NoMemory>
    ensures { IfOk result (λ term. term ≡ test_side (pos k) n (pos c)) }
{
    let base = Term::Mul(
        Boxed::new(alloc, Term::Int(i128::from(k)))?,
        Boxed::new(alloc, Term::Var(X))?,
    );
    let power = Term::Pow(Boxed::new(alloc, base)?, n);
    let product = Term::Mul(Boxed::new(alloc, power)?, Boxed::new(alloc, Term::Var(X))?);
    sum(alloc, product, Term::Int(i128::from(c)))
}

// (k*x)^n*x + c = (k*x)^n*x + c
fn test_equation(alloc: Global, file: &File, k: u64, n: u32, c: u64) -> Result<Equation, NoMemory>
    requires { 0 < length file.now.vars }
    ensures { IfOk result (λ e. IsEquation file.now e × DividesNowhere e) }
{
    let n = n.min(1000);
    Ok(Equation {
        sort: file.vars.items()[0].sort,
        left: side(alloc, k, n, c)?,
        right: side(alloc, k, n, c)?,
    })
}

// The polynomial of the left side, over the equation's table.
fn left_side(
    alloc: Global,
    file: &File,
    equation: &Equation,
) -> Result<Result<Poly, Overrun>, AtomsEnd>
    requires equation { IsEquation file.now equation.now }
    requires plain { DividesNowhere equation.now }
{
    let table = atoms_of(alloc, file, equation, &[])?;
    let made = reify(alloc, file, &[], &equation.left, &table);
    drop(table);
    Ok(made)
}

// The exponent of the first atom, and the coefficient, of each term.
fn terms(alloc: Global, poly: &Poly) -> Result<Vec<(u32, i128)>, NoMemory> {
    let mut terms = Vec::new(alloc);
    for (mono, coefficient) in poly.terms() {
        terms.push((mono.exponent(0), *coefficient))?;
    }
    Ok(terms)
}

/// Each row: k, n and c, and the terms of (k*x)^n*x + c.
const SIDES: &[(u64, u32, u64, Result<&[(u32, i128)], Overrun>)] = &[
    (3, 1, 5, Ok(&[(2, 3), (0, 5)])),
    (2, 3, 0, Ok(&[(4, 8)])),
    (0, 2, 7, Ok(&[(0, 7)])),
    (0, 2, 0, Ok(&[])),
    (1, 1000, 0, Err(Overrun::Degree)),
    (2, 127, 0, Err(Overrun::Range)),
];

#[test]
fn a_polynomial_is_made_within_the_limits(rt: HostRuntime) -> Result<(), Fail> {
    let alloc = rt.alloc();
    let file = one_variable(alloc)?;
    for (k, n, c, want) in SIDES {
        let equation = test_equation(alloc, &file, *k, *n, *c)?;
        let made = left_side(alloc, &file, &equation)?;
        match (made, want) {
            (Ok(poly), Ok(want)) => {
                assert_eq!(rt;
                    terms(alloc, &poly)?.as_slice(),
                    *want,
                    "k {k}, n {n}, c {c}"
                );
                drop(poly);
            }
            (Err(end), Err(want)) => assert_eq!(rt; end, *want, "k {k}, n {n}, c {c}"),
            _ => panic!(rt; "k {k}, n {n}, c {c}"),
        }
        drop(equation);
    }
    drop(file);
    Ok(())
}

#[test]
fn the_laws_are_called() {
    fractions_under_paths();
    one_ring_verdict();
    no_differs();
    no_is_over_the_table();
    no_is_within_range();
    no_is_a_monomial();
    sides_by_numbers();
    one_field_verdict();
    field_no_differs();
    field_no_is_over_the_table();
    field_no_is_within_range();
    field_no_is_a_monomial();
    field_terms_may_stand();
    field_terms_occur();
}
