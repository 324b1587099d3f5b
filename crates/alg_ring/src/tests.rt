//! Equations over one variable, and what they come to.

ghost use Rattle.std.specs.Prelude.{◌≡◌, ◌≤◌, ◌<◌, IfOk, length, pos, ◌≤ℤ◌};
ghost use Rattle.alg_terms.specs.GoalRules.{IsEquation, DividesNowhere};
ghost use Rattle.alg_terms.specs.Limits.{MAX_EXPONENT};
ghost use Rattle.alg_reify.specs.TestTerms.{test_side};

use crate::laws::proved_is_right;
use crate::{HornerPoly, NoMemory, Poly, RingAnswer, RingDecision, Stop, decide_ring, to_poly};
use alg_terms::{Equation, File, Kind, Name, Seq, Sort, Statement, Term, VarDecl};
use alg_universe::Rats;
use sqlite_items::Boxed;
use std::alloc::Global;
use std::test::Fail;

// ring R. var x : R.
fn one_variable(alloc: Global) -> Result<File, NoMemory>
    ensures { IfOk result (λ file. length file.vars ≡ 1) }
{
    let mut sorts = Seq::from_vec(Vec::new(alloc));
    sorts.push(Sort {
        name: Name::new(alloc, "R")?,
        kind: Kind::Ring,
        char0: false,
    })?;
    let mut vars = Seq::from_vec(Vec::new(alloc));
    vars.push(VarDecl {
        name: Name::new(alloc, "x")?,
        sort: 0,
    })?;
    Ok(File {
        sorts,
        homs: Seq::from_vec(Vec::new(alloc)),
        vars,
        hyps: Seq::from_vec(Vec::new(alloc)),
        goals: Seq::from_vec(Vec::new(alloc)),
        order: Seq::from_vec(Vec::new(alloc)),
    })
}

// (k*x)^n*x + c
fn side(alloc: Global, k: u64, n: u32, c: i128) -> Result<Term, NoMemory>
    ensures { IfOk result (λ term. term ≡ test_side (pos k) n c) }
{
    let base = Term::Mul(
        Boxed::new(alloc, Term::Int(i128::from(k)))?,
        Boxed::new(alloc, Term::Var(0))?,
    );
    let power = Term::Pow(Boxed::new(alloc, base)?, n);
    let product = Term::Mul(Boxed::new(alloc, power)?, Boxed::new(alloc, Term::Var(0))?);
    Ok(Term::Add(
        Boxed::new(alloc, product)?,
        Boxed::new(alloc, Term::Int(c))?,
    ))
}

// (k*x)^n*x + c = (k*x)^n*x + d
fn equation(
    alloc: Global,
    file: &File,
    k: u64,
    n: u32,
    c: i128,
    d: i128,
) -> Result<Equation, NoMemory>
    requires { 0 < length file.now.vars }
    ensures { IfOk result (λ e. IsEquation file.now e × DividesNowhere e) }
{
    let n = n.min(1000);
    Ok(Equation {
        sort: file.vars.items()[0].sort,
        left: side(alloc, k, n, c.max(0))?,
        right: side(alloc, k, n, d.max(0))?,
    })
}

// The degree of the monomial and the two coefficients of an answer No.
fn told(decision: RingDecision) -> Option<(u32, i128, i128)> {
    let RingDecision {
        answer,
        left: _left,
        right: _right,
    } = decision;
    match answer {
        RingAnswer::Proved => None,
        RingAnswer::No { at, left, right } => Some((at.degree(), left, right)),
    }
}

/// The greatest constant beside `2^126` within the range.
const MOST: i128 = i128::MAX - (1 << 126);

/// Each row: k, n, c and d, and the answer to (k*x)^n*x + c = (k*x)^n*x + d.
const EQUATIONS: &[(
    u64,
    u32,
    i128,
    i128,
    Result<Option<(u32, i128, i128)>, Stop>,
)] = &[
    (1, 1, 3, 3, Ok(None)),
    (1, 1, 3, 4, Ok(Some((0, 3, 4)))),
    (0, 1, 0, 4, Ok(Some((0, 0, 4)))),
    (1, 999, 0, 0, Ok(None)),
    (1, 1000, 0, 0, Err(Stop::Degree)),
    (2, 126, MOST, MOST, Ok(None)),
    (2, 126, MOST + 1, 0, Err(Stop::Range)),
    (2, 126, 0, MOST + 1, Err(Stop::Range)),
    (2, 1000, 0, 0, Err(Stop::Range)),
];

#[test]
fn an_equation_is_proved_or_refuted_within_the_limits(rt: HostRuntime) -> Result<(), Fail> {
    let file = one_variable(rt.alloc())?;
    for (k, n, c, d, want) in EQUATIONS {
        let goal = equation(rt.alloc(), &file, *k, *n, *c, *d)?;
        let decision = decide_ring(rt.alloc(), &file, &goal).map(told);
        assert_eq!(rt; decision, *want, "k {k}, n {n}, c {c}, d {d}");
        drop(goal);
    }
    drop(file);
    Ok(())
}

#[test]
fn a_form_is_listed_as_its_polynomial(rt: HostRuntime) -> Result<(), Fail> {
    let form = HornerPoly::atom(rt.alloc(), 2)?;
    let listed = to_poly(rt.alloc(), &form)?;
    assert!(rt; listed.same(&Poly::atom(rt.alloc(), 2)?));
    Ok(())
}

#[test]
fn the_law_is_called() {
    proved_is_right::<Rats>();
}
