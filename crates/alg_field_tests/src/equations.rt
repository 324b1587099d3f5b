//! Equations of quotients over one variable, and what they come to.

ghost use Rattle.std.specs.Prelude.{◌≡◌, ◌≤◌, ◌<◌, ℕ, ◌+◌, IfOk, length, pos};
ghost use Rattle.alg_terms.specs.GoalRules.{IsEquation};
ghost use Rattle.alg_field.specs.TestTerms.{linear_power, IsSide};

use alg_field::laws::proved_is_right;
use alg_field::{FieldAnswer, FieldDecision, NoMemory, Stop, decide_field};
use alg_terms::{Equation, File, Kind, Name, Seq, Sort, Term, VarDecl, same};
use alg_universe::Rats;
use sqlite_items::Boxed;
use std::alloc::Global;
use std::test::Fail;

// (k*x + c)^n, by k, c and n.
type Power = (u64, u64, u32);

const X: Power = (1, 0, 1);

const ZERO: Power = (0, 0, 1);

const ONE: Power = (0, 1, 1);

const TWO: Power = (0, 2, 1);

// x + 1
const NEXT: Power = (1, 1, 1);

// field F. var x : F.
fn one_variable(alloc: Global, char0: bool) -> Result<File, NoMemory>
    ensures { IfOk result (λ file. length file.vars ≡ 1) }
{
    let mut sorts = Seq::from_vec(Vec::new(alloc));
    sorts.push(Sort {
        name: Name::new(alloc, "F")?,
        kind: Kind::Field,
        char0,
    })?;
    let mut vars = Seq::from_vec(Vec::new(alloc));
    vars.push(VarDecl {
        name: Name::new(alloc, "x")?,
        sort: 0,
    })?;
    Ok(File {
        sorts,
        homs: Seq::from_vec(Vec::new(alloc)),
        vars,
        hyps: Seq::from_vec(Vec::new(alloc)),
        goals: Seq::from_vec(Vec::new(alloc)),
        order: Seq::from_vec(Vec::new(alloc)),
    })
}

fn power(alloc: Global, power: Power) -> Result<Term, NoMemory>
    ensures { IfOk result (λ t. (file : File) → 0 < length file.vars → IsSide file 4 t) }
{
    let (k, c, n) = power;
    let product = Term::Mul(
        Boxed::new(alloc, Term::Int(i128::from(k)))?,
        Boxed::new(alloc, Term::Var(0))?,
    );
    let base = Term::Add(
        Boxed::new(alloc, product)?,
        Boxed::new(alloc, Term::Int(i128::from(c)))?,
    );
    Ok(Term::Pow(Boxed::new(alloc, base)?, n.min(1000)))
}

fn quotient(alloc: Global, left: Term, right: Term) -> Result<Term, NoMemory>
    ensures { IfOk result (λ t. (file : File) (d : ℕ) → d < 1000 → IsSide file d left →
        IsSide file d right → IsSide file (d + 1) t) }
{
    Ok(Term::Div(Boxed::new(alloc, left)?, Boxed::new(alloc, right)?))
}

// x/1/1/../1, with so many quotients.
fn chain(alloc: Global, count: u32) -> Result<Term, NoMemory>
    requires { count < 990 }
    ensures { IfOk result (λ t. (file : File) → 0 < length file.vars →
        IsSide file (4 + count) t) }
{
    let mut long = power(alloc, X)?;
    for _k in 0..count {
        let one = power(alloc, ONE)?;
        long = quotient(alloc, long, one)?;
    }
    Ok(long)
}

fn equation(file: &File, left: Term, right: Term) -> Equation
    requires { 0 < length file.now.vars }
    ensures { (d : ℕ) → IsSide file.now d left → IsSide file.now d right →
        IsEquation file.now result }
{
    Equation {
        sort: file.vars.items()[0].sort,
        left,
        right,
    }
}

// a/(b/c) = d/e
fn goal(alloc: Global, file: &File, powers: [Power; 5]) -> Result<Equation, NoMemory>
    requires { 0 < length file.now.vars }
    ensures { IfOk result (λ e. IsEquation file.now e) }
{
    let [a, b, c, d, e] = powers;
    let inner = quotient(alloc, power(alloc, b)?, power(alloc, c)?)?;
    let left = quotient(alloc, power(alloc, a)?, inner)?;
    let right = quotient(alloc, power(alloc, d)?, power(alloc, e)?)?;
    Ok(equation(file, left, right))
}

// x/1/1/../1 = x
fn long(alloc: Global, file: &File) -> Result<Equation, NoMemory>
    requires { 0 < length file.now.vars }
    ensures { IfOk result (λ e. IsEquation file.now e) }
{
    let left = chain(alloc, 980)?;
    let right = power(alloc, X)?;
    Ok(equation(file, left, right))
}

// A power, or one over another.
type Denominator = (Power, Option<Power>);

fn denominator(alloc: Global, (above, below): Denominator) -> Result<Term, NoMemory> {
    match below {
        None => power(alloc, above),
        Some(below) => quotient(alloc, power(alloc, above)?, power(alloc, below)?),
    }
}

// Whether the terms are these denominators.
fn are(alloc: Global, terms: &[Term], want: &[Denominator]) -> Result<bool, NoMemory> {
    if terms.len() != want.len() {
        return Ok(false);
    }
    for (term, want) in terms.iter().zip(want) {
        if !same(term, &denominator(alloc, *want)?) {
            return Ok(false);
        }
    }
    Ok(true)
}

// What an equation should come to.
#[derive(Clone, Copy)]
enum Want {
    // Proved under these conditions.
    Proved(&'static [Denominator]),
    // The degree of the monomial and the two coefficients.
    No(u32, i128, i128),
    ZeroDenominator(Denominator),
}

fn is(alloc: Global, decision: &FieldDecision, want: &Want) -> Result<bool, NoMemory> {
    match (&decision.answer, want) {
        (FieldAnswer::Proved { conditions }, Want::Proved(want)) => {
            are(alloc, conditions.items(), want)
        }
        (FieldAnswer::No { at, left, right }, Want::No(degree, a, b)) => {
            Ok(at.degree() == *degree && *left == *a && *right == *b)
        }
        (FieldAnswer::ZeroDenominator { denominator: term }, Want::ZeroDenominator(want)) => {
            Ok(same(term, &denominator(alloc, *want)?))
        }
        _ => Ok(false),
    }
}

/// Each row: whether the field is of characteristic 0, a to e, and the answer to a/(b/c) = d/e.
const EQUATIONS: &[(bool, [Power; 5], Result<Want, Stop>)] = &[
    (
        false,
        [X, X, ONE, ONE, ONE],
        Ok(Want::Proved(&[(X, Some(ONE))])),
    ),
    (
        false,
        [X, X, TWO, TWO, ONE],
        Ok(Want::Proved(&[((0, 2, 1), None), (X, Some((0, 2, 1)))])),
    ),
    (
        true,
        [X, X, TWO, TWO, ONE],
        Ok(Want::Proved(&[(X, Some((0, 2, 1)))])),
    ),
    (
        false,
        [ONE, ONE, X, (1, 0, 2), X],
        Ok(Want::Proved(&[(X, None)])),
    ),
    (
        false,
        [ONE, X, (0, 0, 0), ONE, X],
        Ok(Want::Proved(&[(X, Some((0, 0, 0))), (X, None)])),
    ),
    (false, [ONE, X, ONE, ONE, NEXT], Ok(Want::No(0, 1, 0))),
    (
        false,
        [ZERO, ZERO, ZERO, ONE, ONE],
        Ok(Want::ZeroDenominator((ZERO, None))),
    ),
    (
        false,
        [ONE, ZERO, X, ONE, ZERO],
        Ok(Want::ZeroDenominator((ZERO, Some(X)))),
    ),
    (
        false,
        [(1, 0, 200), (2, 0, 1), ONE, (1, 0, 126), (1, 0, 900)],
        Err(Stop::Degree),
    ),
    (
        false,
        [(1, 0, 200), (2, 0, 1), ONE, (2, 0, 126), (1, 0, 900)],
        Err(Stop::Range),
    ),
    (false, [ZERO, X, ONE, (2, 0, 127), ZERO], Err(Stop::Range)),
];

// Whether a/(b/c) = d/e comes to this.
fn comes_to(
    alloc: Global,
    char0: bool,
    powers: [Power; 5],
    want: &Result<Want, Stop>,
) -> Result<bool, NoMemory> {
    let file = one_variable(alloc, char0)?;
    let goal = goal(alloc, &file, powers)?;
    let decision = decide_field(alloc, &file, &goal);
    let comes = match (&decision, want) {
        (Ok(decision), Ok(want)) => is(alloc, decision, want)?,
        (Err(stop), Err(want)) => *stop == *want,
        _ => false,
    };
    drop(decision);
    drop(goal);
    drop(file);
    Ok(comes)
}

#[test]
fn an_equation_is_decided_by_its_numerators(rt: HostRuntime) -> Result<(), Fail> {
    let alloc = rt.alloc();
    for (char0, powers, want) in EQUATIONS {
        assert!(rt; comes_to(alloc, *char0, *powers, want)?, "{powers:?}");
    }
    Ok(())
}

#[test]
fn a_side_may_be_deep(rt: HostRuntime) -> Result<(), Fail> {
    let file = one_variable(rt.alloc(), false)?;
    let goal = long(rt.alloc(), &file)?;
    let decision = decide_field(rt.alloc(), &file, &goal)?;
    assert!(rt; is(rt.alloc(), &decision, &Want::Proved(&[]))?);
    Ok(())
}

#[test]
fn the_law_is_called() {
    proved_is_right::<Rats>();
}
