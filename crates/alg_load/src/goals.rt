//! The goals of a loaded file.

ghost use Rattle.std.specs.Prelude.{◌≡◌, ◌≤◌, ◌<◌, IfOk, map};
ghost use Rattle.alg_load.specs.Limits.{MAX_LOAD};
ghost use Rattle.alg_load.specs.Loaded as loaded;

use crate::NoMemory;
use crate::terms::{product, quotient, square, sum};
use alg_terms::{Equation, Goal, Method, Seq, Term};
use std::alloc::Global;

// The two variables.
fn x() -> Term
    ensures { result ≡ loaded.x }
{
    Term::Var(0)
}

fn y() -> Term
    ensures { result ≡ loaded.y }
{
    Term::Var(1)
}

// The literal of a number.
fn literal(value: u32) -> Term
    ensures { result ≡ loaded.literal value }
{
    Term::Int(i128::from(value))
}

// (x + i*y)^2
fn square_of_sum(alloc: Global, i: u32) -> Result<Term, NoMemory>
    ensures { IfOk result (λ term. term ≡ loaded.square_of_sum i) }
{
    let multiple = product(alloc, literal(i), y())?;
    let base = sum(alloc, x(), multiple)?;
    square(alloc, base)
}

// (i*i)*y^2
fn last_square(alloc: Global, i: u32) -> Result<Term, NoMemory>
    requires { i < MAX_LOAD }
    ensures { IfOk result (λ term. term ≡ loaded.last_square i) }
{
    let square = square(alloc, y())?;
    product(alloc, literal(i * i), square)
}

// x^2 + (2i)*x*y + (i*i)*y^2
fn three_terms(alloc: Global, i: u32) -> Result<Term, NoMemory>
    requires { i < MAX_LOAD }
    ensures { IfOk result (λ term. term ≡ loaded.three_terms i) }
{
    let first = square(alloc, x())?;
    let multiple = product(alloc, literal(2 * i), x())?;
    let mixed = product(alloc, multiple, y())?;
    let front = sum(alloc, first, mixed)?;
    let last = last_square(alloc, i)?;
    sum(alloc, front, last)
}

// x^2 + (i*i)*y^2
fn two_terms(alloc: Global, i: u32) -> Result<Term, NoMemory>
    requires { i < MAX_LOAD }
    ensures { IfOk result (λ term. term ≡ loaded.two_terms i) }
{
    let first = square(alloc, x())?;
    let last = last_square(alloc, i)?;
    sum(alloc, first, last)
}

// x/(x + i) + i/(x + i)
fn sum_of_quotients(alloc: Global, i: u32) -> Result<Term, NoMemory>
    ensures { IfOk result (λ term. term ≡ loaded.sum_of_quotients i) }
{
    let denominator = sum(alloc, x(), literal(i))?;
    let first = quotient(alloc, x(), denominator)?;
    let denominator = sum(alloc, x(), literal(i))?;
    let second = quotient(alloc, literal(i), denominator)?;
    sum(alloc, first, second)
}

// A goal on two terms at the field.
fn goal_by(method: Method, left: Term, right: Term) -> Goal
    ensures { result ≡ loaded.goal_by method left right }
{
    Goal {
        equation: Equation {
            sort: 0,
            left,
            right,
        },
        method,
    }
}

// Goal number i.
fn goal_of(alloc: Global, i: u32) -> Result<Goal, NoMemory>
    requires { i < MAX_LOAD }
    ensures { IfOk result (λ goal. goal ≡ loaded.goal_of i) }
{
    match i % 3 {
        0 => {
            let left = square_of_sum(alloc, i)?;
            let right = three_terms(alloc, i)?;
            Ok(goal_by(Method::ByRing, left, right))
        }
        1 => {
            let left = square_of_sum(alloc, i)?;
            let right = two_terms(alloc, i)?;
            Ok(goal_by(Method::ByRing, left, right))
        }
        _ => {
            let left = sum_of_quotients(alloc, i)?;
            Ok(goal_by(Method::ByField, left, literal(1)))
        }
    }
}

// The goals from number 0 on.
pub(crate) fn goals(alloc: Global, n: u32) -> Result<Seq<Goal>, NoMemory>
    requires { n ≤ MAX_LOAD }
    ensures { IfOk result (λ goals. goals ≡ map loaded.goal_of (loaded.numbers n)) }
{
    let mut goals = Seq::from_vec(Vec::new(alloc));
    for i in 0..n {
        goals.push(goal_of(alloc, i)?)?;
    }
    Ok(goals)
}
