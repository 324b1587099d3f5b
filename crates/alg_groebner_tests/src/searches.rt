//! Searches with known ends and known certificates.

use alg_groebner::laws::{
    certificates_are_good, certificates_are_within, marks_are_cited, one_end, one_step,
    powers_are_sought, some_end,
};
use alg_groebner::{Mono, Overrun, Poly, Verdict, search};
use alg_lines::{GoalStep, Line};
use std::alloc::Global;
use std::process::Abort;
use std::test::Fail;

/// A monomial: atoms with their exponents.
type Powers = &'static [(u32, u32)];

/// A polynomial: coefficients with monomials.
type Terms = &'static [(i128, Powers)];

const ONE: Powers = &[];

const X: Powers = &[(0, 1)];

const Y: Powers = &[(1, 1)];

/// The sum of coefficients times monomials.
fn poly(rt: &impl Abort, alloc: Global, terms: &[(i128, &[(u32, u32)])]) -> Result<Poly, Fail> {
    let mut sum = Poly::zero(alloc);
    for &(c, pairs) in terms {
        assert!(rt; c != i128::MIN);
        let mono = Mono::from_pairs(alloc, pairs)?;
        let term = Poly::constant(alloc, 1)?.scale(alloc, c, &mono)?;
        sum = sum.add(alloc, &term)?;
    }
    Ok(sum)
}

/// How a search ends.
#[derive(Clone, Copy, Debug, PartialEq, Eq)]
enum End {
    Proved(u32),
    NoneUpTo(u32),
    GaveUp(u32),
    Range,
    Degree,
    NoMemory,
}

fn end_of(answer: &Result<Verdict, Overrun>) -> End {
    match answer {
        Ok(Verdict::Proved(cert)) => End::Proved(cert.power),
        Ok(Verdict::NoneUpTo(power)) => End::NoneUpTo(*power),
        Ok(Verdict::GaveUp(limit)) => End::GaveUp(*limit),
        Err(Overrun::Range) => End::Range,
        Err(Overrun::Degree) => End::Degree,
        Err(Overrun::NoMemory) => End::NoMemory,
    }
}

struct Row {
    shows: &'static str,
    hyps: &'static [Terms],
    goal: Terms,
    power: u32,
    limit: u32,
    end: End,
}

/// 2^64, 2^125 and 2^126.
const LARGE: i128 = 1 << 64;

const GREAT: i128 = 1 << 125;

const GREATER: i128 = 1 << 126;

const ROWS: &[Row] = &[
    Row {
        shows: "no hypotheses",
        hyps: &[],
        goal: &[(1, X)],
        power: 3,
        limit: 0,
        end: End::NoneUpTo(3),
    },
    Row {
        shows: "coprime leads make no pair",
        hyps: &[&[(1, &[(0, 2)]), (-1, ONE)], &[(1, &[(1, 2)]), (-1, ONE)]],
        goal: &[(1, &[(0, 1), (1, 1)]), (-1, ONE)],
        power: 1,
        limit: 0,
        end: End::NoneUpTo(1),
    },
    Row {
        shows: "the goal 0",
        hyps: &[],
        goal: &[],
        power: 2,
        limit: 0,
        end: End::Proved(1),
    },
    Row {
        shows: "the hypothesis 0",
        hyps: &[&[]],
        goal: &[(1, X)],
        power: 1,
        limit: 0,
        end: End::NoneUpTo(1),
    },
    Row {
        shows: "a constant, no moves",
        hyps: &[&[(2, ONE)]],
        goal: &[(1, X)],
        power: 1,
        limit: 0,
        end: End::GaveUp(0),
    },
    Row {
        shows: "a constant",
        hyps: &[&[(2, ONE)]],
        goal: &[(1, X)],
        power: 1,
        limit: 1,
        end: End::Proved(1),
    },
    Row {
        shows: "equal hypotheses, no moves",
        hyps: &[&[(1, X), (-1, ONE)], &[(1, X), (-1, ONE)]],
        goal: &[(1, Y)],
        power: 1,
        limit: 0,
        end: End::GaveUp(0),
    },
    Row {
        shows: "equal hypotheses",
        hyps: &[&[(1, X), (-1, ONE)], &[(1, X), (-1, ONE)]],
        goal: &[(1, Y)],
        power: 1,
        limit: 1,
        end: End::NoneUpTo(1),
    },
    Row {
        shows: "the greatest power",
        hyps: &[&[(1, &[(0, 16)])]],
        goal: &[(1, X)],
        power: 16,
        limit: 1,
        end: End::Proved(16),
    },
    Row {
        shows: "powers up to degree 1,000",
        hyps: &[],
        goal: &[(1, &[(0, 100)])],
        power: 10,
        limit: 0,
        end: End::NoneUpTo(10),
    },
    Row {
        shows: "a power over degree 1,000",
        hyps: &[],
        goal: &[(1, &[(0, 100)])],
        power: 11,
        limit: 0,
        end: End::Degree,
    },
    Row {
        shows: "a power over the norm",
        hyps: &[],
        goal: &[(LARGE, X)],
        power: 2,
        limit: 0,
        end: End::Range,
    },
    Row {
        shows: "a reduction within the norm",
        hyps: &[&[(GREAT, X)]],
        goal: &[(1, X)],
        power: 1,
        limit: 1,
        end: End::Proved(1),
    },
    Row {
        shows: "a reduction over the norm",
        hyps: &[&[(GREATER, X)]],
        goal: &[(1, X)],
        power: 1,
        limit: 1,
        end: End::Range,
    },
    Row {
        shows: "one that is not made",
        hyps: &[&[(GREATER, X)]],
        goal: &[(1, X)],
        power: 1,
        limit: 0,
        end: End::GaveUp(0),
    },
    Row {
        shows: "a pair over degree 1,000",
        hyps: &[
            &[(1, &[(0, 600), (2, 1)]), (-1, ONE)],
            &[(1, &[(1, 600), (2, 1)]), (-1, ONE)],
        ],
        goal: &[(1, X)],
        power: 1,
        limit: 1,
        end: End::Degree,
    },
    Row {
        shows: "one that is not taken",
        hyps: &[
            &[(1, &[(0, 600), (2, 1)]), (-1, ONE)],
            &[(1, &[(1, 600), (2, 1)]), (-1, ONE)],
        ],
        goal: &[(1, X)],
        power: 1,
        limit: 0,
        end: End::GaveUp(0),
    },
];

#[test]
fn searches_end_as_defined(rt: HostRuntime) -> Result<(), Fail> {
    let alloc = rt.alloc();
    for row in ROWS {
        let mut hyps = Vec::new(alloc);
        for &terms in row.hyps {
            hyps.push(poly(&rt, alloc, terms)?)?;
        }
        let goal = poly(&rt, alloc, row.goal)?;
        assert!(rt; hyps.len() < 10 && row.power <= 16 && row.limit <= 1000000);
        let answer = search(alloc, &hyps, &goal, row.power, row.limit);
        assert_eq!(rt; end_of(&answer), row.end, "{}", row.shows);
    }
    Ok(())
}

fn is_line(line: &Line, a: i128, m: Powers, i: u32, b: i128, n: Powers, j: u32, d: i128) -> bool {
    line.a == a
        && line.m.pairs() == m
        && line.i == i
        && line.b == b
        && line.n.pairs() == n
        && line.j == j
        && line.d == d
}

fn is_step(step: &GoalStep, a: i128, b: i128, n: Powers, j: u32, d: i128) -> bool {
    step.a == a && step.b == b && step.n.pairs() == n && step.j == j && step.d == d
}

// u*v = 1 and u*w = 1 give v = w, by the S-polynomial w*L_1 - v*L_2.
#[test]
fn inverses_are_equal(rt: HostRuntime) -> Result<(), Fail> {
    let alloc = rt.alloc();
    let h = poly(&rt, alloc, &[(1, &[(0, 1), (2, 1)]), (-1, ONE)])?;
    let k = poly(&rt, alloc, &[(1, &[(1, 1), (2, 1)]), (-1, ONE)])?;
    let goal = poly(&rt, alloc, &[(1, X), (-1, Y)])?;
    match search(alloc, &[h, k], &goal, 1, 10000)? {
        Verdict::Proved(cert) => {
            let lines = cert.lines.items();
            let steps = cert.steps.items();
            assert_eq!(rt; (lines.len(), steps.len()), (1, 1), "{cert:?}");
            assert!(rt; is_line(&lines[0], 1, Y, 1, 1, X, 2, 1), "{cert:?}");
            assert!(rt; is_step(&steps[0], 1, 1, ONE, 3, 1), "{cert:?}");
        }
        other => assert!(rt; false, "{other:?}"),
    }
    Ok(())
}

// u + t = 0 and u - t = 0 give t = 0 where 2 is not 0: a content, and a negative factor.
#[test]
fn twice_is_divided(rt: HostRuntime) -> Result<(), Fail> {
    let alloc = rt.alloc();
    let p = poly(&rt, alloc, &[(1, Y), (1, X)])?;
    let q = poly(&rt, alloc, &[(1, Y), (-1, X)])?;
    let goal = poly(&rt, alloc, &[(1, X)])?;
    match search(alloc, &[p, q], &goal, 1, 10000)? {
        Verdict::Proved(cert) => {
            let lines = cert.lines.items();
            let steps = cert.steps.items();
            assert_eq!(rt; (lines.len(), steps.len()), (1, 2), "{cert:?}");
            assert!(rt; is_line(&lines[0], 1, ONE, 2, -1, ONE, 1, 2), "{cert:?}");
            assert!(rt; is_step(&steps[0], 1, 1, ONE, 1, 1), "{cert:?}");
            assert!(rt; is_step(&steps[1], 1, -1, ONE, 3, 1), "{cert:?}");
        }
        other => assert!(rt; false, "{other:?}"),
    }
    Ok(())
}

#[test]
fn the_laws_are_called() {
    one_step();
    one_end();
    some_end();
    certificates_are_good();
    certificates_are_within();
    powers_are_sought();
    marks_are_cited();
}
