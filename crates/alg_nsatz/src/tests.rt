//! Products of polynomials, and tasks made by hand with what is found for them.

use crate::decide::answer;
use crate::laws::{
    certificates, one_nsatz_verdict, proved_is_accepted, proved_is_right, proved_is_within,
};
use crate::preparing::Task;
use crate::product::product;
use crate::{NsatzAnswer, Poly};
use alg_reify::{Mono, Overrun};
use alg_terms::Seq;
use alg_universe::Ints;
use std::alloc::Global;
use std::process::Abort;
use std::test::Fail;

// A polynomial as its terms: each a coefficient with atoms and their exponents.
type Terms = &'static [(i128, &'static [(u32, u32)])];

const X: Terms = &[(1, &[(0, 1)])];

const Y: Terms = &[(1, &[(1, 1)])];

fn poly(rt: &impl Abort, alloc: Global, terms: &[(i128, &[(u32, u32)])]) -> Result<Poly, Fail> {
    let mut sum = Poly::zero(alloc);
    for &(c, pairs) in terms {
        assert!(rt; c != i128::MIN);
        let mono = Mono::from_pairs(alloc, pairs)?;
        let term = Poly::constant(alloc, 1)?.scale(alloc, c, &mono)?;
        sum = sum.add(alloc, &term)?;
    }
    Ok(sum)
}

/// What is found for a task: of a proof its power, how many lines and steps it has, and its constant.
#[derive(Clone, Copy, Debug, PartialEq, Eq)]
enum Told {
    Proved(u32, usize, usize, Option<i128>),
    NoneUpTo(u32),
    GaveUp(u32),
}

fn tell(answer: &NsatzAnswer) -> Told {
    match answer {
        NsatzAnswer::Proved { constants, cert } => Told::Proved(
            cert.power,
            cert.lines.items().len(),
            cert.steps.items().len(),
            constants.items().first().copied(),
        ),
        NsatzAnswer::NoneUpTo(power) => Told::NoneUpTo(*power),
        NsatzAnswer::GaveUp(moves) => Told::GaveUp(*moves),
    }
}

fn task(
    rt: &impl Abort,
    alloc: Global,
    hyps: &[Terms],
    goal: Terms,
    power: u32,
    limit: u32,
) -> Result<Task, Fail> {
    let mut polys = Vec::new(alloc);
    for terms in hyps {
        polys.push(poly(rt, alloc, terms)?)?;
    }
    Ok(Task {
        atoms: 2,
        hyps: Seq::from_vec(polys),
        goal: poly(rt, alloc, goal)?,
        power,
        limit,
    })
}

const PRODUCTS: &[(Terms, Terms, Result<u32, Overrun>)] = &[
    (&[(1, &[(0, 999)])], Y, Ok(1000)),
    (&[(1, &[(0, 1000)])], Y, Err(Overrun::Degree)),
    (
        &[(1 << 126, &[(0, 1000)])],
        &[(2, &[(1, 1)])],
        Err(Overrun::Range),
    ),
    (&[(1 << 126, &[(0, 1000)])], &[], Ok(0)),
];

// Each row: a factor, another, and the degree of their product or what it breaks.
#[test]
fn a_product_is_bounded_as_one(rt: HostRuntime) -> Result<(), Fail> {
    for (first, second, want) in PRODUCTS {
        let mut rest = Vec::new(rt.alloc());
        rest.push(poly(&rt, rt.alloc(), second)?)?;
        let made = product(rt.alloc(), poly(&rt, rt.alloc(), first)?, &rest);
        assert_eq!(rt; made.map(|p| p.degree()), *want);
    }
    Ok(())
}

const TASKS: &[(&[Terms], Terms, u32, u32, bool, Told)] = &[
    (
        &[&[(1, &[(0, 2)])]],
        X,
        2,
        9,
        false,
        Told::Proved(2, 0, 1, None),
    ),
    (&[&[(1, &[(0, 2)])]], X, 1, 9, false, Told::NoneUpTo(1)),
    (
        &[&[(2, &[(0, 1)])]],
        X,
        1,
        9,
        false,
        Told::Proved(1, 0, 1, Some(2)),
    ),
    (
        &[&[(2, &[(0, 1)])]],
        X,
        1,
        9,
        true,
        Told::Proved(1, 0, 1, None),
    ),
    (&[&[(2, &[(0, 1)])]], X, 1, 0, false, Told::GaveUp(0)),
    (&[], X, 1, 9, false, Told::NoneUpTo(1)),
    (
        &[
            &[(1, &[(0, 1)]), (1, &[(1, 1)])],
            &[(-1, &[(0, 1)]), (1, &[(1, 1)])],
        ],
        X,
        1,
        99,
        false,
        Told::Proved(1, 1, 2, Some(2)),
    ),
];

// Each row: polynomials that are zero, one that is to be, a power, a limit, whether the characteristic is 0,
// and what is found. Atoms are numbered as in a table: that of the goal first.
#[test]
fn a_certificate_has_the_constants_that_it_divides_by(rt: HostRuntime) -> Result<(), Fail> {
    for (hyps, goal, power, limit, char0, want) in TASKS {
        let task = task(&rt, rt.alloc(), hyps, goal, *power, *limit)?;
        assert!(rt; task.hyps.items().len() < 9 && task.power <= 16 && task.limit <= 1000000);
        match answer(rt.alloc(), &task, *char0) {
            Ok(found) => assert_eq!(rt; tell(&found), *want),
            Err(end) => assert_eq!(rt; end, Overrun::NoMemory),
        }
    }
    Ok(())
}

#[test]
fn the_laws_are_called() {
    one_nsatz_verdict();
    proved_is_within();
    certificates::<Ints>();
    proved_is_right::<Ints>();
    proved_is_accepted();
}
