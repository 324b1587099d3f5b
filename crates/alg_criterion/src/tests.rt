//! Searches that are sure that there is no certificate.

use crate::laws::{leads_divide, lines_are_combinations, none_exists, pairs_are_below};
use crate::{Overrun, Poly, Verdict, search_sure};
use alg_mono::Mono;
use std::alloc::Global;
use std::process::Abort;
use std::test::Fail;

/// A polynomial: coefficients with monomials, which are atoms with their exponents.
type Terms = &'static [(i128, &'static [(u32, u32)])];

/// The sum of coefficients times monomials.
fn poly(rt: &impl Abort, alloc: Global, terms: Terms) -> Result<Poly, Fail> {
    let mut sum = Poly::zero(alloc);
    for &(c, pairs) in terms {
        assert!(rt; c != i128::MIN);
        let mono = Mono::from_pairs(alloc, pairs)?;
        let term = Poly::constant(alloc, 1)?.scale(alloc, c, &mono)?;
        sum = sum.add(alloc, &term)?;
    }
    Ok(sum)
}

struct Row {
    shows: &'static str,
    hyps: &'static [Terms],
    goal: Terms,
    power: u32,
}

const ROWS: &[Row] = &[
    Row {
        shows: "x, of no hypotheses",
        hyps: &[],
        goal: &[(1, &[(0, 1)])],
        power: 3,
    },
    Row {
        shows: "x*y - 1, of x^2 - 1 and y^2 - 1",
        hyps: &[&[(1, &[(0, 2)]), (-1, &[])], &[(1, &[(1, 2)]), (-1, &[])]],
        goal: &[(1, &[(0, 1), (1, 1)]), (-1, &[])],
        power: 1,
    },
];

fn none_up_to(answer: &Result<Verdict, Overrun>) -> Option<u32> {
    match answer {
        Ok(Verdict::NoneUpTo(power)) => Some(*power),
        _ => None,
    }
}

#[test]
fn none_without_a_move(rt: HostRuntime) -> Result<(), Fail> {
    let alloc = rt.alloc();
    for row in ROWS {
        let mut hyps = Vec::new(alloc);
        for &terms in row.hyps {
            hyps.push(poly(&rt, alloc, terms)?)?;
        }
        let goal = poly(&rt, alloc, row.goal)?;
        assert!(rt; hyps.len() < 10 && row.power <= 16);
        let answer = search_sure(alloc, &hyps, &goal, row.power, 0);
        assert_eq!(rt; none_up_to(&answer), Some(row.power), "{}", row.shows);
    }
    Ok(())
}

#[test]
fn the_laws_are_called() {
    lines_are_combinations();
    pairs_are_below();
    leads_divide();
    none_exists();
}
