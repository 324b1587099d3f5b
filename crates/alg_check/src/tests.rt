//! Certificates over the hypotheses `2*x` and `3*x` for the goal `x`, good ones and each breach.

use crate::{Cert, CertAnswer, GoalStep, Line, Overrun, Poly, check_cert};
use alg_mono::{Mono, NoMemory};
use alg_terms::Seq;
use std::alloc::Global;
use std::process::Abort;
use std::test::Fail;

// c*x^n
fn multiple(alloc: Global, c: u64, n: u32) -> Result<Poly, Overrun> {
    let power = Poly::atom(alloc, 0)?.power(alloc, n)?;
    Poly::constant(alloc, i128::from(c))?.times(alloc, &power)
}

/// `(a, i, b, j, d)` for the line `(a*L_i - b*L_j)/d`.
type LineRow = (i128, u32, i128, u32, i128);

/// `(a, b, j, d)` for the step `(a*G - b*L_j)/d`.
type StepRow = (i128, i128, u32, i128);

// The lines of these rows.
fn lines(alloc: Global, rows: &[LineRow]) -> Result<Seq<Line>, NoMemory> {
    let mut lines = Vec::new(alloc);
    for &(a, i, b, j, d) in rows {
        let (m, n) = (Mono::one(alloc), Mono::one(alloc));
        lines.push(Line {
            a,
            m,
            i,
            b,
            n,
            j,
            d,
        })?;
    }
    Ok(Seq::from_vec(lines))
}

// The steps of these rows.
fn steps(alloc: Global, rows: &[StepRow]) -> Result<Seq<GoalStep>, NoMemory> {
    let mut steps = Vec::new(alloc);
    for &(a, b, j, d) in rows {
        let n = Mono::one(alloc);
        steps.push(GoalStep { a, b, n, j, d })?;
    }
    Ok(Seq::from_vec(steps))
}

/// A certificate, and what it comes to.
struct Row {
    shows: &'static str,
    power: u32,
    lines: &'static [LineRow],
    steps: &'static [StepRow],
    want: CertAnswer,
}

// x = (3*x - 2*x)/1, which is line 3, and x - x by it.
const GOOD: &[LineRow] = &[(1, 2, 1, 1, 1)];

const LAST: &[StepRow] = &[(1, 1, 3, 1)];

const ROWS: &[Row] = &[
    Row {
        shows: "a line and a step",
        power: 1,
        lines: GOOD,
        steps: LAST,
        want: CertAnswer::Good,
    },
    Row {
        shows: "no lines",
        power: 1,
        lines: &[],
        steps: &[(2, 1, 1, 1)],
        want: CertAnswer::Good,
    },
    Row {
        shows: "a second power",
        power: 2,
        lines: &[],
        steps: &[],
        want: CertAnswer::Bad(1),
    },
    Row {
        shows: "no power",
        power: 0,
        lines: GOOD,
        steps: LAST,
        want: CertAnswer::Bad(0),
    },
    Row {
        shows: "too great a power",
        power: 17,
        lines: GOOD,
        steps: LAST,
        want: CertAnswer::Bad(0),
    },
    Row {
        shows: "a line that cites itself",
        power: 1,
        lines: &[(1, 3, 1, 1, 1)],
        steps: LAST,
        want: CertAnswer::Bad(1),
    },
    Row {
        shows: "a line that cites no line",
        power: 1,
        lines: &[(1, 2, 1, 0, 1)],
        steps: LAST,
        want: CertAnswer::Bad(1),
    },
    Row {
        shows: "a line divided by 0",
        power: 1,
        lines: &[(1, 2, 1, 1, 0)],
        steps: LAST,
        want: CertAnswer::Bad(1),
    },
    Row {
        shows: "a line divided by -1",
        power: 1,
        lines: &[(1, 2, 1, 1, -1)],
        steps: LAST,
        want: CertAnswer::Bad(1),
    },
    Row {
        shows: "a division with a rest",
        power: 1,
        lines: &[(1, 2, 1, 1, 2)],
        steps: LAST,
        want: CertAnswer::Bad(1),
    },
    Row {
        shows: "too great a norm",
        power: 1,
        lines: &[(i128::MAX, 2, 0, 1, 1)],
        steps: LAST,
        want: CertAnswer::Bad(1),
    },
    Row {
        shows: "the least factor",
        power: 1,
        lines: &[(1, 2, i128::MIN, 1, 1)],
        steps: LAST,
        want: CertAnswer::Bad(1),
    },
    Row {
        shows: "the least factor of 0",
        power: 1,
        lines: &[(3, 1, 2, 2, 1), (1, 2, i128::MIN, 3, 1)],
        steps: &[(3, 1, 4, 1)],
        want: CertAnswer::Good,
    },
    Row {
        shows: "a step with the factor 0",
        power: 1,
        lines: GOOD,
        steps: &[(0, 1, 3, 1)],
        want: CertAnswer::Bad(2),
    },
    Row {
        shows: "a step that cites no line",
        power: 1,
        lines: GOOD,
        steps: &[(1, 1, 4, 1)],
        want: CertAnswer::Bad(2),
    },
    Row {
        shows: "a step divided by 0",
        power: 1,
        lines: GOOD,
        steps: &[(1, 1, 3, 0)],
        want: CertAnswer::Bad(2),
    },
    Row {
        shows: "a last remainder",
        power: 1,
        lines: GOOD,
        steps: &[(1, 0, 3, 1)],
        want: CertAnswer::Bad(3),
    },
    Row {
        shows: "no steps",
        power: 1,
        lines: GOOD,
        steps: &[],
        want: CertAnswer::Bad(2),
    },
];

// What the certificate of a row comes to, over the hypotheses 2*x and 3*x for the goal x.
fn answer_to(rt: &impl Abort, alloc: Global, row: &Row) -> Result<CertAnswer, Overrun> {
    let hyps: &[Poly] = &[multiple(alloc, 2, 1)?, multiple(alloc, 3, 1)?];
    let goal = multiple(alloc, 1, 1)?;
    let lines = lines(alloc, row.lines)?;
    let steps = steps(alloc, row.steps)?;
    let cert = Cert {
        power: row.power,
        lines,
        steps,
    };
    assert!(rt; hyps.len() < 9);
    assert!(rt; cert.lines.items().len() < 9);
    assert!(rt; cert.steps.items().len() < 9);
    let answer = check_cert(alloc, hyps, &goal, &cert);
    drop(cert);
    drop(goal);
    answer
}

#[test]
fn a_certificate_is_good_or_has_its_first_breach(rt: HostRuntime) -> Result<(), Fail> {
    for row in ROWS {
        let answer = answer_to(&rt, rt.alloc(), row)?;
        assert_eq!(rt; answer, row.want, "{}", row.shows);
    }
    Ok(())
}

/// Each row: c, n and a power, and what no lines and no steps come to for the goal c*x^n.
const POWERS: &[(u64, u32, u32, Result<CertAnswer, Overrun>)] = &[
    (1 << 62, 1, 2, Ok(CertAnswer::Bad(1))),
    (1 << 62, 1, 3, Err(Overrun::Range)),
    (1 << 62, 900, 3, Err(Overrun::Range)),
    (1, 501, 2, Err(Overrun::Degree)),
    (1, 501, 17, Ok(CertAnswer::Bad(0))),
];

#[test]
fn a_power_of_the_goal_keeps_the_limits(rt: HostRuntime) -> Result<(), Fail> {
    let alloc = rt.alloc();
    for (c, n, power, want) in POWERS {
        let goal = multiple(alloc, *c, *n)?;
        let cert = Cert {
            power: *power,
            lines: Seq::from_vec(Vec::new(alloc)),
            steps: Seq::from_vec(Vec::new(alloc)),
        };
        let answer = check_cert(alloc, &[], &goal, &cert);
        assert_eq!(rt; answer, *want, "{c}*x^{n} to {power}");
        drop(cert);
        drop(goal);
    }
    Ok(())
}
