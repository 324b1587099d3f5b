//! Reports on answers to the two goals of a small file.

ghost use Rattle.std.specs.Prelude.{◌≡◌, ◌+◌, ◌<◌, IfOk, IfSome, length};
ghost use Rattle.alg_check.specs.Answers.{HasNoCertificate};

use crate::goal::{cert_report, report, stop_report};
use crate::laws::{one_acceptance, one_report, proved_is_right};
use crate::preparing::Prepared;
use crate::small_file::small_file;
use crate::{Answer, Cert, GoalCheck, GoalStep, NoMemory, Poly, check_goal};
use alg_mono::{Mono, MonoEnd};
use alg_reify::Stop;
use alg_terms::{Seq, Term};
use alg_universe::Ints;
use std::alloc::Global;
use std::test::Fail;

// The report on an answer without a certificate to the goal by field.
fn field_report(alloc: Global, answer: Option<&Answer>) -> Result<GoalCheck, NoMemory>
    requires { IfSome answer (λ a. HasNoCertificate a.now) }
{
    let file = small_file(alloc)?;
    let report = check_goal(alloc, &file, 0, answer);
    drop(file);
    report
}

// The report on constants and a certificate for the goal by nsatz.
fn nsatz_report(alloc: Global, constants: Seq<i128>, cert: Cert) -> Result<GoalCheck, NoMemory>
    requires { length cert.lines + length cert.steps < 9 }
{
    let file = small_file(alloc)?;
    let answer = Answer::Certified { constants, cert };
    let report = check_goal(alloc, &file, 1, Some(&answer));
    drop(answer);
    drop(file);
    report
}

fn no(alloc: Global, n: u32, left: i128, right: i128) -> Result<Answer, MonoEnd>
    ensures { IfOk result HasNoCertificate }
{
    let at = Mono::from_pairs(alloc, &[(0, n)])?;
    Ok(Answer::No { at, left, right })
}

/// Each row: the exponent of y and the coefficients of an answer no, and the report on it. 1/y and y
/// have the numerators 1 and y^2 over y.
const NO: &[(u32, i128, i128, GoalCheck)] = &[
    (2, 0, 1, GoalCheck::OkOther),
    (2, 0, 2, GoalCheck::Bad { at: 0 }),
    (2, 1, 0, GoalCheck::Bad { at: 0 }),
    (1, 0, 1, GoalCheck::Bad { at: 0 }),
];

#[test]
fn a_goal_by_field_is_decided_anew(rt: HostRuntime) -> Result<(), Fail> {
    let alloc = rt.alloc();
    for (n, left, right, want) in NO {
        let answer = no(alloc, *n, *left, *right)?;
        let report = field_report(alloc, Some(&answer))?;
        assert_eq!(rt; report, *want, "no at y^{n} : {left} and {right}");
        drop(answer);
    }
    let proved = Answer::Proved {
        conditions: Seq::from_vec(Vec::new(alloc)),
    };
    let report = field_report(alloc, Some(&proved))?;
    assert_eq!(rt; report, GoalCheck::Bad { at: 0 }, "proved");
    drop(proved);
    let report = field_report(alloc, None)?;
    assert_eq!(rt; report, GoalCheck::Unchecked, "no answer");
    Ok(())
}

// The steps (a*G - b*L_1)/d.
fn cert(alloc: Global, power: u32, a: i128, b: i128, d: i128) -> Result<Cert, NoMemory>
    ensures { IfOk result (λ cert. length cert.lines + length cert.steps < 9) }
{
    let n = Mono::one(alloc);
    let mut steps = Vec::new(alloc);
    steps.push(GoalStep { a, b, n, j: 1, d })?;
    Ok(Cert {
        power,
        lines: Seq::from_vec(Vec::new(alloc)),
        steps: Seq::from_vec(steps),
    })
}

/// The goal's difference is that of its hypothesis. Each row: the printed constants, and a power and
/// a, b and d of one step.
const CERTIFICATES: &[(&str, &[i128], u32, i128, i128, i128, GoalCheck)] = &[
    ("a proof", &[], 1, 1, 1, 1, GoalCheck::OkProved),
    ("with a factor", &[2], 1, 2, 2, 1, GoalCheck::OkProved),
    (
        "a constant is missing",
        &[],
        1,
        2,
        2,
        1,
        GoalCheck::Bad { at: 0 },
    ),
    (
        "one is too many",
        &[2, 3],
        1,
        2,
        2,
        1,
        GoalCheck::Bad { at: 0 },
    ),
    ("no power", &[], 0, 1, 1, 1, GoalCheck::Bad { at: 0 }),
    (
        "a power above the goal's",
        &[],
        2,
        1,
        1,
        1,
        GoalCheck::Bad { at: 0 },
    ),
    ("a remainder", &[], 1, 2, 1, 1, GoalCheck::Bad { at: 2 }),
    ("a bad step", &[], 1, 1, 1, 0, GoalCheck::Bad { at: 1 }),
];

#[test]
fn a_certificate_is_tried_with_its_constants(rt: HostRuntime) -> Result<(), Fail> {
    let alloc = rt.alloc();
    for (shown, constants, power, a, b, d, want) in CERTIFICATES {
        let constants = Seq::from_vec(Vec::from_slice(alloc, *constants)?);
        let cert = cert(alloc, *power, *a, *b, *d)?;
        let report = nsatz_report(alloc, constants, cert)?;
        assert_eq!(rt; report, *want, "{shown}");
    }
    Ok(())
}

// A polynomial 2^62*x^n to the third power, and no table.
#[test]
fn what_breaks_a_rule_is_reported(rt: HostRuntime) -> Result<(), Fail> {
    let alloc = rt.alloc();
    for (n, want) in [(1, GoalCheck::Range), (900, GoalCheck::Range)] {
        let power = Poly::atom(alloc, 0)?.power(alloc, n)?;
        let prepared = Prepared {
            hyps: Vec::new(alloc),
            goal: Poly::constant(alloc, 1 << 62)?.times(alloc, &power)?,
        };
        let cert = cert(alloc, 3, 1, 1, 1)?;
        let report = cert_report(alloc, &prepared, &[], &cert, true)?;
        assert_eq!(rt; report, want, "x^{n}");
        drop(cert);
        drop(prepared);
    }
    for (stop, want) in [
        (Stop::Atoms, GoalCheck::Atoms),
        (Stop::Range, GoalCheck::Range),
        (Stop::Degree, GoalCheck::Degree),
    ] {
        assert_eq!(rt; stop_report(stop)?, want, "{stop:?}");
    }
    Ok(())
}

fn proved(alloc: Global, conditions: &[u32]) -> Result<Answer, NoMemory>
    ensures { IfOk result HasNoCertificate }
{
    let mut terms = Seq::from_vec(Vec::new(alloc));
    for variable in conditions {
        terms.push(Term::Var(*variable))?;
    }
    Ok(Answer::Proved { conditions: terms })
}

/// Each row: the variables that are conditions of the goal's own answer, those of one that is given,
/// and the report.
const COMPARED: &[(&[u32], &[u32], GoalCheck)] = &[
    (&[], &[], GoalCheck::OkProved),
    (&[0, 1], &[0, 1], GoalCheck::OkProved),
    (&[0, 1], &[0], GoalCheck::Bad { at: 0 }),
    (&[0], &[0, 1], GoalCheck::Bad { at: 0 }),
    (&[0, 1], &[1, 0], GoalCheck::Bad { at: 0 }),
];

#[test]
fn answers_are_compared_as_values(rt: HostRuntime) -> Result<(), Fail> {
    let alloc = rt.alloc();
    for (own, given, want) in COMPARED {
        let own_answer = proved(alloc, *own)?;
        let given_answer = proved(alloc, *given)?;
        let told = report(&own_answer, &given_answer);
        assert_eq!(rt; told, *want, "{own:?} and {given:?}");
        drop(own_answer);
        drop(given_answer);
    }
    assert_eq!(rt; report(&Answer::Range, &Answer::Range), GoalCheck::OkOther);
    assert_eq!(rt;
        report(&Answer::Range, &Answer::Degree),
        GoalCheck::Bad { at: 0 }
    );
    Ok(())
}

#[test]
fn the_laws_are_called() {
    one_acceptance();
    one_report();
    proved_is_right::<Ints>();
}
