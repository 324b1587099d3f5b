//! What stands at each place of small texts.

use crate::statements::{Found, Piece, found_at, read, text_of};
use alg_reader::{Place, RawAnswer, RawFactor, RawKind, RawMono, RawNumber};
use std::alloc::AllocError;

/// Each row: a place, a text, and the bytes of its first statement or its first fault.
const PLACES: &[(Place, &str, Found)] = &[
    // where there are no answers
    (Place::Plain, "ring R.", Found::Read(0, 7)),
    (Place::Plain, "proved.", Found::Fault(4, 0)),
    (
        Place::Plain,
        "line 1, w, 1 minus 1, v, 2 over 1.",
        Found::Fault(4, 0),
    ),
    (Place::Start, "goal x = y by ring.", Found::Read(0, 19)),
    (Place::Start, "proved.", Found::Fault(4, 0)),
    (
        Place::Start,
        "step 1 minus 1, 1, 1 over 1.",
        Found::Fault(4, 0),
    ),
    // behind a goal
    (Place::AfterGoal, "goal x = y by ring.", Found::Read(0, 19)),
    (Place::AfterGoal, "proved.", Found::Read(0, 7)),
    (
        Place::AfterGoal,
        "proved if a <> 0, b <> 0, a*b <> 0.",
        Found::Read(0, 35),
    ),
    (Place::AfterGoal, "proved power 2.", Found::Read(0, 15)),
    (
        Place::AfterGoal,
        "proved power 1 if 2 <> 0, 3 <> 0.",
        Found::Read(0, 33),
    ),
    (
        Place::AfterGoal,
        "proved version 2 power 1.",
        Found::Read(0, 25),
    ),
    (
        Place::AfterGoal,
        "proved version 7 power 1.",
        Found::Read(0, 25),
    ),
    (Place::AfterGoal, "no at x*y : 2 and 0.", Found::Read(0, 20)),
    (
        Place::AfterGoal,
        "no at f(g(x))^2 : 1 and -1.",
        Found::Read(0, 27),
    ),
    (Place::AfterGoal, "no at 1 : 1 and 0.", Found::Read(0, 18)),
    (
        Place::AfterGoal,
        "zero denominator x - x.",
        Found::Read(0, 23),
    ),
    (Place::AfterGoal, "none up to power 1.", Found::Read(0, 19)),
    (Place::AfterGoal, "gave up after 0.", Found::Read(0, 16)),
    (Place::AfterGoal, "range.", Found::Read(0, 6)),
    (Place::AfterGoal, "degree.", Found::Read(0, 7)),
    (Place::AfterGoal, "atoms.", Found::Read(0, 6)),
    // no answer begins so
    (Place::AfterGoal, "proved if.", Found::Fault(4, 9)),
    (Place::AfterGoal, "proved if x <> 1.", Found::Fault(4, 15)),
    (Place::AfterGoal, "proved if x = 0.", Found::Fault(4, 12)),
    (Place::AfterGoal, "proved power.", Found::Fault(4, 12)),
    (
        Place::AfterGoal,
        "proved power 1 if x <> 0.",
        Found::Fault(4, 18),
    ),
    (Place::AfterGoal, "proved version 2.", Found::Fault(4, 16)),
    (Place::AfterGoal, "no at 2 : 1 and 0.", Found::Fault(4, 6)),
    (
        Place::AfterGoal,
        "no at f(x*y) : 1 and 0.",
        Found::Fault(4, 9),
    ),
    (
        Place::AfterGoal,
        "no at f(x^2) : 1 and 0.",
        Found::Fault(4, 9),
    ),
    (Place::AfterGoal, "no at x : x and 0.", Found::Fault(4, 10)),
    (Place::AfterGoal, "zero denominator.", Found::Fault(4, 16)),
    (Place::AfterGoal, "gave up after.", Found::Fault(4, 13)),
    (Place::AfterGoal, "range degree.", Found::Fault(4, 6)),
    (Place::AfterGoal, "no at x : 1 and 0", Found::Fault(5, 17)),
    (
        Place::AfterGoal,
        "line 1, w, 1 minus 1, v, 2 over 1.",
        Found::Fault(4, 0),
    ),
    (
        Place::AfterGoal,
        "step 1 minus 1, 1, 1 over 1.",
        Found::Fault(4, 0),
    ),
    // among lines and steps of the first format
    (
        Place::Lines,
        "line 1, w, 1 minus 1, v, 2 over 1.",
        Found::Read(0, 34),
    ),
    (
        Place::Lines,
        "line 1, 1, 2 minus -1, 1, 1 over 2.",
        Found::Read(0, 35),
    ),
    (
        Place::Lines,
        "step 1 minus -1, f(a), 1 over 1.",
        Found::Read(0, 32),
    ),
    (Place::Lines, "var x : R.", Found::Read(0, 10)),
    (
        Place::Lines,
        "line 1, 2 minus -1, 1 over 2.",
        Found::Fault(4, 8),
    ),
    (Place::Lines, "step 1 minus 1, 3.", Found::Fault(4, 16)),
    (Place::Lines, "step 1 minus 1, 1, 3.", Found::Fault(4, 20)),
    (Place::Lines, "proved.", Found::Fault(4, 0)),
    (
        Place::Steps,
        "step 1 minus 1, 1, 1 over 1.",
        Found::Read(0, 28),
    ),
    (
        Place::Steps,
        "line 1, 1, 2 minus -1, 1, 1 over 2.",
        Found::Fault(4, 0),
    ),
    // of the second format
    (
        Place::LinesTwo,
        "line 1, 2 minus -1, 1 over 2.",
        Found::Read(0, 29),
    ),
    (
        Place::LinesTwo,
        "line 1, w, 1 minus 1, v, 2.",
        Found::Read(0, 27),
    ),
    (
        Place::LinesTwo,
        "line 1, 1 minus 1, v, 2.",
        Found::Read(0, 24),
    ),
    (Place::LinesTwo, "step 1 minus 1, 3.", Found::Read(0, 18)),
    (
        Place::LinesTwo,
        "step 1 minus 1, f(a), 1.",
        Found::Read(0, 24),
    ),
    (
        Place::LinesTwo,
        "line 1, 1, 2 minus -1, 1 over 2.",
        Found::Fault(4, 9),
    ),
    (
        Place::LinesTwo,
        "step 1 minus 1, 1, 3.",
        Found::Fault(4, 17),
    ),
    (Place::StepsTwo, "step 1 minus 1, 3.", Found::Read(0, 18)),
    (
        Place::StepsTwo,
        "line 1, 2 minus -1, 1 over 2.",
        Found::Fault(4, 0),
    ),
];

#[test]
fn what_may_stand_at_each_place(rt: HostRuntime) {
    for (place, text, want) in PLACES {
        assert!(rt; found_at(&rt, *text, *place) == *want, "{text}");
    }
}

const DEEP: &[(&[Piece], Found)] = &[
    (
        &[("proved if ", 1), ("-", 999), ("x <> 0.", 1)],
        Found::Read(0, 1_016),
    ),
    (
        &[("proved if ", 1), ("-", 1_000), ("x <> 0.", 1)],
        Found::Deep(10),
    ),
    // of two conditions the first
    (
        &[
            ("proved if ", 1),
            ("-", 1_000),
            ("x <> 0, ", 1),
            ("-", 1_000),
            ("x <> 0.", 1),
        ],
        Found::Deep(10),
    ),
    (
        &[("zero denominator ", 1), ("-", 1_000), ("x.", 1)],
        Found::Deep(17),
    ),
];

#[test]
fn terms_of_answers_are_at_most_1000_deep(rt: HostRuntime) -> Result<(), AllocError> {
    for (pieces, want) in DEEP {
        let text = text_of(&rt, *pieces)?;
        assert!(rt;
            found_at(&rt, text.as_str(), Place::AfterGoal) == *want,
            "{text}"
        );
    }
    Ok(())
}

fn is_number(number: &RawNumber, value: i128, at: u32) -> bool {
    number.value == value && number.at == at
}

/// Whether this is the monomial 1 at a byte.
fn is_one(mono: &RawMono, at: u32) -> bool {
    mono.start == at && mono.factors.is_empty()
}

/// Whether this is one factor, a morphism at a byte on a variable at another, with an exponent.
fn is_image(mono: &RawMono, hom: u32, var: u32, exponent: i128) -> bool {
    match mono.factors.as_slice() {
        [
            RawFactor {
                name,
                of: Some(of),
                exponent: Some(number),
            },
        ] => {
            mono.start == hom
                && name.start == hom
                && number.value == exponent
                && is_variable(of, var)
        }
        _ => false,
    }
}

/// Whether this is one variable at a byte, without exponent.
fn is_variable(mono: &RawMono, var: u32) -> bool {
    match mono.factors.as_slice() {
        [
            RawFactor {
                name,
                of: None,
                exponent: None,
            },
        ] => mono.start == var && name.start == var,
        _ => false,
    }
}

/// Whether this is the answer no at the third power of an image, with the coefficients 12 and -7.
fn is_no(kind: &RawKind) -> bool {
    match kind {
        RawKind::Answer(RawAnswer::No { at, left, right }) => {
            is_image(at, 6, 8, 3) && is_number(left, 12, 15) && is_number(right, -7, 22)
        }
        _ => false,
    }
}

/// Whether this is a certificate of version 2, of the power 3, with the one constant 5.
fn is_certified(kind: &RawKind) -> bool {
    match kind {
        RawKind::Answer(
            RawAnswer::Certified {
                version: Some(version),
                power,
                constants,
            },
        ) => match constants.items() {
            [constant] => {
                is_number(version, 2, 15) && is_number(power, 3, 23) && is_number(constant, 5, 28)
            }
            _ => false,
        },
        _ => false,
    }
}

/// Whether this is a line whose first monomial and divisor are left out, each 1 at the first byte.
fn is_short_line(kind: &RawKind) -> bool {
    match kind {
        RawKind::Line {
            a,
            m,
            i,
            b,
            n,
            j,
            d,
        } => {
            is_number(a, 1, 5)
                && is_one(m, 0)
                && is_number(i, 2, 8)
                && is_number(b, -3, 16)
                && is_variable(n, 20)
                && is_number(j, 4, 23)
                && is_number(d, 1, 0)
        }
        _ => false,
    }
}

/// Whether this is a step with all its parts.
fn is_step(kind: &RawKind) -> bool {
    match kind {
        RawKind::Step { a, b, n, j, d } => {
            is_number(a, 5, 5)
                && is_number(b, 6, 13)
                && is_one(n, 16)
                && is_number(j, 7, 19)
                && is_number(d, 8, 26)
        }
        _ => false,
    }
}

#[test]
fn what_answers_say(rt: HostRuntime) {
    let says = match read(&rt, "no at f(x)^3 : 12 and -7.", Place::AfterGoal) {
        Ok(raw) => {
            let says = is_no(&raw.kind);
            drop(raw);
            says
        }
        Err(_) => false,
    };
    assert!(rt; says, "a monomial with two coefficients");
    let says = match read(&rt, "proved version 2 power 3 if 5 <> 0.", Place::AfterGoal) {
        Ok(raw) => {
            let says = is_certified(&raw.kind);
            drop(raw);
            says
        }
        Err(_) => false,
    };
    assert!(rt; says, "a version, a power and a constant");
}

#[test]
fn what_lines_say(rt: HostRuntime) {
    let says = match read(&rt, "line 1, 2 minus -3, x, 4.", Place::LinesTwo) {
        Ok(raw) => {
            let says = is_short_line(&raw.kind);
            drop(raw);
            says
        }
        Err(_) => false,
    };
    assert!(rt; says, "what is left out is 1, at the first byte");
    let says = match read(&rt, "step 5 minus 6, 1, 7 over 8.", Place::Lines) {
        Ok(raw) => {
            let says = is_step(&raw.kind);
            drop(raw);
            says
        }
        Err(_) => false,
    };
    assert!(rt; says, "a step of the first format");
}
