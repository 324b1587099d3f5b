//! Faults and statements of small texts.

use alg_reader::laws::{one_outcome, statements_are_well_read, statements_may_stand};
use alg_reader::{FileEnd, Place, Raw, RawKind, RawMethod, Span, read_statement};
use alg_terms::{GREATEST_TEXT, Kind};
use alg_tokens::Refusal;
use std::alloc::AllocError;

/// What is read at the front of a text: the bytes of the statement with the head of its first too
/// deep node, or the code and the byte of the fault.
#[derive(Clone, Copy, PartialEq, Eq, Debug)]
pub enum Found {
    Read(u32, u32),
    Deep(u32),
    Fault(u8, u32),
    NoMemory,
}

/// What is read at the front of a text that is not too long.
pub fn read(rt: &HostRuntime, text: &str, place: Place) -> Result<Raw, FileEnd> {
    if text.len() > GREATEST_TEXT {
        return Err(FileEnd::NoMemory);
    }
    read_statement(rt.alloc(), text, 0, place)
}

fn first_found(rt: &HostRuntime, text: &str) -> Found {
    found_at(rt, text, Place::Plain)
}

/// What is found at the front of a text, where this may stand.
pub fn found_at(rt: &HostRuntime, text: &str, place: Place) -> Found {
    match read(rt, text, place) {
        Ok(raw) => {
            let found = match raw.too_deep {
                Some(head) => Found::Deep(head),
                None => Found::Read(raw.start, raw.stop),
            };
            drop(raw);
            found
        }
        Err(FileEnd::Refused(Refusal { code, at })) => Found::Fault(code, at),
        Err(FileEnd::NoMemory) => Found::NoMemory,
    }
}

/// Each row: a text, and the bytes of its first statement or its first fault.
const FIRST: &[(&str, Found)] = &[
    ("", Found::Read(0, 0)),
    (" # all\n", Found::Read(7, 7)),
    ("ring R.", Found::Read(0, 7)),
    (" domain D char 0 . x", Found::Read(1, 18)),
    ("field F char 00.", Found::Read(0, 16)),
    ("hom f : R -> S.", Found::Read(0, 15)),
    ("var x y : R.", Found::Read(0, 12)),
    ("goal (x + y)^2 = -x*f(y) by ring.", Found::Read(0, 33)),
    ("goal x/x = 1 by field.", Found::Read(0, 22)),
    ("goal x = y by field using H.", Found::Fault(4, 20)),
    // no token begins here, and a numeral over the greatest
    ("goal x = $.", Found::Fault(2, 9)),
    ("goal x < y by ring.", Found::Fault(2, 7)),
    (
        "goal x = 170141183460469231731687303715884105727 by ring.",
        Found::Read(0, 57),
    ),
    (
        "goal x = 170141183460469231731687303715884105728.",
        Found::Fault(3, 9),
    ),
    // no statement begins so
    (".", Found::Fault(4, 0)),
    ("ring ring.", Found::Fault(4, 5)),
    ("ring R char 0.", Found::Fault(4, 7)),
    ("domain D char 1.", Found::Fault(4, 14)),
    ("hom f R -> S.", Found::Fault(4, 6)),
    ("hom f : R - > S.", Found::Fault(4, 10)),
    ("hom f : R -> S", Found::Fault(5, 14)),
    ("var : R.", Found::Fault(4, 4)),
    ("goal x = y by.", Found::Fault(4, 13)),
    ("goal x = y = z by ring.", Found::Fault(4, 11)),
    ("goal x^y = z by ring.", Found::Fault(4, 7)),
    ("goal x^2^2 = z by ring.", Found::Fault(4, 8)),
    ("goal x <> y by ring.", Found::Fault(4, 7)),
    ("goal 2x = y by ring.", Found::Fault(4, 6)),
    // the text ends inside a statement
    ("ring R", Found::Fault(5, 6)),
    ("ring R # .", Found::Fault(5, 10)),
    ("hyp", Found::Fault(5, 3)),
    // hypotheses, and goals by nsatz with their options in order
    ("hyp H : x = y.", Found::Read(0, 14)),
    ("hyp H : x <> y.", Found::Read(0, 15)),
    ("hyp H x = y.", Found::Fault(4, 6)),
    ("hyp H : x.", Found::Fault(4, 9)),
    ("hyp H : x = y by ring.", Found::Fault(4, 14)),
    ("goal x = y by nsatz.", Found::Read(0, 20)),
    ("goal x = y by nsatz limit 5.", Found::Read(0, 28)),
    (
        "goal x = y by nsatz using f(g(H)), K power 2 limit 5.",
        Found::Read(0, 53),
    ),
    ("goal x = y by nsatz limit 5 power 2.", Found::Fault(4, 28)),
    ("goal x = y by nsatz using power 2.", Found::Fault(4, 26)),
    ("goal x = y by nsatz using H K.", Found::Fault(4, 28)),
    ("goal x = y by nsatz using f(H.", Found::Fault(4, 29)),
    // of two faults the first
    ("goal x y = $.", Found::Fault(4, 7)),
    ("goal $ y = z.", Found::Fault(2, 5)),
    ("goal x = y by nsatz $", Found::Fault(2, 20)),
    ("goal x = $ by nsatz.", Found::Fault(2, 9)),
    ("goal x y by nsatz.", Found::Fault(4, 7)),
    ("goal x = hyp", Found::Fault(4, 9)),
    ("goal x = hom", Found::Fault(4, 9)),
];

#[test]
fn the_first_statement_or_fault(rt: HostRuntime) {
    for (text, want) in FIRST {
        assert!(rt; first_found(&rt, *text) == *want, "{text}");
    }
}

/// A piece of a text, and how often it stands there one after the other.
pub type Piece = (&'static str, u32);

/// The goal with this equation by ring.
fn goal_of(rt: &HostRuntime, equation: &[Piece]) -> Result<String, AllocError> {
    let mut text = String::new(rt.alloc());
    text.push_str("goal ")?;
    text.push_str(text_of(rt, equation)?.as_str())?;
    text.push_str(" by ring.")?;
    Ok(text)
}

/// The text of these pieces.
pub fn text_of(rt: &HostRuntime, pieces: &[Piece]) -> Result<String, AllocError> {
    let mut text = String::new(rt.alloc());
    for (piece, count) in pieces {
        for _ in 0..*count {
            text.push_str(*piece)?;
        }
    }
    Ok(text)
}

const PARENTHESES: &[(&[Piece], Found)] = &[
    (
        &[("(", 200), ("x", 1), (")", 200), (" = x", 1)],
        Found::Read(0, 419),
    ),
    (
        &[("(", 201), ("x", 1), (")", 201), (" = x", 1)],
        Found::Fault(19, 205),
    ),
    // one open at a time
    (&[("(x)", 201), (" = x", 1)], Found::Fault(4, 8)),
    (&[("(x)*", 201), ("x = x", 1)], Found::Read(0, 823)),
];

#[test]
fn at_most_200_parentheses_are_open(rt: HostRuntime) -> Result<(), AllocError> {
    for (equation, want) in PARENTHESES {
        let text = goal_of(&rt, *equation)?;
        assert!(rt; first_found(&rt, text.as_str()) == *want, "{text}");
    }
    Ok(())
}

/// 1,000 and 1,001 times x, and the last `+`
const SUMS: &[(&[Piece], Found)] = &[
    (&[("x+", 999), ("x = x", 1)], Found::Read(0, 2_017)),
    (&[("x+", 1_000), ("x = x", 1)], Found::Deep(2_004)),
];

#[test]
fn sums_are_at_most_1000_deep(rt: HostRuntime) -> Result<(), AllocError> {
    for (equation, want) in SUMS {
        let text = goal_of(&rt, *equation)?;
        assert!(rt; first_found(&rt, text.as_str()) == *want, "{text}");
    }
    Ok(())
}

const OPPOSITES: &[(&[Piece], Found)] = &[
    (&[("x = ", 1), ("-", 999), ("x", 1)], Found::Read(0, 1_018)),
    (&[("x = ", 1), ("-", 1_000), ("x", 1)], Found::Deep(9)),
    // the first too deep node in postorder is the 1,000th `-` from the right
    (&[("-", 1_200), ("x = x", 1)], Found::Deep(205)),
    // the left side before the right one
    (
        &[("-", 1_000), ("x = ", 1), ("-", 1_000), ("x", 1)],
        Found::Deep(5),
    ),
];

#[test]
fn opposites_are_at_most_1000_deep(rt: HostRuntime) -> Result<(), AllocError> {
    for (equation, want) in OPPOSITES {
        let text = goal_of(&rt, *equation)?;
        assert!(rt; first_found(&rt, text.as_str()) == *want, "{text}");
    }
    Ok(())
}

fn is_at(span: Span, start: u32, stop: u32) -> bool {
    span.start == start && span.stop == stop
}

/// Whether this declares a domain D of characteristic 0.
fn is_domain(kind: &RawKind) -> bool {
    match kind {
        RawKind::Sort { kind, name, char0 } => {
            *kind == Kind::Domain && is_at(*name, 7, 8) && *char0
        }
        _ => false,
    }
}

fn is_morphism(kind: &RawKind) -> bool {
    match kind {
        RawKind::Hom { name, from, to } => {
            is_at(*name, 4, 5) && is_at(*from, 8, 9) && is_at(*to, 13, 14)
        }
        _ => false,
    }
}

fn are_variables(kind: &RawKind) -> bool {
    match kind {
        RawKind::Vars { names, sort } => match names.items() {
            [first, second] => is_at(*first, 4, 5) && is_at(*second, 6, 8) && is_at(*sort, 11, 12),
            _ => false,
        },
        _ => false,
    }
}

/// Whether this is a goal by ring with these heads, relation and place of the method.
fn is_goal(kind: &RawKind, left: u32, relation: u32, right: u32, place: u32) -> bool {
    match kind {
        RawKind::Goal {
            equation,
            method,
            method_at,
        } => {
            equation.left.head == left
                && equation.relation == relation
                && !equation.nonzero
                && equation.right.head == right
                && matches!(method, RawMethod::Ring)
                && *method_at == place
        }
        _ => false,
    }
}

#[test]
fn what_declarations_say(rt: HostRuntime) {
    let says = match read(&rt, "domain D char 0.", Place::Plain) {
        Ok(raw) => {
            let says = is_domain(&raw.kind);
            drop(raw);
            says
        }
        Err(_) => false,
    };
    assert!(rt; says, "a domain of characteristic 0");
    let says = match read(&rt, "hom f : R -> S.", Place::Plain) {
        Ok(raw) => {
            let says = is_morphism(&raw.kind);
            drop(raw);
            says
        }
        Err(_) => false,
    };
    assert!(rt; says, "a morphism with its source and its target");
    let says = match read(&rt, "var x yy : R.", Place::Plain) {
        Ok(raw) => {
            let says = are_variables(&raw.kind);
            drop(raw);
            says
        }
        Err(_) => false,
    };
    assert!(rt; says, "two variables and their sort");
}

/// Each row: a goal, the heads of its sides with the sign between them, and the method's place.
const GOALS: &[(&str, u32, u32, u32, u32)] = &[
    ("goal x - y - z = x*y/z by ring.", 11, 15, 20, 26),
    ("goal x + y*z = -x^2 by ring.", 7, 13, 15, 23),
    ("goal (x + y) = f(x) by ring.", 8, 13, 15, 23),
    ("goal -x - 1 = (-x)^2 by ring.", 8, 12, 18, 24),
];

#[test]
fn what_goals_say(rt: HostRuntime) {
    for (text, left, relation, right, place) in GOALS {
        let says = match read(&rt, *text, Place::Plain) {
            Ok(raw) => {
                let says = is_goal(&raw.kind, *left, *relation, *right, *place);
                drop(raw);
                says
            }
            Err(_) => false,
        };
        assert!(rt; says, "{text}");
    }
}

#[test]
fn the_laws_are_called() {
    statements_are_well_read();
    statements_may_stand();
    one_outcome();
}
