//! Certificates in both formats, and files with one that is spoilt.

use super::{Found, ONE_ANSWER, certificate, what_is_behind, what_is_found};

/// A goal by nsatz with the atoms x and y, and the beginning of an answer in the second format.
const FORMAT_TWO: &str =
    "domain D. var x y : D. hyp P : x + y = 0. goal x = 0 by nsatz using P. proved version 2 power 1. ";

/// The same in the first format.
const FORMAT_ONE: &str =
    "domain D. var x y : D. hyp P : x + y = 0. goal x = 0 by nsatz using P. proved power 1. ";

#[test]
fn lines_and_steps_of_the_first_format(rt: HostRuntime) {
    // Each row: what stands behind the answer, and what it is.
    for (behind, want) in [
        ("", ONE_ANSWER),
        ("line 1, 1, 2 minus -1, x*y, 1 over 2.", certificate(1, 0)),
        (
            "line 1, x, 2 minus 1, y, 1 over 1. line 1, 1, 3 minus 0, 1, 1 over 1. step 1 minus 1, x, 3 over 1.",
            certificate(2, 1),
        ),
        (
            "step 1 minus 1, 1, 1 over 1. step 1 minus 1, 1, 1 over 1.",
            certificate(0, 2),
        ),
        // a step ends the lines, and a declaration all of them
        (
            "step 1 minus 1, 1, 1 over 1. line 1, 1, 2 minus 1, 1, 1 over 1.",
            Found::Fault(4, 29),
        ),
        (
            "var z : D. step 1 minus 1, 1, 1 over 1.",
            Found::Fault(4, 11),
        ),
        // lines and steps of the second format
        ("line 1, 2 minus 1, 1.", Found::Fault(4, 8)),
        ("step 1 minus 1, 1.", Found::Fault(4, 17)),
        // line numbers
        (
            "line 1, 1, 4294967295 minus 1, 1, 4294967295 over 1.",
            certificate(1, 0),
        ),
        (
            "line 1, 1, 4294967296 minus 1, 1, 1 over 1.",
            Found::Fault(18, 11),
        ),
        (
            "line 1, 1, 1 minus 1, 1, 4294967296 over 1.",
            Found::Fault(18, 25),
        ),
        (
            "step 1 minus 1, 1, 4294967296 over 1.",
            Found::Fault(18, 19),
        ),
        // monomials: names first, then the fault at the least byte
        (
            "line 1, y^1001, 1 minus 1, z, 1 over 1.",
            Found::Fault(7, 27),
        ),
        (
            "line 1, y^1001, 4294967296 minus 1, 1, 1 over 1.",
            Found::Fault(18, 8),
        ),
        (
            "line 1, x, 4294967296 minus 1, y^1001, 1 over 1.",
            Found::Fault(18, 11),
        ),
        (
            "step 1 minus 1, x*y^1000, 4294967296 over 1.",
            Found::Fault(18, 16),
        ),
    ] {
        assert!(rt;
            what_is_behind(rt.alloc(), FORMAT_ONE, behind) == want,
            "{behind}"
        );
    }
}

#[test]
fn lines_and_steps_of_the_second_format(rt: HostRuntime) {
    // Each row: what stands behind the answer, and what it is.
    for (behind, want) in [
        ("", ONE_ANSWER),
        ("line 1, 2 minus -1, 1 over 2.", certificate(1, 0)),
        (
            "line 1, x, 2 minus 1, y, 1. step 1 minus 1, 3.",
            certificate(1, 1),
        ),
        (
            "step 1 minus 1, x*y, 1. step 1 minus 1, 1 over 1.",
            certificate(0, 2),
        ),
        (
            "step 1 minus 1, 1. line 1, 2 minus -1, 1.",
            Found::Fault(4, 19),
        ),
        // lines and steps of the first format
        ("line 1, 1, 2 minus -1, 1 over 2.", Found::Fault(4, 9)),
        ("step 1 minus 1, 1, 1 over 1.", Found::Fault(4, 17)),
        // faults of lines and steps
        ("line 1, 4294967296 minus -1, 1.", Found::Fault(18, 8)),
        ("step 1 minus 1, x*y^1000, 1.", Found::Fault(18, 16)),
        ("step 1 minus 1, z, 4294967296.", Found::Fault(7, 16)),
    ] {
        assert!(rt;
            what_is_behind(rt.alloc(), FORMAT_TWO, behind) == want,
            "{behind}"
        );
    }
}

/// A certificate without a line.
const STEP_ALONE: &str = "domain D.\nvar x y : D.\nhyp H : 2*x = 0.\n\
    goal x = 0 by nsatz using H power 1 limit 10000.\n";

#[test]
fn certificates_that_are_read_though_they_are_bad(rt: HostRuntime) {
    for behind in [
        "  proved power 1 if 2 <> 0.\n  step 2 minus 1, 1, 1 over 1.\n",
        "  proved power 1 if 2 <> 0.\n  step 3 minus 1, 1, 1 over 1.\n",
        "  proved power 1 if 2 <> 0.\n  step 2 minus 1, 1, 2 over 1.\n",
        "  proved power 1.\n  step 2 minus 1, 1, 1 over 1.\n",
    ] {
        assert!(rt;
            what_is_behind(rt.alloc(), STEP_ALONE, behind) == certificate(0, 1),
            "{behind}"
        );
    }
}

/// A certificate with a line and two steps.
const CERTIFICATE: &str = "domain D.\nvar x y : D.\nhyp P : x + y = 0.\nhyp Q : x - y = 0.\n\
    goal y = 0 by nsatz using P, Q power 1 limit 10000.\n  proved power 1 if 2 <> 0.\n  \
    line 1, 1, 2 minus -1, 1, 1 over 2.\n  step 1 minus 1, 1, 1 over 1.\n  step 1 minus -1, 1, 3 over 1.\n";

#[test]
fn a_certificate_that_is_changed(rt: HostRuntime) {
    // Each row: what is changed, what stands in its place, and what the text is.
    for (old, new, want) in [
        (
            "line 1, 1, 2 minus",
            "line 1, 1, 3 minus",
            certificate(1, 2),
        ),
        ("over 2", "over 0", certificate(1, 2)),
        ("over 2", "over 3", certificate(1, 2)),
        (
            "line 1, 1, 2 minus",
            "line 1, 1, 4294967295 minus",
            certificate(1, 2),
        ),
        (
            "line 1, 1, 2 minus",
            "line 1, 1, 4294967296 minus",
            Found::Fault(18, 154),
        ),
        (
            "line 1,",
            "line 170141183460469231731687303715884105727,",
            certificate(1, 2),
        ),
        ("line 1, 1,", "line 1, x^1000,", certificate(1, 2)),
        ("line 1, 1,", "line 1, x^1001,", Found::Fault(18, 151)),
        ("step 1 minus 1", "step 0 minus 1", certificate(1, 2)),
        ("1, 3 over", "1, 4 over", certificate(1, 2)),
        ("proved power 1 if", "proved power 2 if", certificate(1, 2)),
        ("proved power 1 if", "proved power 0 if", certificate(1, 2)),
        (" if 2 <> 0", "", certificate(1, 2)),
    ] {
        let text = CERTIFICATE.replace(rt.alloc(), old, new);
        match text {
            Ok(text) => assert!(rt; what_is_found(rt.alloc(), text.as_bytes()) == want, "{new}"),
            Err(_) => assert!(rt; false, "{new}"),
        }
    }
}

#[test]
fn a_certificate_that_is_cut(rt: HostRuntime) {
    for length in 0..=242 {
        let want = match length {
            0 | 9 | 10 | 22 | 23 | 41 | 42 | 60 | 61 => Some((0, 0, 0, 0)),
            112..=115 => Some((1, 0, 0, 0)),
            140..=143 => Some((1, 1, 0, 0)),
            178..=181 => Some((1, 1, 1, 0)),
            209..=212 => Some((1, 1, 1, 1)),
            241 | 242 => Some((1, 1, 1, 2)),
            _ => None,
        };
        let is = match (
            want,
            what_is_found(rt.alloc(), &CERTIFICATE.as_bytes()[..length]),
        ) {
            (
                Some(counts),
                Found::Read {
                    goals,
                    answers,
                    lines,
                    steps,
                },
            ) => counts == (goals, answers, lines, steps),
            (None, Found::Fault(code, _)) => code == 2 || code == 4 || code == 5,
            _ => false,
        };
        assert!(rt; is, "the first {length} bytes");
    }
}
