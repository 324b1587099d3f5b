//! Answers to goals by each method.

use super::{Found, ONE_ANSWER, what_is_behind};

/// Two rings with a morphism, and a goal of the second with the atoms f(x) and y.
const BY_RING: &str =
    "ring R. ring S. hom f : R -> S. var x : R. var y : S. goal f(x)*y = 0 by ring. ";

/// Two fields with a morphism, and a goal of the second with the atoms f(x) and y.
const BY_FIELD: &str =
    "field F. field K. hom f : F -> K. var x : F. var y : K. goal f(x)/y = 0 by field. ";

/// A goal by nsatz with the atoms x and y.
const BY_NSATZ: &str = "domain D. var x y : D. hyp P : x + y = 0. goal x = 0 by nsatz using P. ";

#[test]
fn answers_to_goals_by_ring(rt: HostRuntime) {
    // Each row: an answer, and what it is.
    for (answer, want) in [
        ("proved.", ONE_ANSWER),
        ("range.", ONE_ANSWER),
        ("degree.", ONE_ANSWER),
        ("atoms.", ONE_ANSWER),
        // conditions are read, of each sort, but without quotients
        ("proved if y <> 0, x^1000 <> 0, 2 <> 0.", ONE_ANSWER),
        ("proved if y/y <> 0.", Found::Fault(13, 11)),
        ("proved if x + y <> 0.", Found::Fault(9, 12)),
        ("proved if f(y) <> 0.", Found::Fault(9, 10)),
        ("proved if y^1001 <> 0.", Found::Fault(12, 12)),
        // names come before sorts, wherever they stand
        ("proved if z <> 0.", Found::Fault(7, 10)),
        ("proved if f <> 0.", Found::Fault(8, 10)),
        ("proved if y/y <> 0, z <> 0.", Found::Fault(7, 20)),
        // of two faults of sorts the one at the lesser byte
        (
            "proved if y <> 0, y/y <> 0, f(y) <> 0.",
            Found::Fault(13, 19),
        ),
        // answers of another form, once their names are resolved
        ("zero denominator y.", Found::Fault(17, 0)),
        ("zero denominator z.", Found::Fault(7, 17)),
        ("zero denominator y/y.", Found::Fault(17, 0)),
        ("proved power 1.", Found::Fault(17, 0)),
        ("proved version 3 power 1.", Found::Fault(17, 0)),
        ("none up to power 4294967296.", Found::Fault(17, 0)),
        ("gave up after 0.", Found::Fault(17, 0)),
        // one answer, just behind the goal
        ("proved. proved.", Found::Fault(4, 8)),
        ("var u : R. proved.", Found::Fault(4, 11)),
        ("proved. step 1 minus 1, 1, 1 over 1.", Found::Fault(4, 8)),
    ] {
        assert!(rt;
            what_is_behind(rt.alloc(), BY_RING, answer) == want,
            "{answer}"
        );
    }
}

#[test]
fn monomials_are_over_the_atoms_of_the_goal(rt: HostRuntime) {
    // Each row: an answer, and what it is.
    for (answer, want) in [
        ("no at 1 : 1 and 0.", ONE_ANSWER),
        ("no at f(x) : 1 and -1.", ONE_ANSWER),
        // factors in any order, which may repeat
        ("no at y*f(x)^2*y^3*f(x)^0 : 1 and 0.", ONE_ANSWER),
        // names, also in an atom
        ("no at z : 1 and 0.", Found::Fault(7, 6)),
        ("no at f(z) : 1 and 0.", Found::Fault(7, 8)),
        ("no at z(x) : 1 and 0.", Found::Fault(7, 6)),
        ("no at y(x) : 1 and 0.", Found::Fault(8, 6)),
        ("no at f : 1 and 0.", Found::Fault(8, 6)),
        ("no at f(R) : 1 and 0.", Found::Fault(8, 8)),
        ("no at x*z : 1 and 0.", Found::Fault(7, 8)),
        // whole atoms alone are looked up, and a wrong sort in one is no fault of its own
        ("no at x : 1 and 0.", Found::Fault(18, 6)),
        ("no at f(y) : 1 and 0.", Found::Fault(18, 6)),
        ("no at y*x : 1 and 0.", Found::Fault(18, 8)),
        ("no at y*x^0 : 1 and 0.", Found::Fault(18, 8)),
        // the degree of the whole monomial
        ("no at y^1000 : 1 and 0.", ONE_ANSWER),
        ("no at y^1001 : 1 and 0.", Found::Fault(18, 6)),
        ("no at y*f(x)^1000 : 1 and 0.", Found::Fault(18, 6)),
        ("no at y*x*y^1000 : 1 and 0.", Found::Fault(18, 6)),
        (
            "no at y^170141183460469231731687303715884105727*y : 1 and 0.",
            Found::Fault(18, 6),
        ),
    ] {
        assert!(rt;
            what_is_behind(rt.alloc(), BY_RING, answer) == want,
            "{answer}"
        );
    }
}

#[test]
fn answers_to_goals_by_field(rt: HostRuntime) {
    // Each row: an answer, and what it is.
    for (answer, want) in [
        ("proved.", ONE_ANSWER),
        ("proved if y <> 0, 1/x <> 0, f(x/x) <> 0.", ONE_ANSWER),
        ("no at f(x)*y : 2 and 1.", ONE_ANSWER),
        ("zero denominator y - y.", ONE_ANSWER),
        // a denominator may have another sort than the goal
        ("zero denominator x - x.", ONE_ANSWER),
        ("zero denominator x - y.", Found::Fault(9, 19)),
        ("degree.", ONE_ANSWER),
        ("proved power 1.", Found::Fault(17, 0)),
        ("none up to power 1.", Found::Fault(17, 0)),
        ("gave up after 0.", Found::Fault(17, 0)),
    ] {
        assert!(rt;
            what_is_behind(rt.alloc(), BY_FIELD, answer) == want,
            "{answer}"
        );
    }
}

#[test]
fn answers_to_goals_by_nsatz(rt: HostRuntime) {
    // Each row: an answer, and what it is.
    for (answer, want) in [
        ("none up to power 4294967295.", ONE_ANSWER),
        ("none up to power 4294967296.", Found::Fault(18, 17)),
        ("gave up after 10000.", ONE_ANSWER),
        ("gave up after 4294967296.", Found::Fault(18, 14)),
        ("atoms.", ONE_ANSWER),
        ("proved power 1 if 2 <> 0, 3 <> 0.", ONE_ANSWER),
        ("proved power 4294967296.", Found::Fault(18, 13)),
        ("proved version 1 power 1.", ONE_ANSWER),
        ("proved version 02 power 0.", ONE_ANSWER),
        ("proved version 0 power 1.", Found::Fault(18, 15)),
        ("proved version 3 power 4294967296.", Found::Fault(18, 15)),
        ("proved version 2 power 4294967296.", Found::Fault(18, 23)),
        // answers of another form
        ("proved.", Found::Fault(17, 0)),
        ("proved if x/x <> 0.", Found::Fault(17, 0)),
        ("proved if zz <> 0.", Found::Fault(7, 10)),
        ("no at x : 1 and 0.", Found::Fault(17, 0)),
        ("no at zz : 1 and 0.", Found::Fault(7, 6)),
        ("zero denominator x.", Found::Fault(17, 0)),
    ] {
        assert!(rt;
            what_is_behind(rt.alloc(), BY_NSATZ, answer) == want,
            "{answer}"
        );
    }
}
