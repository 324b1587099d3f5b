//! Texts with hypotheses and goals by nsatz: what is read, and the first faults of names, of sorts, of
//! uses and of options.

use super::Found::{Fault, File};
use super::{Found, read, read_behind};
use std::alloc::AllocError;

// What the texts begin with: sorts with a variable each, morphisms between them, and a hypothesis.

const RING: &'static str = "ring R.\nvar x : R.\n";

const DOMAIN: &'static str = "domain D.\nvar x : D.\n";

const FIELD: &'static str = "field F.\nvar x : F.\n";

const MAPS: &'static str = "domain D.
domain E.
hom f : D -> E.
hom g : E -> D.
var x : D.
var y : E.
";

const EQUAL: &'static str = "domain D.
domain E.
hom f : D -> E.
hom g : E -> D.
var x : D.
var y : E.
hyp h : x = 0.
";

const UNEQUAL: &'static str = "domain D.
domain E.
hom f : D -> E.
hom g : E -> D.
var x : D.
var y : E.
hyp h : x <> 0.
";

const FIELDS: &'static str = "field D.
field E.
hom f : D -> E.
hom g : E -> D.
var x : D.
var y : E.
hyp h : x <> 0.
";

/// Each row: declarations, statements behind them, and what they are together.
const STATEMENTS: [(&'static str, &'static str, Found); 44] = [
    // goals by nsatz, in a domain or in a field
    (DOMAIN, "goal x = 0 by nsatz.", File(3)),
    (FIELD, "goal x = 0 by nsatz.", File(3)),
    (RING, "goal x = 0 by nsatz.", Fault(14, 33)),
    // the power from 1 to 16, the limit up to 1,000,000
    (DOMAIN, "goal x = 0 by nsatz power 0.", Fault(16, 47)),
    (DOMAIN, "goal x = 0 by nsatz power 1.", File(3)),
    (DOMAIN, "goal x = 0 by nsatz power 16.", File(3)),
    (DOMAIN, "goal x = 0 by nsatz power 17.", Fault(16, 47)),
    (DOMAIN, "goal x = 0 by nsatz limit 0.", File(3)),
    (DOMAIN, "goal x = 0 by nsatz limit 1000000.", File(3)),
    (DOMAIN, "goal x = 0 by nsatz limit 1000001.", Fault(16, 47)),
    (
        DOMAIN,
        "goal x = 0 by nsatz power 16 limit 1000001.",
        Fault(16, 56),
    ),
    // hypotheses: a name that is new, sides of one sort, no quotients
    (FIELD, "hyp h : x = 0. hyp k : x <> 1.", File(4)),
    (FIELD, "hyp h : x = 1/x.", Fault(13, 33)),
    (FIELD, "hyp h : 1 <> 0.", Fault(10, 30)),
    (FIELD, "hyp h : x^1001 = 0.", Fault(12, 30)),
    (MAPS, "hyp h : x <> y.", Fault(9, 84)),
    (MAPS, "hyp h : f(y) = 0.", Fault(9, 82)),
    (MAPS, "hyp x : x = 0.", Fault(6, 78)),
    (MAPS, "hyp h : h = 0.", Fault(7, 82)),
    (MAPS, "hyp h : z = 0.", Fault(7, 82)),
    (MAPS, "hyp h : D = 0.", Fault(8, 82)),
    (EQUAL, "goal h = 0 by ring.", Fault(8, 94)),
    // a use is of a hypothesis, under morphisms
    (EQUAL, "goal x = 0 by nsatz using k.", Fault(7, 115)),
    (EQUAL, "goal x = 0 by nsatz using k(h).", Fault(7, 115)),
    (EQUAL, "goal x = 0 by nsatz using x.", Fault(8, 115)),
    (EQUAL, "goal x = 0 by nsatz using h(h).", Fault(8, 115)),
    (EQUAL, "goal x = 0 by nsatz using f(f).", Fault(8, 117)),
    // the sort of a use is the goal's
    (EQUAL, "goal x = 0 by nsatz using h.", File(8)),
    (EQUAL, "goal y = 0 by nsatz using f(h).", File(8)),
    (EQUAL, "goal y = 0 by nsatz using h.", Fault(9, 115)),
    (EQUAL, "goal x = 0 by nsatz using f(h).", Fault(9, 115)),
    (EQUAL, "goal x = 0 by nsatz using h, f(h).", Fault(9, 118)),
    // each morphism's source is the sort of what it is used on
    (EQUAL, "goal x = 0 by nsatz using g(f(h)).", File(8)),
    (EQUAL, "goal x = 0 by nsatz using g(h).", Fault(9, 115)),
    (EQUAL, "goal y = 0 by nsatz using f(g(h)).", Fault(9, 117)),
    // a `<>` under a morphism is one of a field
    (UNEQUAL, "goal x = 0 by nsatz using h.", File(8)),
    (UNEQUAL, "goal y = 0 by nsatz using f(h).", Fault(15, 116)),
    (FIELDS, "goal y = 0 by nsatz using f(h).", File(8)),
    // at one byte the least code
    (UNEQUAL, "goal x = 0 by nsatz using f(h).", Fault(9, 116)),
    // the earlier byte first
    (RING, "goal x = 0 by nsatz power 17.", Fault(14, 33)),
    (
        DOMAIN,
        "goal x = 0 by nsatz power 17 limit 1000001.",
        Fault(16, 47),
    ),
    (FIELD, "goal x/x = 1 by nsatz power 17.", Fault(13, 26)),
    (
        UNEQUAL,
        "goal y = 0 by nsatz using f(g(h)).",
        Fault(15, 116),
    ),
    (
        EQUAL,
        "goal x = 0 by nsatz using f(h) power 0.",
        Fault(9, 115),
    ),
];

#[test]
fn a_statement_on_hypotheses_is_read_or_has_a_first_fault(
    rt: HostRuntime,
) -> Result<(), AllocError> {
    for (declared, statement, want) in &STATEMENTS {
        let found = read_behind(rt.alloc(), *declared, *statement)?;
        assert!(rt; found == *want, "{statement}: {found:?} is to be {want:?}");
    }
    Ok(())
}

/// A file with all that a file can have.
const WHOLE: &'static str = "ring R.
field F char 0.
hom f : R -> F.
var a b c d : R.
var u v w t : F.
hyp E : a = b.
hyp H : u*v = 1.
hyp K : u*w = 1.
hyp P : u + t = 0.
hyp Q : u - t = 0.
hyp S : w^2 = 0.
goal (a + b)*(a - b) = a^2 - b^2 by ring.
goal (a + b)^3 = a^3 + 3*a^2*b + 3*a*b^2 + b^3 by ring.
goal (a^2 + b^2)*(c^2 + d^2) = (a*c - b*d)^2 + (a*d + b*c)^2 by ring.
goal f(a*b + c) = f(a)*f(b) + f(c) by ring.
goal f((a - b)^2) = f(a)^2 - 2*f(a)*f(b) + f(b)^2 by ring.
goal u/v + w/t = (u*t + w*v)/(v*t) by field.
goal 1/(u - v) - 1/(u + v) = 2*v/(u^2 - v^2) by field.
goal f(a)/2 + f(a)/2 = f(a) by field.
goal v = w by nsatz using H, K.
goal t = 0 by nsatz using P, Q.
goal f(a)^2 = f(b)^2 by nsatz using f(E).
goal w = 0 by nsatz using S power 2.
";

#[test]
fn a_file_with_all_kinds_of_statements(rt: HostRuntime) {
    let found = read(rt.alloc(), WHOLE.as_bytes());
    assert!(rt; found == File(23), "{found:?}");
}
