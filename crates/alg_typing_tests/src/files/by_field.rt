//! Texts with a goal by field: what is read, and the first faults of quotients, of sorts and of the
//! method.

use super::Found::{Fault, File};
use super::{Found, read, read_behind};
use std::alloc::AllocError;

// What the texts begin with: sorts with a variable each, and morphisms between them.

const RING: &'static str = "ring R.\nvar x : R.\n";

const DOMAIN: &'static str = "domain D.\nvar x : D.\n";

const FIELD: &'static str = "field F.\nvar x : F.\n";

const FIELDS: &'static str = "field F.\nfield K.\nvar x : F.\nvar y : K.\n";

const MAPS: &'static str = "ring R.
field F.
field K.
hom f : R -> F.
hom g : F -> R.
hom h : F -> K.
var x : R.
var y : F.
var z : K.
";

/// Each row: declarations, a goal, and what they are together.
const GOALS: [(&'static str, &'static str, Found); 20] = [
    // files
    (FIELD, "goal x/x = 1 by field.", File(3)),
    (FIELD, "goal x = x by field.", File(3)),
    (FIELD, "goal 1/(x - x) = 0/0 by field.", File(3)),
    (FIELD, "goal x = 1/2 by field.", File(3)),
    (
        FIELD,
        "goal x/x = 1/0 by field. goal x*x = x^2 by ring.",
        File(4),
    ),
    // code 13: a quotient where the sort is no field
    (MAPS, "goal h(1/y) = h(1)/z by field.", File(10)),
    (MAPS, "goal f(x)/f(x) = 1 by field.", File(10)),
    (MAPS, "goal f(x/x) = 1 by field.", Fault(13, 115)),
    (MAPS, "goal z = h(f(1/x)) by field.", Fault(13, 121)),
    // a quotient in a field, below a morphism to a ring
    (MAPS, "goal f(g(1/y)) = 1 by field.", Fault(13, 117)),
    (MAPS, "goal h(f(g(y)/2)) = z by field.", Fault(13, 120)),
    (MAPS, "goal h(f(g(y))/2) = z by field.", File(10)),
    // code 15: the sort is no field
    (RING, "goal x = x by field.", Fault(15, 33)),
    (DOMAIN, "goal x = x by field.", Fault(15, 35)),
    (MAPS, "goal x = g(1) by field.", Fault(15, 124)),
    // no side has a sort, so no quotient is of one that is no field
    (FIELD, "goal 1/2 = 2/4 by field.", Fault(10, 29)),
    // of two faults the earlier byte: a quotient, an exponent, the word
    (RING, "goal x/x^1001 = x by field.", Fault(13, 25)),
    (RING, "goal x^1001/x = x by field.", Fault(12, 26)),
    (FIELDS, "goal x/y = 1 by field.", Fault(9, 46)),
    // the word is read, so the depth, the names and the sorts come
    (FIELD, "goal y^1001 = 0 by field.", Fault(7, 25)),
];

#[test]
fn a_goal_by_field_is_read_or_has_a_first_fault(rt: HostRuntime) -> Result<(), AllocError> {
    for (declared, goal, want) in &GOALS {
        let found = read_behind(rt.alloc(), *declared, *goal)?;
        assert!(rt; found == *want, "{goal}: {found:?} is to be {want:?}");
    }
    Ok(())
}

#[test]
fn a_side_of_a_goal_by_field_may_be_1000_deep(rt: HostRuntime) -> Result<(), AllocError> {
    for (count, want) in [(999, File(3)), (1000, Fault(11, 25))] {
        let mut text = Vec::from_slice(rt.alloc(), FIELD.as_bytes())?;
        text.extend_from_slice(b"goal ")?;
        for _ in 0..count {
            text.push(b'-')?;
        }
        text.extend_from_slice(b"x = 1/x by field.\n")?;
        let found = read(rt.alloc(), text.as_slice());
        assert!(rt; found == want, "{count}: {found:?} is to be {want:?}");
    }
    Ok(())
}
