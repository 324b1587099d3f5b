//! The file or the first fault of whole texts: a row for each code, both sides of each limit, and
//! texts with two faults.

use super::Found::{Fault, File};
use super::{Found, read};
use std::alloc::{AllocError, Global};

/// Bytes, and how often they stand one after the other.
type Piece = (&'static [u8], u32);

// What several texts begin with: sorts with one variable each.

const RING: Piece = (b"ring R.\nvar x : R.\n", 1);

const RINGS: Piece = (b"ring R.\nring S.\nvar x : R.\nvar y : S.\n", 1);

const DOMAIN: Piece = (b"domain D.\nvar x : D.\n", 1);

const FIELD: Piece = (b"field F.\nvar x : F.\n", 1);

const FIELDS: Piece = (b"field F.\nfield K.\nvar x : F.\nvar y : K.\n", 1);

/// Each row: the pieces of a text, and what it is.
const READINGS: [(&'static [Piece], Found); 93] = [
    // files
    (&[(b"", 1)], File(0)),
    (&[(b"# nothing\n", 1)], File(0)),
    (
        &[(b"ring R. var x y : R. goal x*y = y*x by ring.", 1)],
        File(3),
    ),
    (
        &[(
            b"domain D char 0. field F. hom f : D -> F. var x : D. goal f(x + 1) = f(x) + 1 by ring.",
            1,
        )],
        File(5),
    ),
    (&[(b"ring R.\nhom f : R -> R.\n", 1)], File(2)),
    (
        &[(
            b"ring R. ring S. hom f : R -> S. hom g : S -> R. var x : R. goal g(f(x)) = x by ring.",
            1,
        )],
        File(6),
    ),
    (
        &[(
            b"ring R.\nvar \xce\xb1 : R.\ngoal \xce\xb1 + \xce\xb1 = 2*\xce\xb1 by ring.\n",
            1,
        )],
        File(3),
    ),
    (
        &[(
            b"ring R. hom ff : R -> R. var f : R. goal f + ff(f) = 0 by ring.",
            1,
        )],
        File(4),
    ),
    // code 1: the bytes are no UTF-8
    (&[(b"\xff", 1)], Fault(1, 0)),
    (&[(b"var x : R. \xc3", 1)], Fault(1, 11)),
    (&[(b"hyp \xc3", 1)], Fault(1, 4)),
    // code 2: a character begins no token
    (&[(b"ring R.\nvar x$ : R.\n", 1)], Fault(2, 13)),
    (&[RING, (b"goal x < 0 by ring.\n", 1)], Fault(2, 26)),
    // code 3: a numeral is over the greatest
    (
        &[
            RING,
            (
                b"goal x = 170141183460469231731687303715884105727 by ring.\n",
                1,
            ),
        ],
        File(3),
    ),
    (
        &[
            RING,
            (
                b"goal x = 170141183460469231731687303715884105728 by ring.\n",
                1,
            ),
        ],
        Fault(3, 28),
    ),
    (
        &[
            RING,
            (
                b"goal x^170141183460469231731687303715884105728 = 0 by ring.\n",
                1,
            ),
        ],
        Fault(3, 26),
    ),
    // code 4: no statement begins so
    (&[(b".", 1)], Fault(4, 0)),
    (&[(b"ring R char 0.", 1)], Fault(4, 7)),
    (&[(b"ring semiring.", 1)], Fault(4, 5)),
    (&[RING, (b"goal x <> 0 by ring.\n", 1)], Fault(4, 26)),
    (
        &[RING, (b"goal x = x by ring.\n  proved.\n", 1)],
        Fault(4, 41),
    ),
    (&[(b"line 1, 1, 1 minus 1, 1, 1 over 1.", 1)], Fault(4, 0)),
    (&[(b"step 1 minus 1, 1, 1 over 1.", 1)], Fault(4, 0)),
    // code 5: the input ends inside a statement
    (&[(b"ring R.\nvar x : R", 1)], Fault(5, 17)),
    (&[(b"ring R # .", 1)], Fault(5, 10)),
    // code 19: a parenthesis where 200 are open
    (
        &[
            RING,
            (b"goal ", 1),
            (b"(", 200),
            (b"x", 1),
            (b")", 200),
            (b" = x by ring.\n", 1),
        ],
        File(3),
    ),
    (&[RING, (b"goal ", 1), (b"(", 200)], Fault(5, 224)),
    (&[RING, (b"goal ", 1), (b"(", 201)], Fault(19, 224)),
    (
        &[
            RING,
            (b"goal ", 1),
            (b"(x)*", 201),
            (b"x = x by ring.\n", 1),
        ],
        File(3),
    ),
    (
        &[
            (b"ring R. hom f : R -> R. var x : R. goal ", 1),
            (b"f(", 201),
            (b"x", 1),
        ],
        Fault(19, 441),
    ),
    // code 11: a node's depth is over 1,000
    (
        &[RING, (b"goal ", 1), (b"x+", 999), (b"x = 0 by ring.\n", 1)],
        File(3),
    ),
    (
        &[RING, (b"goal ", 1), (b"x+", 1000), (b"x = 0 by ring.\n", 1)],
        Fault(11, 2023),
    ),
    (
        &[RING, (b"goal ", 1), (b"-", 999), (b"x = 0 by ring.\n", 1)],
        File(3),
    ),
    (
        &[RING, (b"goal ", 1), (b"-", 1000), (b"x = 0 by ring.\n", 1)],
        Fault(11, 24),
    ),
    (
        &[RING, (b"goal ", 1), (b"-", 1200), (b"x = 0 by ring.\n", 1)],
        Fault(11, 224),
    ),
    (
        &[RING, (b"goal x = ", 1), (b"-", 1000), (b"x by ring.\n", 1)],
        Fault(11, 28),
    ),
    // code 6: a name is declared again
    (&[(b"ring R. ring R.", 1)], Fault(6, 13)),
    (&[(b"ring R. var x x : R.", 1)], Fault(6, 14)),
    (&[(b"ring R. hom R : R -> R.", 1)], Fault(6, 12)),
    (&[(b"ring R. hom f : R -> R. var f : R.", 1)], Fault(6, 28)),
    // code 7: a name is not declared
    (&[(b"var x : R.\n", 1)], Fault(7, 8)),
    (&[(b"var x : R. ring R.", 1)], Fault(7, 8)),
    (&[(b"ring R. hom f : R -> S.", 1)], Fault(7, 21)),
    (&[RING, (b"goal x = y by ring.\n", 1)], Fault(7, 28)),
    (&[RING, (b"goal f(x) = x by ring.\n", 1)], Fault(7, 24)),
    // code 8: a name is declared as another thing
    (&[RING, (b"goal x = R by ring.\n", 1)], Fault(8, 28)),
    (&[RING, (b"goal R = x by ring.\n", 1)], Fault(8, 24)),
    (&[RING, (b"goal x(x) = x by ring.\n", 1)], Fault(8, 24)),
    (&[RING, (b"hom f : R -> x.", 1)], Fault(8, 32)),
    (
        &[(b"ring R. hom f : R -> R. goal f = 0 by ring.", 1)],
        Fault(8, 29),
    ),
    // code 9: sorts differ
    (&[RINGS, (b"goal x + y = 0 by ring.\n", 1)], Fault(9, 45)),
    (&[RINGS, (b"goal 2*x^2*-y = 0 by ring.\n", 1)], Fault(9, 48)),
    (&[RINGS, (b"goal x = y by ring.\n", 1)], Fault(9, 45)),
    (
        &[RINGS, (b"hom f : R -> S.\ngoal f(y) = y by ring.\n", 1)],
        Fault(9, 59),
    ),
    (
        &[RINGS, (b"hom f : R -> S.\ngoal f(x) + x = y by ring.\n", 1)],
        Fault(9, 64),
    ),
    // code 10: no side has a sort
    (&[RING, (b"goal 1 = 0 by ring.\n", 1)], Fault(10, 26)),
    // code 12: an exponent is over 1,000
    (&[RING, (b"goal x^1000 = 0 by ring.\n", 1)], File(3)),
    (&[RING, (b"goal x^1001 = 0 by ring.\n", 1)], Fault(12, 26)),
    (&[RING, (b"goal x = 2^1001 by ring.\n", 1)], Fault(12, 30)),
    // code 13: a quotient in a goal by ring
    (&[FIELD, (b"goal x/x = 1 by ring.\n", 1)], Fault(13, 26)),
    (&[FIELD, (b"goal x = 1/2 by ring.\n", 1)], Fault(13, 30)),
    // an earlier statement before a later one
    (&[(b"ring R. ring R. var x : Q.", 1)], Fault(6, 13)),
    (
        &[RING, (b"goal 1 = 0 by ring.\nvar $ : R.\n", 1)],
        Fault(10, 26),
    ),
    (&[(b"ring R. ring R. hyp H : x = 0.", 1)], Fault(6, 13)),
    // a group before another, at whatever bytes: what can't be read, depth, names, sorts
    (&[(b"var x : R", 1)], Fault(5, 9)),
    (&[RING, (b"goal x^1001 = $ by ring.\n", 1)], Fault(2, 33)),
    (
        &[RING, (b"goal ", 1), (b"-", 1000), (b"x = 0 by ring", 1)],
        Fault(5, 1037),
    ),
    (
        &[RING, (b"goal ", 1), (b"x+", 999), (b"x = y by ring.\n", 1)],
        Fault(7, 2026),
    ),
    (
        &[RING, (b"goal ", 1), (b"x+", 1000), (b"x = y by ring.\n", 1)],
        Fault(11, 2023),
    ),
    (
        &[
            RING,
            (b"goal y + ", 1),
            (b"-", 998),
            (b"x = 0 by ring.\n", 1),
        ],
        Fault(7, 24),
    ),
    (
        &[
            RING,
            (b"goal y + ", 1),
            (b"-", 999),
            (b"x = 0 by ring.\n", 1),
        ],
        Fault(11, 26),
    ),
    (
        &[
            RING,
            (b"goal x^1001 = ", 1),
            (b"-", 1000),
            (b"x by ring.\n", 1),
        ],
        Fault(11, 33),
    ),
    (&[RINGS, (b"goal x + y = z by ring.\n", 1)], Fault(7, 51)),
    (&[RING, (b"goal x^1001 = R by ring.\n", 1)], Fault(8, 33)),
    (&[RING, (b"hyp $", 1)], Fault(2, 23)),
    (
        &[RING, (b"goal ", 1), (b"-", 1000), (b"x = 0 by nsatz.\n", 1)],
        Fault(11, 24),
    ),
    (&[RING, (b"goal y = 0 by nsatz.\n", 1)], Fault(7, 24)),
    // of one group the earlier byte
    (
        &[
            RING,
            (
                b"goal x = 170141183460469231731687303715884105728 + $ by ring.\n",
                1,
            ),
        ],
        Fault(3, 28),
    ),
    (
        &[
            RING,
            (
                b"goal x = $ + 170141183460469231731687303715884105728 by ring.\n",
                1,
            ),
        ],
        Fault(2, 28),
    ),
    (
        &[RING, (b"goal ", 1), (b"(", 201), (b"$", 1)],
        Fault(19, 224),
    ),
    (&[RING, (b"goal $", 1), (b"(", 201)], Fault(2, 24)),
    (&[(b"ring R. var R x : Q.", 1)], Fault(6, 12)),
    (&[RING, (b"goal y + R = 0 by ring.\n", 1)], Fault(7, 24)),
    (&[RING, (b"goal R + y = 0 by ring.\n", 1)], Fault(8, 24)),
    (
        &[RINGS, (b"goal y + x^1001 = 0 by ring.\n", 1)],
        Fault(9, 45),
    ),
    (
        &[RINGS, (b"goal x^1001 + y = 0 by ring.\n", 1)],
        Fault(12, 45),
    ),
    (
        &[FIELD, (b"goal x^1001/x = 1 by ring.\n", 1)],
        Fault(12, 27),
    ),
    (
        &[FIELD, (b"goal x/x^1001 = 1 by ring.\n", 1)],
        Fault(13, 26),
    ),
    (&[FIELDS, (b"goal x = y/y by ring.\n", 1)], Fault(9, 47)),
    // at one byte the least code
    (&[(b"ring $.", 1)], Fault(2, 5)),
    (
        &[(b"ring 170141183460469231731687303715884105728.", 1)],
        Fault(3, 5),
    ),
    (
        &[RING, (b"goal ", 1), (b"(", 200), (b"1(", 1)],
        Fault(4, 225),
    ),
    (&[FIELDS, (b"goal x/y = 1 by ring.\n", 1)], Fault(9, 46)),
];

/// The pieces one after the other.
fn joined(alloc: Global, pieces: &[Piece]) -> Result<Vec<u8>, AllocError> {
    let mut text = Vec::new(alloc);
    for (piece, count) in pieces {
        for _ in 0..*count {
            text.extend_from_slice(*piece)?;
        }
    }
    Ok(text)
}

#[test]
fn each_text_is_a_file_or_has_a_first_fault(rt: HostRuntime) -> Result<(), AllocError> {
    for (pieces, want) in &READINGS {
        let text = joined(rt.alloc(), *pieces)?;
        let found = read(rt.alloc(), text.as_slice());
        assert!(rt; found == *want, "{found:?} is to be {want:?}");
    }
    Ok(())
}
