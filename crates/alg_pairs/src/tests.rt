//! One list of inserts and takes of pairs, and one of inserts and look-ups of leads.

use crate::{LeadIndex, Mono, Pairs};
use std::alloc::Global;
use std::test::Fail;

// Each row: the lines i < j, and the exponents of atoms 0 and 1 in the least common multiple.
const INSERTED: [(u32, u32, u32, u32); 8] = [
    (1, 5, 4, 0),
    (2, 4, 2, 1),
    (3, 4, 1, 2),
    (1, 4, 2, 1),
    (1, 2, 2, 1),
    (2, 5, 1, 2),
    (2, 4, 2, 1),
    (3, 5, 0, 1),
];

// The least degree first; at degree 3 the multiple with the greater exponent at atom 1 is less.
// Ties go by j, then by i, and a pair that is there already is inserted once.
const TAKEN: [(u32, u32); 7] = [(3, 5), (3, 4), (2, 5), (1, 2), (1, 4), (2, 4), (1, 5)];

#[test]
fn the_least_is_taken_first(rt: HostRuntime) -> Result<(), Fail> {
    let alloc = rt.alloc();
    let mut pairs = Pairs::new(alloc);
    assert!(rt; pairs.is_empty());
    for (i, j, x, y) in INSERTED {
        let lcm = Mono::from_pairs(alloc, &[(0, x), (1, y)])?;
        pairs.insert(i, j, lcm)?;
    }
    for pair in TAKEN {
        assert!(rt; !pairs.is_empty());
        assert_eq!(rt; pairs.take_least(), Some(pair));
    }
    assert_eq!(rt; pairs.take_least(), None);
    Ok(())
}

// Each row: a line, and the exponents of atoms 0, 1 and 2 in its lead. Line 7 comes twice, and the
// second is not taken.
const LEADS: [(u32, [u32; 3]); 8] = [
    (7, [2, 0, 0]),
    (3, [0, 2, 1]),
    (9, [1, 0, 0]),
    (7, [0, 0, 1]),
    (5, [1, 1, 0]),
    (8, [0, 0, 2]),
    (4, [0, 2, 2]),
    (6, [1, 0, 1]),
];

fn mono_of(alloc: Global, [x, y, z]: [u32; 3]) -> Result<Mono, Fail> {
    Ok(Mono::from_pairs(alloc, &[(0, x), (1, y), (2, z)])?)
}

// The least line of a list whose lead divides, by exponents, without the second line 7.
fn least_in(leads: &[(u32, [u32; 3])], m: [u32; 3]) -> Option<u32> {
    let mut least = None;
    for &(line, [x, y, z]) in leads {
        let divides = x <= m[0] && y <= m[1] && z <= m[2];
        if divides && (x, y, z) != (0, 0, 1) && least.is_none_or(|other| line < other) {
            least = Some(line);
        }
    }
    least
}

#[test]
fn the_least_divisor_is_that_of_a_plain_scan(rt: HostRuntime) -> Result<(), Fail> {
    let alloc = rt.alloc();
    let mut index = LeadIndex::new(alloc);
    for (line, exponents) in LEADS {
        index.insert(line, mono_of(alloc, exponents)?)?;
    }
    for x in 0..4 {
        for y in 0..4 {
            for z in 0..4 {
                let m = [x, y, z];
                let least = index.least_divisor(&mono_of(alloc, m)?);
                assert_eq!(rt; least, least_in(&LEADS, m), "{m:?}");
            }
        }
    }
    Ok(())
}

// Each row: exponents, and the least line whose lead divides, before and after the lead 1 is line 2.
const ASKED: [([u32; 3], Option<u32>); 5] = [
    ([0, 0, 0], None),
    ([0, 1, 1], None),
    ([0, 2, 2], Some(3)),
    ([2, 0, 1], Some(6)),
    ([2, 1, 0], Some(5)),
];

#[test]
fn the_lead_1_divides_each(rt: HostRuntime) -> Result<(), Fail> {
    let alloc = rt.alloc();
    let mut index = LeadIndex::new(alloc);
    for (line, exponents) in LEADS {
        index.insert(line, mono_of(alloc, exponents)?)?;
    }
    for (m, want) in ASKED {
        assert_eq!(rt; index.least_divisor(&mono_of(alloc, m)?), want, "{m:?}");
    }
    index.insert(2, Mono::one(alloc))?;
    for (m, _) in ASKED {
        assert_eq!(rt; index.least_divisor(&mono_of(alloc, m)?), Some(2), "{m:?}");
    }
    Ok(())
}
