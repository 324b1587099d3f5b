//! Each call once, and both sides of the limits on norm and degree.

use crate::{Mono, Overrun, Poly};
use std::alloc::Global;
use std::process::Abort;
use std::test::Fail;

const MAX: i128 = i128::MAX;

/// Whether the terms are these: pairs of an atom and its exponent, and the coefficient.
fn has_terms(poly: &Poly, want: &[(&[(u32, u32)], i128)]) -> bool {
    let terms = poly.terms();
    if terms.len() != want.len() {
        return false;
    }
    for (term, (pairs, coefficient)) in terms.iter().zip(want) {
        if term.0.pairs() != *pairs || term.1 != *coefficient {
            return false;
        }
    }
    true
}

/// `c` times the atom 0 to the power `exponent`.
fn power_of_x(rt: &impl Abort, alloc: Global, c: i128, exponent: u32) -> Result<Poly, Fail> {
    assert!(rt; c != i128::MIN);
    let one = Poly::constant(alloc, 1)?;
    let mono = Mono::from_pairs(alloc, &[(0, exponent)])?;
    Ok(one.scale(alloc, c, &mono)?)
}

/// What came of an operation: the norm and the degree, or the rule that it breaks.
fn ended(made: Result<Poly, Overrun>) -> Result<(i128, u32), Overrun> {
    made.map(|poly| (poly.norm(), poly.degree()))
}

#[test]
fn calculates(rt: HostRuntime) -> Result<(), Fail> {
    let alloc = rt.alloc();
    let x = Poly::atom(alloc, 0)?;
    let y = Poly::atom(alloc, 1)?;
    let sum = x.add(alloc, &y)?;
    let square = sum.power(alloc, 2)?;
    let xx: &[(u32, u32)] = &[(0, 2)];
    let xy: &[(u32, u32)] = &[(0, 1), (1, 1)];
    let yy: &[(u32, u32)] = &[(1, 2)];
    assert!(rt;
        has_terms(&square, &[(xx, 1), (xy, 2), (yy, 1)]),
        "(x + y)^2: {square:?}"
    );
    assert!(rt;
        square.same(&sum.times(alloc, &sum)?),
        "a square is a product"
    );
    assert!(rt; !square.same(&sum), "x + y is not its square");
    assert_eq!(rt; (square.norm(), square.degree()), (4, 2));

    let rest = square.sub(alloc, &x.times(alloc, &y)?)?;
    assert!(rt;
        has_terms(&rest, &[(xx, 1), (xy, 1), (yy, 1)]),
        "less x*y: {rest:?}"
    );
    let none = square.add(alloc, &square.neg(alloc)?)?;
    assert!(rt; has_terms(&none, &[]), "a sum with its opposite: {none:?}");
    assert!(rt; none.lead().is_none());
    assert!(rt; none.same(&Poly::zero(alloc)));

    let other = x.times(alloc, &sum)?;
    let (at, here, there) = square.first_difference(&other).ok_or("no difference")?;
    assert_eq!(rt;
        (at.pairs(), here, there),
        (xy, 2, 1),
        "x^2 agrees, x*y is greater than y^2"
    );
    assert!(rt; square.first_difference(&square.copy(alloc)?).is_none());
    let (lead, coefficient) = other.lead().ok_or("no lead")?;
    assert_eq!(rt; (lead.pairs(), coefficient), (xx, 1));
    assert_eq!(rt; square.coefficient(at), 2);
    assert_eq!(rt; sum.coefficient(at), 0);
    Ok(())
}

#[test]
fn divides_by_numbers(rt: HostRuntime) -> Result<(), Fail> {
    let alloc = rt.alloc();
    let x: &[(u32, u32)] = &[(0, 1)];
    let poly = power_of_x(&rt, alloc, -12, 1)?.add(alloc, &Poly::constant(alloc, 18)?)?;
    assert_eq!(rt; poly.content(), 6);
    assert_eq!(rt; Poly::zero(alloc).content(), 1);
    assert_eq!(rt; power_of_x(&rt, alloc, -MAX, 3)?.content(), MAX);
    for (d, divides) in [
        (1, true),
        (3, true),
        (6, true),
        (4, false),
        (0, false),
        (-6, false),
    ] {
        assert_eq!(rt; poly.divisible_by(d), divides, "by {d}");
    }
    let once = poly.copy(alloc)?;
    assert!(rt; once.divisible_by(1));
    assert!(rt; once.over_int(alloc, 1)?.same(&poly), "over 1");
    assert!(rt; poly.divisible_by(6));
    let quotient = poly.over_int(alloc, 6)?;
    assert!(rt;
        has_terms(&quotient, &[(x, -2), (&[], 3)]),
        "over 6: {quotient:?}"
    );
    Ok(())
}

#[test]
fn keeps_the_limits(rt: HostRuntime) -> Result<(), Fail> {
    let alloc = rt.alloc();
    let (range, degree) = (Err(Overrun::Range), Err(Overrun::Degree));

    // Each row: two coefficients and two exponents of x, and what becomes of sum and product.
    let rows = [
        ((MAX - 1, 0), (1, 0), Ok((MAX, 0)), Ok((MAX - 1, 0))),
        ((MAX, 0), (1, 1), range, Ok((MAX, 1))),
        ((MAX, 3), (-1, 3), range, Ok((MAX, 6))),
        (
            (1 << 63, 0),
            (1 << 63, 0),
            Ok((1 << 64, 0)),
            Ok((1 << 126, 0)),
        ),
        ((1 << 64, 0), (1 << 63, 1), Ok((3 << 63, 1)), range),
        ((MAX, 1), (MAX, 1), range, range),
        ((1, 500), (1, 500), Ok((2, 500)), Ok((1, 1000))),
        ((1, 500), (1, 501), Ok((2, 501)), degree),
        ((1 << 64, 500), (1 << 63, 501), Ok((3 << 63, 501)), range),
        ((0, 0), (MAX, 1000), Ok((MAX, 1000)), Ok((0, 0))),
        ((MAX, 1000), (0, 0), Ok((MAX, 1000)), Ok((0, 0))),
    ];
    for ((a, m), (b, n), sum, product) in rows {
        let p = power_of_x(&rt, alloc, a, m)?;
        let q = power_of_x(&rt, alloc, b, n)?;
        assert_eq!(rt; ended(p.add(alloc, &q)), sum, "{a}x^{m} + {b}x^{n}");
        assert_eq!(rt; ended(p.times(alloc, &q)), product, "{a}x^{m} * {b}x^{n}");
        assert!(rt; b != i128::MIN);
        let mono = Mono::from_pairs(alloc, &[(0, n)])?;
        assert_eq!(rt;
            ended(p.scale(alloc, b, &mono)),
            product,
            "{b}x^{n} times {a}x^{m}"
        );
    }

    // Each row: a coefficient and an exponent of x, a power, and what becomes of it.
    let powers = [
        ((2, 1), 126, Ok((1 << 126, 126))),
        ((2, 1), 127, range),
        ((-1, 1), 1000, Ok((1, 1000))),
        ((1, 1), 1001, degree),
        ((2, 8), 127, range),
        ((1, 1000), 1, Ok((1, 1000))),
        ((1, 1), u32::MAX, degree),
        ((1, 0), u32::MAX, Ok((1, 0))),
        ((MAX, 1000), 0, Ok((1, 0))),
        ((0, 0), 0, Ok((1, 0))),
        ((0, 0), 5, Ok((0, 0))),
    ];
    for ((c, m), n, want) in powers {
        let p = power_of_x(&rt, alloc, c, m)?;
        assert_eq!(rt; ended(p.power(alloc, n)), want, "({c}x^{m})^{n}");
    }
    Ok(())
}

#[test]
fn sums_by_norms(rt: HostRuntime) -> Result<(), Fail> {
    let alloc = rt.alloc();
    let p = power_of_x(&rt, alloc, MAX, 1)?;
    let minus = Poly::constant(alloc, -MAX)?;
    assert_eq!(rt;
        ended(p.sub(alloc, &p)),
        Err(Overrun::Range),
        "though it would be 0"
    );
    assert_eq!(rt;
        ended(p.add(alloc, &minus)),
        Err(Overrun::Range),
        "norms, not coefficients"
    );
    assert_eq!(rt; ended(minus.sub(alloc, &Poly::zero(alloc))), Ok((MAX, 0)));
    Ok(())
}
