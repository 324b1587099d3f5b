//! The canonical forms of small polynomials, what is refused, and calls on deep and large forms.

ghost use Rattle.std.specs.Prelude.{◌≤◌};
ghost use Rattle.std.specs.Int.RustNames.{unsigned_abs};
ghost use Rattle.alg_mono.specs.Polynomials.{MAX};

use alg_horner::{HornerPoly, Overrun};
use std::alloc::Global;
use std::test::Fail;

/// A polynomial as its terms: the atoms with their exponents, and the coefficient.
type Terms = &'static [(&'static [(u32, u32)], i128)];

/// The sum of the terms.
fn polynomial(alloc: Global, terms: Terms) -> Result<HornerPoly, Overrun> {
    let mut sum = HornerPoly::constant(0);
    for (pairs, c) in terms {
        let mut term = HornerPoly::constant(1);
        for (atom, exponent) in *pairs {
            let power = HornerPoly::atom(alloc, *atom)?.power(alloc, *exponent)?;
            term = term.times(alloc, &power)?;
        }
        for _ in 0..*c {
            sum = sum.add(alloc, &term)?;
        }
    }
    Ok(sum)
}

// Each row: the terms, the greatest monomial first, and the canonical form.
const FORMS: [(Terms, &str); 5] = [
    (&[], "Const(0)"),
    (&[(&[], 7)], "Const(7)"),
    (
        &[(&[(0, 2)], 1), (&[(0, 1), (1, 1)], 2), (&[(1, 2)], 1)],
        "Mix(Mix(Const(1), 1, Mix(Const(2), 1, Const(0))), 1, Mix(Const(1), 2, Const(0)))",
    ),
    (&[(&[(2, 1)], 1)], "Skip(2, Mix(Const(1), 1, Const(0)))"),
    (
        &[(&[(0, 1), (2, 1)], 1)],
        "Mix(Skip(2, Mix(Const(1), 1, Const(0))), 1, Const(0))",
    ),
];

#[test]
fn canonical_forms(rt: HostRuntime) -> Result<(), Fail> {
    let alloc = rt.alloc();
    for (terms, want) in FORMS {
        let p = polynomial(alloc, terms)?;
        let shown = format!(in alloc; "{:?}", p.form())?;
        assert_eq!(rt; shown.as_str(), want);
    }
    Ok(())
}

#[test]
fn terms_fall_in_grevlex(rt: HostRuntime) -> Result<(), Fail> {
    let alloc = rt.alloc();
    for (terms, form) in FORMS {
        let listed = polynomial(alloc, terms)?.terms(alloc)?;
        assert_eq!(rt; listed.len(), terms.len(), "{form}");
        for (term, want) in listed.iter().zip(terms) {
            assert_eq!(rt; term.0.pairs(), want.0, "{form}");
            assert_eq!(rt; term.1, want.1, "{form}");
        }
    }
    Ok(())
}

/// The end of a product of two polynomials of one term: a coefficient and the power of an atom.
fn product_end(alloc: Global, c: i128, i: u32, d: i128, j: u32) -> Result<(), Overrun>
    requires small_c { unsigned_abs c ≤ MAX }
    requires small_d { unsigned_abs d ≤ MAX }
{
    let x = HornerPoly::atom(alloc, 0)?.power(alloc, i)?;
    let y = HornerPoly::atom(alloc, 1)?.power(alloc, j)?;
    let p = HornerPoly::constant(c).times(alloc, &x)?;
    let q = HornerPoly::constant(d).times(alloc, &y)?;
    let _product = p.times(alloc, &q)?;
    Ok(())
}

#[test]
fn the_norm_is_tested_before_the_degree(rt: HostRuntime) -> Result<(), Fail> {
    let large: i128 = 1 << 64;
    let rows = [
        (large, 600, large, 600, Err(Overrun::Range)),
        (large, 600, 1, 600, Err(Overrun::Degree)),
        (large, 500, large / 2 - 1, 500, Ok(())),
        (large, 500, large / 2, 500, Err(Overrun::Range)),
        (0, 600, large, 600, Ok(())),
    ];
    for (c, i, d, j, want) in rows {
        assert_eq!(rt;
            product_end(rt.alloc(), c, i, d, j),
            want,
            "{c} x^{i}, {d} y^{j}"
        );
    }
    Ok(())
}

/// A form of about 3,000 nodes on its longest way: powers of one atom over a sum of `atoms` others.
fn deep(alloc: Global, atoms: u32, steps: u32) -> Result<HornerPoly, Overrun> {
    let mut sum = HornerPoly::constant(0);
    for k in 0..atoms {
        let x = HornerPoly::atom(alloc, (k % 10000) * 2 + 2)?;
        sum = x.add(alloc, &sum)?;
    }
    let x = HornerPoly::atom(alloc, 0)?;
    let one = HornerPoly::constant(1);
    for _ in 0..steps {
        let more = sum.times(alloc, &x)?;
        sum = more.add(alloc, &one)?;
    }
    Ok(sum)
}

/// What came of all calls on a deep form: the norm, and the number of terms.
fn calls(alloc: Global) -> Result<(i128, usize), Overrun> {
    let f = deep(alloc, 1000, 999)?;
    let g = f.copy(alloc)?;
    let d = f.sub(alloc, &g)?;
    let s = f.add(alloc, &g)?;
    let n = s.neg(alloc)?;
    let three = HornerPoly::constant(3);
    let t = n.times(alloc, &three)?;
    let u = three.times(alloc, &n)?;
    let p = u.power(alloc, 1)?;
    let list = p.terms(alloc)?;
    let part = deep(alloc, 1000, 99)?;
    let square = part.times(alloc, &part)?;
    if t.same(&p) && d.norm() == 0 && p.degree() == 1000 && square.degree() == 200 {
        return Ok((t.norm(), list.len()));
    }
    Ok((0, 0))
}

#[test]
fn deep_forms_are_calculated_with(rt: HostRuntime) -> Result<(), Fail> {
    let made = calls(rt.alloc());
    assert_eq!(rt; made, Ok((11994, 1999)));
    Ok(())
}

/// The sum of five atoms to the `n`.
fn sum_to(alloc: Global, n: u32) -> Result<HornerPoly, Overrun> {
    let mut sum = HornerPoly::constant(0);
    for k in 0..5 {
        sum = sum.add(alloc, &HornerPoly::atom(alloc, k)?)?;
    }
    sum.power(alloc, n)
}

/// Whether a power is the product of its halves, and its norm.
fn halves(alloc: Global) -> Result<(bool, i128), Overrun> {
    let whole = sum_to(alloc, 24)?;
    let half = sum_to(alloc, 12)?;
    let product = half.times(alloc, &half)?;
    Ok((product.same(&whole), whole.norm()))
}

#[test]
fn a_power_is_the_product_of_its_halves(rt: HostRuntime) -> Result<(), Fail> {
    // 5^24
    assert_eq!(rt; halves(rt.alloc()), Ok((true, 59604644775390625)));
    Ok(())
}
