use super::*;
use std::cmp::Ordering;
use std::test::Fail;

// The monomials of degree at most 2 in x, y and z, rising in grevlex as textbooks list them.
const RISING: [&[(u32, u32)]; 10] = [
    &[],
    &[(2, 1)],
    &[(1, 1)],
    &[(0, 1)],
    &[(2, 2)],
    &[(1, 1), (2, 1)],
    &[(0, 1), (2, 1)],
    &[(1, 2)],
    &[(0, 1), (1, 1)],
    &[(0, 2)],
];

#[test]
fn textbook_order_of_degree_two(rt: HostRuntime) -> Result<(), Fail> {
    let alloc = rt.alloc();
    for (i, left) in RISING.iter().enumerate() {
        for (j, right) in RISING.iter().enumerate() {
            let a = Mono::from_pairs(alloc, left)?;
            let b = Mono::from_pairs(alloc, right)?;
            assert_eq!(rt; a.cmp_grevlex(&b), i.cmp(&j), "{left:?} and {right:?}");
            assert_eq!(rt; a.same(&b), i == j, "{left:?} is {right:?}");
        }
    }
    Ok(())
}

// Each row: pairs as they come, and the monomial, or none where the degree is over 1,000.
const COLLECTED: [(&[(u32, u32)], Option<&[(u32, u32)]>); 7] = [
    (&[], Some(&[])),
    (&[(3, 0), (5, 0)], Some(&[])),
    (&[(5, 2), (3, 1), (5, 4)], Some(&[(3, 1), (5, 6)])),
    (&[(7, 1000)], Some(&[(7, 1000)])),
    (&[(7, 1000), (8, 1)], None),
    (&[(7, 1000), (8, 0)], Some(&[(7, 1000)])),
    (&[(7, 4294967295), (7, 4294967295)], None),
];

#[test]
fn pairs_add_up_and_zeros_drop_out(rt: HostRuntime) -> Result<(), Fail> {
    for (pairs, want) in COLLECTED {
        match (Mono::from_pairs(rt.alloc(), pairs), want) {
            (Ok(mono), Some(want)) => assert_eq!(rt; mono.pairs(), want, "{pairs:?}"),
            (Err(MonoEnd::Degree), None) => (),
            (_, _) => assert!(rt; false, "{pairs:?}"),
        }
    }
    Ok(())
}

// x^6*y, x^2*y^3*z, and what comes of them.
#[test]
fn products_quotients_and_multiples(rt: HostRuntime) -> Result<(), Fail> {
    let alloc = rt.alloc();
    let a = Mono::from_pairs(alloc, &[(0, 6), (1, 1)])?;
    let b = Mono::from_pairs(alloc, &[(0, 2), (1, 3), (2, 1)])?;
    let product = a.times(alloc, &b)?;
    let multiple = a.lcm(alloc, &b)?;
    assert_eq!(rt; product.pairs(), [(0, 8), (1, 4), (2, 1)].as_slice());
    assert_eq!(rt; multiple.pairs(), [(0, 6), (1, 3), (2, 1)].as_slice());
    assert_eq!(rt;
        (
            multiple.degree(),
            multiple.exponent(1),
            multiple.exponent(3)
        ),
        (10, 3, 0)
    );
    assert_eq!(rt; (a.divides(&multiple), multiple.divides(&a)), (true, false));
    if a.divides(&multiple) {
        let rest = multiple.over(alloc, &a)?;
        assert_eq!(rt; rest.pairs(), [(1, 2), (2, 1)].as_slice());
    }
    let one = Mono::one(alloc);
    assert!(rt; one.times(alloc, &b)?.copy(alloc)?.same(&b));
    Ok(())
}

// x^600 with x^400 and with x^401, and the least common multiples with y.
#[test]
fn degree_1000_is_the_last(rt: HostRuntime) -> Result<(), Fail> {
    let alloc = rt.alloc();
    let a = Mono::from_pairs(alloc, &[(0, 600)])?;
    for (exponent, fits) in [(400, true), (401, false)] {
        let x = Mono::from_pairs(alloc, &[(0, exponent)])?;
        let y = Mono::from_pairs(alloc, &[(1, exponent)])?;
        assert_eq!(rt; a.times(alloc, &x).is_ok(), fits, "x^600 by x^{exponent}");
        assert_eq!(rt; a.lcm(alloc, &y).is_ok(), fits, "x^600 with y^{exponent}");
        assert!(rt; a.lcm(alloc, &x).is_ok(), "x^600 with x^{exponent}");
    }
    Ok(())
}

#[test]
fn the_laws_are_called() {
    laws::polynomials_are_maps();
    laws::polynomials_are_a_ring();
    laws::no_zero_divisors();
    laws::grevlex_is_its_words();
    laws::division_is_by_products();
    laws::lcm_is_least();
    laws::outcomes_say();
}
