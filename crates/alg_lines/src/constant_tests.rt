//! The constants of small certificates.

use crate::{Cert, GoalStep, Line, NoMemory, constants_of};
use alg_mono::Mono;
use alg_terms::Seq;
use std::alloc::Global;
use std::test::Fail;

// Lines with these divisors, and steps with these factors and the divisor 7.
fn certificate(alloc: Global, divisors: &[i128], factors: &[i128]) -> Result<Cert, NoMemory> {
    let mut lines = Vec::new(alloc);
    for &d in divisors {
        let (m, n) = (Mono::one(alloc), Mono::one(alloc));
        lines.push(Line {
            a: 9,
            m,
            i: 1,
            b: 8,
            n,
            j: 1,
            d,
        })?;
    }
    let mut steps = Vec::new(alloc);
    for &a in factors {
        let n = Mono::one(alloc);
        steps.push(GoalStep {
            a,
            b: 8,
            n,
            j: 1,
            d: 7,
        })?;
    }
    Ok(Cert {
        power: 1,
        lines: Seq::from_vec(lines),
        steps: Seq::from_vec(steps),
    })
}

#[test]
fn constants_rise_and_each_is_told_once(rt: HostRuntime) -> Result<(), Fail> {
    for (divisors, factors, char0, want) in [
        (&[][..], &[][..], false, &[][..]),
        (&[1, 1][..], &[1][..], false, &[][..]),
        (&[3, 2, 3][..], &[5, 2, 1][..], false, &[2, 3, 5][..]),
        (&[3, 2, 3][..], &[5, 2, 1][..], true, &[][..]),
        (&[][..], &[i128::MAX, 0, -4][..], false, &[i128::MAX][..]),
    ] {
        let cert = certificate(rt.alloc(), divisors, factors)?;
        let constants = constants_of(rt.alloc(), &cert, char0)?;
        assert_eq!(rt;
            constants.as_slice(),
            want,
            "{divisors:?} {factors:?} {char0}"
        );
    }
    Ok(())
}
