//! One combination of two polynomials, divided by a number.

ghost use Rattle.std.specs.Prelude.{◌≡◌, ◌<◌, ◌*◌, IfOk};
ghost use Rattle.std.specs.Int.RustNames.{unsigned_abs};
ghost use Rattle.alg_mono.specs.Outcomes.{combine_outcome};
ghost use Rattle.alg_mono.specs.Polynomials.{MAX, norm};
ghost use Rattle.alg_lines.specs.Lines.{combination};
ghost use Rattle.alg_check.specs.Checking.{IsFactor, Makes, IsQuotient};

use crate::given::is_zero;
use alg_lines::combine;
use alg_mono::{Mono, NoMemory, Overrun};
use alg_poly::Poly;
use std::alloc::Global;

/// A factor of a polynomial, which is 0 where the polynomial is 0.
fn factor_of(c: i128, p: &Poly) -> i128
    ensures factor { IsFactor c p.now result }
    ensures least { result ≡ i128.MIN → MAX < unsigned_abs c * norm p.now }
{
    // Its contract says that the terms are those of a polynomial.
    p.terms();
    if is_zero(p) { 0 } else { c }
}

/// `a*m*p - b*n*q`, whatever the factors are.
fn combine_any(
    alloc: Global,
    a: i128,
    m: &Mono,
    p: &Poly,
    b: i128,
    n: &Mono,
    q: &Poly,
) -> Result<Poly, Overrun>
    ensures { Makes (combine_outcome a m.now p.now b n.now q.now)
        (combination a m.now p.now b n.now q.now) result }
{
    let left = factor_of(a, p);
    let right = factor_of(b, q);
    if left == i128::MIN || right == i128::MIN {
        return Err(Overrun::Range);
    }
    combine(alloc, left, m, p, right, n, q)
}

/// The polynomial that `d` times is `a*m*p - b*n*q`, and none where making that breaks a rule or `d`
/// does not divide it.
pub fn divided(
    alloc: Global,
    a: i128,
    m: &Mono,
    p: &Poly,
    b: i128,
    n: &Mono,
    q: &Poly,
    d: i128,
) -> Result<Option<Poly>, NoMemory>
    ensures { IfOk result (IsQuotient (combine_outcome a m.now p.now b n.now q.now)
        (combination a m.now p.now b n.now q.now) d) }
{
    let sum = match combine_any(alloc, a, m, p, b, n, q) {
        Ok(sum) => sum,
        Err(Overrun::Range | Overrun::Degree) => return Ok(None),
        Err(Overrun::NoMemory) => return Err(NoMemory),
    };
    if !sum.divisible_by(d) {
        return Ok(None);
    }
    let quotient = sum.over_int(alloc, d)?;
    // Its contract says that the terms are those of a polynomial.
    quotient.terms();
    Ok(Some(quotient))
}
