//! The factors that take two leads away.

ghost use Rattle.std.specs.Prelude.{◌≡◌, ◌≢◌, ◌≤◌, ℤ, pos, ◌<ℤ◌};
ghost use Rattle.std.specs.Int.RustNames.{unsigned_abs};
ghost use Rattle.alg_mono.specs.Polynomials.{MAX};
ghost use Rattle.alg_groebner.specs.Cancelling.{left_factor, right_factor};
ghost use Rattle.alg_groebner.specs.Divisors.{common};

use alg_poly::greatest_divisor;

/// The greatest common divisor of two numbers.
fn divisor(u: i128, v: i128) -> i128
    requires some { u ≢ pos 0 }
    requires u_fits { unsigned_abs u ≤ MAX }
    ensures value { result ≡ pos (common u v) }
    ensures positive { pos 0 <ℤ result }
{
    greatest_divisor(u.unsigned_abs(), v.unsigned_abs()) as i128
}

/// The factor of the polynomial whose leading coefficient is `u`.
pub(crate) fn left(u: i128, v: i128) -> i128
    requires some { u ≢ pos 0 }
    requires u_fits { unsigned_abs u ≤ MAX }
    requires v_fits { unsigned_abs v ≤ MAX }
    ensures value { result ≡ left_factor u v }
    ensures fits { unsigned_abs result ≤ MAX }
{
    v.abs() / divisor(u, v)
}

/// The factor of the other, whose leading coefficient is `v`.
pub(crate) fn right(u: i128, v: i128) -> i128
    requires some { u ≢ pos 0 }
    requires u_fits { unsigned_abs u ≤ MAX }
    requires v_fits { unsigned_abs v ≤ MAX }
    ensures value { result ≡ right_factor u v }
    ensures fits { unsigned_abs result ≤ MAX }
{
    let b = u / divisor(u, v);
    if v < 0 { -b } else { b }
}
