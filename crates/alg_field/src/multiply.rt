//! A polynomial times a product of factors, within the limits.

ghost use Rattle.std.specs.Prelude.{◌≡◌, ◌+◌, ◌*◌, ◌^◌, ◌≤◌, IfOk};
ghost use Rattle.alg_mono.specs.Monomials.{MAX_DEGREE};
ghost use Rattle.alg_mono.specs.NumberedPolynomials.{power_of, product_of};
ghost use Rattle.alg_mono.specs.Outcomes.{Outcome};
ghost use Rattle.alg_mono.specs.Polynomials.{MAX, norm, poly_degree};
ghost use Rattle.alg_meaning.specs.FractionRules.{over_outcome};
ghost use Rattle.alg_reify.specs.FactorMaps.{product};
ghost use Rattle.alg_field.specs.Lists.{IsList};
ghost use Rattle.alg_field.specs.Within.{IsWithin};

use crate::constants::is_zero;
use crate::lists::Factor;
use crate::{HornerPoly, NoMemory};
use alg_mono::Overrun;
use std::alloc::Global;

/// A power within the limits.
fn power(alloc: Global, q: &HornerPoly, e: u32) -> Result<HornerPoly, NoMemory>
    requires norms { norm q.now ^ e ≤ MAX }
    requires degrees { e * poly_degree q.now ≤ MAX_DEGREE }
    ensures { IfOk result (λ r. r ≡ power_of q.now e) }
{
    match q.power(alloc, e) {
        Ok(power) => Ok(power),
        Err(Overrun::NoMemory) => Err(NoMemory),
        Err(_) => unreachable!(),
    }
}

/// A product within the limits.
pub(crate) fn times(alloc: Global, p: &HornerPoly, q: &HornerPoly) -> Result<HornerPoly, NoMemory>
    requires norms { norm p.now * norm q.now ≤ MAX }
    requires degrees { poly_degree p.now + poly_degree q.now ≤ MAX_DEGREE }
    ensures { IfOk result (λ r. r ≡ product_of p.now q.now) }
{
    match p.times(alloc, q) {
        Ok(product) => Ok(product),
        Err(Overrun::NoMemory) => Err(NoMemory),
        Err(_) => unreachable!(),
    }
}

/// A polynomial times the powers of the factors, one after the other.
fn times_powers(alloc: Global, p: HornerPoly, list: &[Factor]) -> Result<HornerPoly, NoMemory>
    requires { IsWithin p list.now }
    ensures { IfOk result (λ r. r ≡ product_of p (product list.now)) }
{
    let mut out = p;
    for factor in list {
        let power = power(alloc, &factor.0, factor.1)?;
        out = times(alloc, &out, &power)?;
    }
    Ok(out)
}

/// A polynomial times the product of the factors.
pub(crate) fn multiplied(
    alloc: Global,
    p: HornerPoly,
    list: &[Factor],
) -> Result<HornerPoly, NoMemory>
    requires list { IsList list.now }
    requires fine { over_outcome p list.now ≡ Outcome.Fine }
    ensures { IfOk result (λ r. r ≡ product_of p (product list.now)) }
{
    if is_zero(&p) {
        return Ok(p);
    }
    times_powers(alloc, p, list)
}
