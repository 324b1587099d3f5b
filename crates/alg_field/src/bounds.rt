//! Which rule a product breaks, found by bounds on its norm and degree before anything is made.

ghost use Rattle.std.specs.Prelude.{◌≡◌, ◌+◌, ◌*◌, ◌^◌, ◌<◌, ◌≤◌, ℕ};
ghost use Rattle.alg_mono.specs.Monomials.{MAX_DEGREE};
ghost use Rattle.alg_mono.specs.Outcomes.{outcome};
ghost use Rattle.alg_mono.specs.Polynomials.{MAX, norm};
ghost use Rattle.alg_meaning.specs.FractionRules.{over_outcome};
ghost use Rattle.alg_field.specs.Lists.{IsList};
ghost use Rattle.alg_field.specs.Rules.{outcome_of, IsBound};
ghost use Rattle.alg_reify.specs.FactorMaps.{norms, degrees};

use crate::HornerPoly;
use crate::constants::is_zero;
use crate::lists::Factor;
use crate::rules::{Rule, rule_of};

/// The greatest norm of a polynomial.
const GREATEST_NORM: u128 = i128::MAX as u128;

/// The greatest degree of a polynomial.
const GREATEST_DEGREE: u32 = 1000;

/// The norm, without a sign.
fn size(p: &HornerPoly) -> u128
    ensures sum { result ≡ norm p.now }
    ensures small { result ≤ MAX }
{
    p.norm().unsigned_abs()
}

/// A bound times the power of a norm.
fn scaled_by(bound: u128, size: u128, e: u32) -> Option<u128>
    requires { 0 < bound }
    ensures { IsBound MAX (bound * size ^ e) result }
{
    match size.checked_pow(e) {
        Some(power) => match bound.checked_mul(power) {
            Some(n) if n <= GREATEST_NORM => Some(n),
            _ => None,
        },
        None => None,
    }
}

/// A bound times the norms of the factors.
fn norm_bound(bound: u128, list: &[Factor]) -> Option<u128>
    requires start { (0 < bound) × (bound ≤ MAX) }
    requires list { IsList list.now }
    ensures { IsBound MAX (bound * norms list.now) result }
{
    let mut out = bound;
    for factor in list {
        match scaled_by(out, size(&factor.0), factor.1) {
            Some(n) => out = n,
            None => return None,
        }
    }
    Some(out)
}

/// A degree with those of the factors added.
fn degree_bound(start: u32, list: &[Factor]) -> Option<u32>
    requires start { start ≤ MAX_DEGREE }
    requires list { IsList list.now }
    ensures { IsBound MAX_DEGREE (start + degrees list.now) result }
{
    let mut out = start;
    for factor in list {
        out += factor.1 * factor.0.degree();
        if out > GREATEST_DEGREE {
            return None;
        }
    }
    Some(out)
}

/// Which rule a polynomial times factors, made as one product, breaks.
pub(crate) fn over_rule(p: &HornerPoly, list: &[Factor]) -> Rule
    requires { IsList list.now }
    ensures { outcome_of result ≡ over_outcome p.now list.now }
{
    if is_zero(p) {
        return Rule::Fine;
    }
    rule_of(norm_bound(size(p), list), degree_bound(p.degree(), list))
}

/// The norms of the factors of two lists.
fn joined_norm(a: &[Factor], b: &[Factor]) -> Option<u128>
    requires a { IsList a.now }
    requires b { IsList b.now }
    ensures { IsBound MAX (norms a.now * norms b.now) result }
{
    match norm_bound(1, a) {
        Some(bound) => norm_bound(bound, b),
        None => None,
    }
}

/// The degrees of the factors of two lists.
fn joined_degree(a: &[Factor], b: &[Factor]) -> Option<u32>
    requires a { IsList a.now }
    requires b { IsList b.now }
    ensures { IsBound MAX_DEGREE (degrees a.now + degrees b.now) result }
{
    match degree_bound(0, a) {
        Some(bound) => degree_bound(bound, b),
        None => None,
    }
}

/// Which rule the product of the factors of two lists breaks.
pub(crate) fn joined_rule(a: &[Factor], b: &[Factor]) -> Rule
    requires a { IsList a.now }
    requires b { IsList b.now }
    ensures { outcome_of result
        ≡ outcome (norms a.now * norms b.now) (degrees a.now + degrees b.now) }
{
    rule_of(joined_norm(a, b), joined_degree(a, b))
}

/// The norms of the factors, to a power of at least 1.
fn power_norm(list: &[Factor], n: u32) -> Option<u128>
    requires some { 0 < n }
    requires list { IsList list.now }
    ensures { IsBound MAX (norms list.now ^ n) result }
{
    match norm_bound(1, list) {
        Some(bound) => scaled_by(1, bound, n),
        None => None,
    }
}

/// The degrees of the factors, so many times and at least once.
fn power_degree(list: &[Factor], n: u32) -> Option<u32>
    requires some { 0 < n }
    requires list { IsList list.now }
    ensures { IsBound MAX_DEGREE (n * degrees list.now) result }
{
    match degree_bound(0, list) {
        Some(bound) => match bound.checked_mul(n) {
            Some(degree) if degree <= GREATEST_DEGREE => Some(degree),
            _ => None,
        },
        None => None,
    }
}

/// Which rule a power of the product of the factors breaks.
pub(crate) fn power_rule(list: &[Factor], n: u32) -> Rule
    requires { IsList list.now }
    ensures { outcome_of result ≡ outcome (norms list.now ^ n) (n * degrees list.now) }
{
    if n == 0 {
        return Rule::Fine;
    }
    rule_of(power_norm(list, n), power_degree(list, n))
}
