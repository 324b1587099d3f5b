//! Lists of factors with exponents, in any order.

ghost use Rattle.std.specs.Prelude.{◌≡◌, ◌+◌, ◌*◌, ◌≤◌, ◌++◌, ◌∷◌, [], IfOk, OnOk, length};
ghost use Rattle.alg_mono.specs.Monomials.{scaled};
ghost use Rattle.alg_mono.specs.NumberedPolynomials.{Polynomial};
ghost use Rattle.alg_reify.specs.FactorMaps.{exponent_of};
ghost use Rattle.alg_field.specs.Lists.{IsList, MAX_POWER, put, put_all, beyond, place_of};

use crate::{HornerPoly, NoMemory};
use std::alloc::Global;

/// A factor with its exponent.
pub(crate) type Factor = (HornerPoly, u32);

/// The exponent of a factor, and 0 where the list does not have it. It takes no memory.
pub(crate) fn exponent(list: &[Factor], q: &HornerPoly) -> u32
    requires { IsList list.now }
    ensures { result ≡ exponent_of q.now list.now }
{
    for factor in list {
        if factor.0.same(q) {
            return factor.1;
        }
    }
    0
}

/// Appends a copy of a factor with an exponent of its own.
fn push_factor(alloc: Global, out: &mut Vec<Factor>, q: &HornerPoly, e: u32) -> Result<(), NoMemory>
    ensures { OnOk result (out.new.items ≡ out.old.items ++ (q.now, e) ∷ []) }
{
    out.push((q.copy(alloc)?, e))?;
    Ok(())
}

/// What `list` has beyond `other`.
pub(crate) fn what_is_beyond(
    alloc: Global,
    other: &[Factor],
    list: &[Factor],
) -> Result<Vec<Factor>, NoMemory>
    requires other { IsList other.now }
    ensures { IfOk result (λ v. v.items ≡ beyond other.now list.now) }
{
    let mut out = Vec::new(alloc);
    for factor in list {
        let left = factor.1.saturating_sub(exponent(other, &factor.0));
        if left > 0 {
            push_factor(alloc, &mut out, &factor.0, left)?;
        }
    }
    Ok(out)
}

/// The place of a factor, and the number of factors where the list does not have it.
fn place(list: &[Factor], q: &HornerPoly) -> usize
    ensures place { result ≡ place_of q.now list.now }
    ensures within { result ≤ length list.now }
{
    for (i, factor) in list.iter().enumerate() {
        if factor.0.same(q) {
            return i;
        }
    }
    list.len()
}

/// Puts `e` more at a factor.
fn put_factor(list: &mut Vec<Factor>, q: HornerPoly, e: u32) -> Result<(), NoMemory>
    requires list { IsList list.old.items }
    requires within { exponent_of q list.old.items + e ≤ MAX_POWER }
    ensures { OnOk result (list.new.items ≡ put q e list.old.items) }
{
    let at = place(list, &q);
    if at < list.len() {
        list[at].1 += e;
        return Ok(());
    }
    list.push((q, e))?;
    Ok(())
}

/// Puts each factor of a list into another.
pub(crate) fn put_factors(
    alloc: Global,
    out: &mut Vec<Factor>,
    list: &[Factor],
) -> Result<(), NoMemory>
    requires out { IsList out.old.items }
    requires list { IsList list.now }
    requires within { (q : Polynomial) →
        exponent_of q out.old.items + exponent_of q list.now ≤ MAX_POWER }
    ensures { OnOk result (out.new.items ≡ put_all out.old.items list.now) }
{
    for factor in list {
        let q = factor.0.copy(alloc)?;
        put_factor(out, q, factor.1)?;
    }
    Ok(())
}

/// Each exponent `n` times. It takes no memory.
pub(crate) fn scale(list: &mut Vec<Factor>, n: u32)
    requires { (q : Polynomial) → exponent_of q list.old.items * n ≤ MAX_POWER }
    ensures { list.new.items ≡ scaled n list.old.items }
{
    for i in 0..list.len() {
        list[i].1 *= n;
    }
}
