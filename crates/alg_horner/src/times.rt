//! Products of forms, added to a form in its own boxes.

ghost use Rattle.std.specs.Prelude.{◌≡◌, ◌+◌, ◌*◌, ◌≤◌, ◌^◌, IfOk, ℕ, max};
ghost use Rattle.alg_mono.specs.Polynomials.{MAX};
ghost use Rattle.alg_mono.specs.Monomials.{MAX_DEGREE};
ghost use Rattle.alg_horner.specs.Form.{IsCanonical, IsMix, height, span, weight};
ghost use Rattle.alg_horner.specs.Maps.{map_of, placed, power, product, sum};
ghost use Rattle.alg_horner.specs.Trees.{form_of};

use crate::NoMemory;
use crate::accumulate::add_multiple;
use crate::build::{is_zero, place, put, skip};
use crate::horner::{Horner, boxed, filled};
use std::alloc::Global;
use std::cmp::Ordering;
use std::mem;

/// The product of two forms with one first atom.
pub(crate) fn times(alloc: Global, p: &Horner, q: &Horner) -> Result<Box<Horner>, NoMemory>
    requires sound_p { IsCanonical (form_of p.now) }
    requires sound_q { IsCanonical (form_of q.now) }
    requires room_p { span (form_of p.now) ≤ 2 ^ 32 }
    requires room_q { span (form_of q.now) ≤ 2 ^ 32 }
    requires small { height (form_of p.now) + height (form_of q.now) ≤ MAX_DEGREE }
    requires fits { weight (form_of p.now) * weight (form_of q.now) ≤ MAX }
    ensures sound { IfOk result (λ r. IsCanonical (form_of r.value)) }
    ensures map { IfOk result (λ r. (s : ℕ) → map_of s (form_of r.value)
        ≡ product (map_of s (form_of p.now)) (map_of s (form_of q.now))) }
    ensures span { IfOk result (λ r. span (form_of r.value)
        ≤ max (span (form_of p.now)) (span (form_of q.now))) }
    ensures height { IfOk result (λ r. height (form_of r.value)
        ≤ height (form_of p.now) + height (form_of q.now)) }
    ensures weight { IfOk result (λ r. weight (form_of r.value)
        ≤ weight (form_of p.now) * weight (form_of q.now)) }
{
    let none = boxed(alloc, Horner::Const(0))?;
    add_product(alloc, none, 0, p, 0, q)
}

/// The form after `m` of the `l` atoms that `Skip(l, rest)` skips, in the box `slot`.
fn after_some(slot: Box<Horner>, l: u32, m: u32, rest: Box<Horner>) -> Box<Horner>
    requires sound { IsCanonical (form_of rest.value) }
    requires mix { IsMix (form_of rest.value) }
    requires within { m ≤ l }
    ensures sound { IsCanonical (form_of result.value) }
    ensures map { (s : ℕ) → map_of (s + m) (form_of result.value) ≡ map_of (s + l) (form_of rest.value) }
    ensures span { m + span (form_of result.value) ≡ l + span (form_of rest.value) }
    ensures height { height (form_of result.value) ≡ height (form_of rest.value) }
    ensures weight { weight (form_of result.value) ≡ weight (form_of rest.value) }
{
    if m == l {
        return rest;
    }
    filled(slot, Horner::Skip(l - m, rest))
}

/// `total + p*q`, where `p` has `j` and `q` has `k` atoms skipped.
#[cycle(add_product)]
fn add_product(
    alloc: Global,
    total: Box<Horner>,
    j: u32,
    p: &Horner,
    k: u32,
    q: &Horner,
) -> Result<Box<Horner>, NoMemory>
    requires sound { IsCanonical (form_of total.value) }
    requires sound_p { IsCanonical (form_of p.now) }
    requires sound_q { IsCanonical (form_of q.now) }
    requires room { span (form_of total.value) ≤ 2 ^ 32 }
    requires room_p { j + span (form_of p.now) ≤ 2 ^ 32 }
    requires room_q { k + span (form_of q.now) ≤ 2 ^ 32 }
    requires small { height (form_of total.value) ≤ MAX_DEGREE }
    requires small_product { height (form_of p.now) + height (form_of q.now) ≤ MAX_DEGREE }
    requires fits { weight (form_of total.value)
        + weight (form_of p.now) * weight (form_of q.now) ≤ MAX }
    ensures sound { IfOk result (λ r. IsCanonical (form_of r.value)) }
    ensures map { IfOk result (λ r. (s : ℕ) → map_of s (form_of r.value) ≡ sum (map_of s (form_of total.value))
        (product (map_of (s + j) (form_of p.now)) (map_of (s + k) (form_of q.now)))) }
    ensures span { IfOk result (λ r. span (form_of r.value)
        ≤ max (span (form_of total.value)) (max (j + span (form_of p.now)) (k + span (form_of q.now)))) }
    ensures height { IfOk result (λ r. height (form_of r.value)
        ≤ max (height (form_of total.value)) (height (form_of p.now) + height (form_of q.now))) }
    ensures weight { IfOk result (λ r. weight (form_of r.value)
        ≤ weight (form_of total.value) + weight (form_of p.now) * weight (form_of q.now)) }
{
    if is_zero(p) {
        return Ok(total);
    }
    if is_zero(q) {
        return Ok(total);
    }
    match p {
        Horner::Const(c) => {
            if k == 0 {
                return add_multiple(alloc, total, *c, q);
            }
            add_product_later(alloc, total, k, p, k, q)
        }
        Horner::Skip(l, p) => add_product(alloc, total, j + *l, p, k, q),
        Horner::Mix(a, i, b) => match q {
            Horner::Const(d) => {
                if j == 0 {
                    return add_multiple(alloc, total, *d, p);
                }
                add_product_later(alloc, total, j, p, j, q)
            }
            Horner::Skip(l, q) => add_product(alloc, total, j, p, k + *l, q),
            Horner::Mix(c, h, d) => {
                if k == 0 {
                    let total = add_product(alloc, total, j, p, 1, d)?;
                    return add_product_raised(alloc, total, *h, j, p, 0, c);
                }
                if j == 0 {
                    let total = add_product(alloc, total, 1, b, k, q)?;
                    return add_product_raised(alloc, total, *i, 0, a, k, q);
                }
                add_product_later(alloc, total, j, p, k, q)
            }
        },
    }
}

/// `total + p*q`, where neither `p` nor `q` has the first atom.
#[cycle(add_product)]
fn add_product_later(
    alloc: Global,
    total: Box<Horner>,
    j: u32,
    p: &Horner,
    k: u32,
    q: &Horner,
) -> Result<Box<Horner>, NoMemory>
    requires sound { IsCanonical (form_of total.value) }
    requires sound_p { IsCanonical (form_of p.now) }
    requires sound_q { IsCanonical (form_of q.now) }
    requires some_j { 1 ≤ j }
    requires some_k { 1 ≤ k }
    requires room { span (form_of total.value) ≤ 2 ^ 32 }
    requires room_p { j + span (form_of p.now) ≤ 2 ^ 32 }
    requires room_q { k + span (form_of q.now) ≤ 2 ^ 32 }
    requires small { height (form_of total.value) ≤ MAX_DEGREE }
    requires small_product { height (form_of p.now) + height (form_of q.now) ≤ MAX_DEGREE }
    requires fits { weight (form_of total.value)
        + weight (form_of p.now) * weight (form_of q.now) ≤ MAX }
    ensures sound { IfOk result (λ r. IsCanonical (form_of r.value)) }
    ensures map { IfOk result (λ r. (s : ℕ) → map_of s (form_of r.value) ≡ sum (map_of s (form_of total.value))
        (product (map_of (s + j) (form_of p.now)) (map_of (s + k) (form_of q.now)))) }
    ensures span { IfOk result (λ r. span (form_of r.value)
        ≤ max (span (form_of total.value)) (max (j + span (form_of p.now)) (k + span (form_of q.now)))) }
    ensures height { IfOk result (λ r. height (form_of r.value)
        ≤ max (height (form_of total.value)) (height (form_of p.now) + height (form_of q.now))) }
    ensures weight { IfOk result (λ r. weight (form_of r.value)
        ≤ weight (form_of total.value) + weight (form_of p.now) * weight (form_of q.now)) }
{
    let mut slot = total;
    match mem::replace(&mut *slot, Horner::Const(0)) {
        Horner::Const(e) => {
            let m = j.min(k);
            let rest = filled(slot, Horner::Const(e));
            let sum = add_product(alloc, rest, j - m, p, k - m, q)?;
            skip(alloc, m, sum)
        }
        Horner::Skip(l, rest) => {
            let m = l.min(j).min(k);
            let rest = after_some(slot, l, m, rest);
            let sum = add_product(alloc, rest, j - m, p, k - m, q)?;
            skip(alloc, m, sum)
        }
        Horner::Mix(e, g, f) => {
            let rest = add_product(alloc, f, j - 1, p, k - 1, q)?;
            put(alloc, slot, e, g, rest)
        }
    }
}

/// `total + p*q*X^h` with `X` the first atom.
#[cycle(add_product)]
fn add_product_raised(
    alloc: Global,
    total: Box<Horner>,
    h: u32,
    j: u32,
    p: &Horner,
    k: u32,
    q: &Horner,
) -> Result<Box<Horner>, NoMemory>
    requires sound { IsCanonical (form_of total.value) }
    requires sound_p { IsCanonical (form_of p.now) }
    requires sound_q { IsCanonical (form_of q.now) }
    requires some { 1 ≤ h }
    requires room { span (form_of total.value) ≤ 2 ^ 32 }
    requires room_p { j + span (form_of p.now) ≤ 2 ^ 32 }
    requires room_q { k + span (form_of q.now) ≤ 2 ^ 32 }
    requires small { height (form_of total.value) ≤ MAX_DEGREE }
    requires small_product { h + height (form_of p.now) + height (form_of q.now) ≤ MAX_DEGREE }
    requires fits { weight (form_of total.value)
        + weight (form_of p.now) * weight (form_of q.now) ≤ MAX }
    ensures sound { IfOk result (λ r. IsCanonical (form_of r.value)) }
    ensures map { IfOk result (λ r. (s : ℕ) → map_of s (form_of r.value) ≡ sum (map_of s (form_of total.value))
        (product (product (map_of (s + j) (form_of p.now)) (map_of (s + k) (form_of q.now))) (power s h))) }
    ensures span { IfOk result (λ r. span (form_of r.value)
        ≤ max (max (span (form_of total.value)) 1) (max (j + span (form_of p.now)) (k + span (form_of q.now)))) }
    ensures height { IfOk result (λ r. height (form_of r.value)
        ≤ max (height (form_of total.value)) (h + height (form_of p.now) + height (form_of q.now))) }
    ensures weight { IfOk result (λ r. weight (form_of r.value)
        ≤ weight (form_of total.value) + weight (form_of p.now) * weight (form_of q.now)) }
{
    if let Horner::Mix(a, i, b) = p {
        if j == 0 && is_zero(b) {
            return add_product_raised(alloc, total, h + *i, 0, a, k, q);
        }
    }
    let mut slot = total;
    match mem::replace(&mut *slot, Horner::Const(0)) {
        Horner::Const(e) => {
            let rest = filled(slot, Horner::Const(e));
            product_before(alloc, rest, h, j, p, k, q)
        }
        Horner::Skip(l, rest) => {
            let rest = after_some(slot, l, 1, rest);
            product_before(alloc, rest, h, j, p, k, q)
        }
        Horner::Mix(e, g, f) => match g.cmp(&h) {
            Ordering::Equal => {
                let head = add_product(alloc, e, j, p, k, q)?;
                put(alloc, slot, head, h, f)
            }
            Ordering::Less => {
                let head = add_product_raised(alloc, e, h - g, j, p, k, q)?;
                put(alloc, slot, head, g, f)
            }
            Ordering::Greater => {
                let none = boxed(alloc, Horner::Const(0))?;
                let higher = boxed(alloc, Horner::Mix(e, g - h, none))?;
                let head = add_product(alloc, higher, j, p, k, q)?;
                put(alloc, slot, head, h, f)
            }
        },
    }
}

/// `p*q*X^h + total` with `X` the first atom and `total` in the later ones.
#[cycle(add_product)]
fn product_before(
    alloc: Global,
    total: Box<Horner>,
    h: u32,
    j: u32,
    p: &Horner,
    k: u32,
    q: &Horner,
) -> Result<Box<Horner>, NoMemory>
    requires sound { IsCanonical (form_of total.value) }
    requires sound_p { IsCanonical (form_of p.now) }
    requires sound_q { IsCanonical (form_of q.now) }
    requires some { 1 ≤ h }
    requires room { 1 + span (form_of total.value) ≤ 2 ^ 32 }
    requires room_p { j + span (form_of p.now) ≤ 2 ^ 32 }
    requires room_q { k + span (form_of q.now) ≤ 2 ^ 32 }
    requires small { height (form_of total.value) ≤ MAX_DEGREE }
    requires small_product { h + height (form_of p.now) + height (form_of q.now) ≤ MAX_DEGREE }
    requires fits { weight (form_of total.value)
        + weight (form_of p.now) * weight (form_of q.now) ≤ MAX }
    ensures sound { IfOk result (λ r. IsCanonical (form_of r.value)) }
    ensures map { IfOk result (λ r. (s : ℕ) → map_of s (form_of r.value) ≡ placed s h
        (product (map_of (s + j) (form_of p.now)) (map_of (s + k) (form_of q.now)))
        (map_of (s + 1) (form_of total.value))) }
    ensures span { IfOk result (λ r. span (form_of r.value)
        ≤ max (1 + span (form_of total.value)) (max (j + span (form_of p.now)) (k + span (form_of q.now)))) }
    ensures height { IfOk result (λ r. height (form_of r.value)
        ≤ max (height (form_of total.value)) (h + height (form_of p.now) + height (form_of q.now))) }
    ensures weight { IfOk result (λ r. weight (form_of r.value)
        ≤ weight (form_of total.value) + weight (form_of p.now) * weight (form_of q.now)) }
{
    let none = boxed(alloc, Horner::Const(0))?;
    let head = add_product(alloc, none, j, p, k, q)?;
    place(alloc, 0, head, h, total)
}
