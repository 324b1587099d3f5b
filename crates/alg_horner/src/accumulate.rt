//! Multiples of a form, added to another in its own boxes.

ghost use Rattle.std.specs.Prelude.{◌≡◌, ◌+◌, ◌*◌, ◌≤◌, ◌^◌, ◌+ℤ◌, ◌*ℤ◌, IfOk, ℕ, max};
ghost use Rattle.std.specs.Int.RustNames.{unsigned_abs};
ghost use Rattle.alg_mono.specs.Monomials.{MAX_DEGREE};
ghost use Rattle.alg_mono.specs.Polynomials.{MAX};
ghost use Rattle.alg_horner.specs.Form.{IsCanonical, height, span, weight};
ghost use Rattle.alg_horner.specs.Maps.{map_of, sum, product, constant};
ghost use Rattle.alg_horner.specs.Trees.{form_of};

use crate::NoMemory;
use crate::add::{add, add_numbers};
use crate::build::{is_zero, put};
use crate::horner::Horner;
use crate::scale::{multiple, multiply_numbers};
use std::alloc::Global;
use std::mem;

/// `e + c*d`.
fn add_number_product(e: i128, c: i128, d: i128) -> i128
    requires { unsigned_abs e + unsigned_abs c * unsigned_abs d ≤ MAX }
    ensures sum { result ≡ e +ℤ (c *ℤ d) }
    ensures small { unsigned_abs result ≤ unsigned_abs e + unsigned_abs c * unsigned_abs d }
{
    add_numbers(e, multiply_numbers(c, d))
}

/// `sum + c*q`, by a copy of `c*q`.
fn add_copy(alloc: Global, total: Horner, c: i128, q: &Horner) -> Result<Box<Horner>, NoMemory>
    requires sound { IsCanonical (form_of total) }
    requires sound_q { IsCanonical (form_of q.now) }
    requires room { span (form_of total) ≤ 2 ^ 32 }
    requires room_q { span (form_of q.now) ≤ 2 ^ 32 }
    requires small { height (form_of total) ≤ MAX_DEGREE }
    requires small_q { height (form_of q.now) ≤ MAX_DEGREE }
    requires fits { weight (form_of total) + unsigned_abs c * weight (form_of q.now) ≤ MAX }
    ensures sound { IfOk result (λ r. IsCanonical (form_of r.value)) }
    ensures map { IfOk result (λ r. (s : ℕ) → map_of s (form_of r.value)
        ≡ sum (map_of s (form_of total)) (product (constant c) (map_of s (form_of q.now)))) }
    ensures span { IfOk result (λ r. span (form_of r.value) ≤ max (span (form_of total)) (span (form_of q.now))) }
    ensures height { IfOk result (λ r.
        height (form_of r.value) ≤ max (height (form_of total)) (height (form_of q.now))) }
    ensures weight { IfOk result (λ r. weight (form_of r.value)
        ≤ weight (form_of total) + unsigned_abs c * weight (form_of q.now)) }
{
    let more = multiple(alloc, c, 0, q)?;
    if is_zero(&total) {
        return Ok(more);
    }
    add(alloc, 0, total, 0, Box::into_inner(more))
}

/// `sum + c*q`, in the boxes of `sum` as far as the two agree in shape.
pub(crate) fn add_multiple(
    alloc: Global,
    total: Box<Horner>,
    c: i128,
    q: &Horner,
) -> Result<Box<Horner>, NoMemory>
    requires sound { IsCanonical (form_of total.value) }
    requires sound_q { IsCanonical (form_of q.now) }
    requires room { span (form_of total.value) ≤ 2 ^ 32 }
    requires room_q { span (form_of q.now) ≤ 2 ^ 32 }
    requires small { height (form_of total.value) ≤ MAX_DEGREE }
    requires small_q { height (form_of q.now) ≤ MAX_DEGREE }
    requires fits { weight (form_of total.value) + unsigned_abs c * weight (form_of q.now) ≤ MAX }
    ensures sound { IfOk result (λ r. IsCanonical (form_of r.value)) }
    ensures map { IfOk result (λ r. (s : ℕ) → map_of s (form_of r.value)
        ≡ sum (map_of s (form_of total.value)) (product (constant c) (map_of s (form_of q.now)))) }
    ensures span { IfOk result (λ r.
        span (form_of r.value) ≤ max (span (form_of total.value)) (span (form_of q.now))) }
    ensures height { IfOk result (λ r.
        height (form_of r.value) ≤ max (height (form_of total.value)) (height (form_of q.now))) }
    ensures weight { IfOk result (λ r. weight (form_of r.value)
        ≤ weight (form_of total.value) + unsigned_abs c * weight (form_of q.now)) }
{
    let mut slot = total;
    match mem::replace(&mut *slot, Horner::Const(0)) {
        Horner::Skip(l, rest) => add_copy(alloc, Horner::Skip(l, rest), c, q),
        Horner::Const(e) => match q {
            Horner::Const(d) => {
                *slot = Horner::Const(add_number_product(e, c, *d));
                Ok(slot)
            }
            _ => add_copy(alloc, Horner::Const(e), c, q),
        },
        Horner::Mix(e, g, f) => match q {
            Horner::Mix(a, i, b) => {
                if g == *i {
                    let head = add_multiple(alloc, e, c, a)?;
                    let rest = add_multiple(alloc, f, c, b)?;
                    return put(alloc, slot, head, g, rest);
                }
                add_copy(alloc, Horner::Mix(e, g, f), c, q)
            }
            _ => add_copy(alloc, Horner::Mix(e, g, f), c, q),
        },
    }
}
