//! Multiples of a form.

ghost use Rattle.std.specs.Prelude.{◌≡◌, ◌≢◌, ◌+◌, ◌*◌, ◌≤◌, ◌^◌, ◌*ℤ◌, IfOk, ℕ, pos};
ghost use Rattle.std.specs.Int.RustNames.{unsigned_abs};
ghost use Rattle.alg_mono.specs.Polynomials.{MAX};
ghost use Rattle.alg_horner.specs.Form.{IsCanonical, IsHead, IsMix, IsSome, height, span, weight};
ghost use Rattle.alg_horner.specs.Maps.{map_of, product, constant};
ghost use Rattle.alg_horner.specs.Trees.{form_of};

use crate::NoMemory;
use crate::build::skip;
use crate::horner::{Horner, boxed};
use std::alloc::Global;

/// The product of two numbers.
pub(crate) fn multiply_numbers(c: i128, d: i128) -> i128
    requires { unsigned_abs c * unsigned_abs d ≤ MAX }
    ensures product { result ≡ c *ℤ d }
    ensures small { unsigned_abs result ≡ unsigned_abs c * unsigned_abs d }
{
    c * d
}

/// A number that is not 0 times a form.
fn scale(alloc: Global, c: i128, form: &Horner) -> Result<Box<Horner>, NoMemory>
    requires sound { IsCanonical (form_of form.now) }
    requires some { c ≢ pos 0 }
    requires fits { unsigned_abs c * weight (form_of form.now) ≤ MAX }
    ensures sound { IfOk result (λ r. IsCanonical (form_of r.value)) }
    ensures mix { IfOk result (λ r. IsMix (form_of form.now) → IsMix (form_of r.value)) }
    ensures head { IfOk result (λ r. IsHead (form_of form.now) → IsHead (form_of r.value)) }
    ensures some { IfOk result (λ r. IsSome (form_of form.now) → IsSome (form_of r.value)) }
    ensures map { IfOk result (λ r. (s : ℕ) → map_of s (form_of r.value)
        ≡ product (constant c) (map_of s (form_of form.now))) }
    ensures span { IfOk result (λ r. span (form_of r.value) ≡ span (form_of form.now)) }
    ensures height { IfOk result (λ r. height (form_of r.value) ≡ height (form_of form.now)) }
    ensures weight { IfOk result (λ r. weight (form_of r.value)
        ≡ unsigned_abs c * weight (form_of form.now)) }
{
    match form {
        Horner::Const(d) => boxed(alloc, Horner::Const(multiply_numbers(c, *d))),
        Horner::Skip(j, p) => {
            let p = scale(alloc, c, p)?;
            boxed(alloc, Horner::Skip(*j, p))
        }
        Horner::Mix(p, i, q) => {
            let p = scale(alloc, c, p)?;
            let q = scale(alloc, c, q)?;
            boxed(alloc, Horner::Mix(p, *i, q))
        }
    }
}

/// A number times a form with `j` atoms skipped.
pub(crate) fn multiple(
    alloc: Global,
    c: i128,
    j: u32,
    form: &Horner,
) -> Result<Box<Horner>, NoMemory>
    requires sound { IsCanonical (form_of form.now) }
    requires room { j + span (form_of form.now) ≤ 2 ^ 32 }
    requires fits { unsigned_abs c * weight (form_of form.now) ≤ MAX }
    ensures sound { IfOk result (λ r. IsCanonical (form_of r.value)) }
    ensures map { IfOk result (λ r. (s : ℕ) → map_of s (form_of r.value)
        ≡ product (constant c) (map_of (s + j) (form_of form.now))) }
    ensures span { IfOk result (λ r. span (form_of r.value) ≤ j + span (form_of form.now)) }
    ensures height { IfOk result (λ r. height (form_of r.value) ≤ height (form_of form.now)) }
    ensures weight { IfOk result (λ r. weight (form_of r.value)
        ≤ unsigned_abs c * weight (form_of form.now)) }
{
    if c == 0 {
        return boxed(alloc, Horner::Const(0));
    }
    let form = scale(alloc, c, form)?;
    skip(alloc, j, form)
}
