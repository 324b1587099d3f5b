//! Powers of forms.

ghost use Rattle.std.specs.Prelude.{◌≡◌, ◌≢◌, ◌*◌, ◌≤◌, ◌<◌, ◌^◌, IfOk, pos};
ghost use Rattle.alg_mono.specs.Monomials.{MAX_DEGREE};
ghost use Rattle.alg_mono.specs.Polynomials.{MAX};
ghost use Rattle.alg_mono.specs.NumberedPolynomials.{power_of};
ghost use Rattle.alg_horner.specs.Form.{Form, height, weight};
ghost use Rattle.alg_horner.specs.Maps.{map_of, IsSound};
ghost use Rattle.alg_horner.specs.Trees.{form_of};

use crate::NoMemory;
use crate::horner::{Horner, boxed};
use crate::times::times;
use std::alloc::Global;

/// The power of a form, by repeated products with it.
pub(crate) fn raise(alloc: Global, form: &Horner, n: u32) -> Result<Box<Horner>, NoMemory>
    requires sound { IsSound (form_of form.now) }
    requires norms { weight (form_of form.now) ^ n ≤ MAX }
    requires degrees { n * height (form_of form.now) ≤ MAX_DEGREE }
    ensures sound { IfOk result (λ r. IsSound (form_of r.value)) }
    ensures map { IfOk result (λ r.
        map_of 0 (form_of r.value) ≡ power_of (map_of 0 (form_of form.now)) n) }
{
    let mut out = boxed(alloc, Horner::Const(1))?;
    for _k in 0..n {
        out = times(alloc, &out, form)?;
    }
    Ok(out)
}

/// The power of a form. Beyond 1,000 the form is 1 or -1.
pub(crate) fn raise_any(alloc: Global, form: &Horner, n: u32) -> Result<Box<Horner>, NoMemory>
    requires sound { IsSound (form_of form.now) }
    requires some { MAX_DEGREE < n → form_of form.now ≢ Form.Const (pos 0) }
    requires norms { weight (form_of form.now) ^ n ≤ MAX }
    requires degrees { n * height (form_of form.now) ≤ MAX_DEGREE }
    ensures sound { IfOk result (λ r. IsSound (form_of r.value)) }
    ensures map { IfOk result (λ r.
        map_of 0 (form_of r.value) ≡ power_of (map_of 0 (form_of form.now)) n) }
{
    if n > 1000 {
        return raise(alloc, form, n % 2);
    }
    raise(alloc, form, n)
}
