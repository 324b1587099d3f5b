//! What is the same for each term of a list.

ghost use Rattle.std.specs.Prelude.{◌≡◌, ◌≤◌, IfOk};
ghost use Rattle.alg_mono.specs.Polynomials.{MAX, norm, poly_neg};

use crate::NoMemory;
use alg_mono::terms::Term;
use std::alloc::Global;

/// The sum of the magnitudes of the coefficients.
pub fn norm_of(terms: &[Term]) -> u128
    requires { norm terms.now ≤ MAX }
    ensures { result ≡ norm terms.now }
{
    let mut sum = 0;
    for term in terms {
        sum += term.1.unsigned_abs();
    }
    sum
}

/// The terms with the opposite coefficients.
pub fn opposites(alloc: Global, terms: &[Term]) -> Result<Vec<Term>, NoMemory>
    requires { norm terms.now ≤ MAX }
    ensures { IfOk result (λ v. v.items ≡ poly_neg terms.now) }
{
    let mut out = Vec::new(alloc);
    for term in terms {
        out.push((term.0.copy(alloc)?, -term.1))?;
    }
    Ok(out)
}
