//! Lists of terms, and their sums.

ghost use Rattle.std.specs.Prelude.{◌≡◌, ◌+◌, ◌≤◌, ◌++◌, ◌∷◌, [], IfOk, OnOk, ◌+ℤ◌};
ghost use Rattle.std.specs.Int.RustNames.{unsigned_abs};
ghost use Rattle.alg_mono.specs.FiniteMaps.{IsCanonical, keep};
ghost use Rattle.alg_mono.specs.NumberedPolynomials.{before, sum_of};
ghost use Rattle.alg_mono.specs.Numbers.{integers};
ghost use Rattle.alg_mono.specs.Polynomials.{MAX, norm};

use crate::NoMemory;
use crate::mono::Mono;
use std::alloc::Global;
use std::cmp::Ordering;

/// A monomial with its coefficient.
pub type Term = (Mono, i128);

/// Appends a copy of a term.
fn push_copy(alloc: Global, out: &mut Vec<Term>, term: &Term) -> Result<(), NoMemory>
    ensures { OnOk result (out.new.items ≡ out.old.items ++ term.now ∷ []) }
{
    out.push((term.0.copy(alloc)?, term.1))?;
    Ok(())
}

/// Appends copies of the terms.
pub fn push_copies(alloc: Global, out: &mut Vec<Term>, terms: &[Term]) -> Result<(), NoMemory>
    ensures { OnOk result (out.new.items ≡ out.old.items ++ terms.now) }
{
    for term in terms {
        push_copy(alloc, out, term)?;
    }
    Ok(())
}

/// Appends the sum of two terms with one monomial, unless it is 0.
fn push_sum(alloc: Global, out: &mut Vec<Term>, x: &Term, y: &Term) -> Result<(), NoMemory>
    requires { unsigned_abs x.now.1 + unsigned_abs y.now.1 ≤ MAX }
    ensures { OnOk result (out.new.items
        ≡ out.old.items ++ keep before integers.amounts x.now.0 (x.now.1 +ℤ y.now.1) []) }
{
    let c = x.1 + y.1;
    if c != 0 {
        out.push((x.0.copy(alloc)?, c))?;
    }
    Ok(())
}

/// The sum of two lists of terms, by one pass over both.
pub fn merge(alloc: Global, a: &[Term], b: &[Term]) -> Result<Vec<Term>, NoMemory>
    requires falls_a { IsCanonical before integers.amounts a.now }
    requires falls_b { IsCanonical before integers.amounts b.now }
    requires fits { norm a.now + norm b.now ≤ MAX }
    ensures { IfOk result (λ v. v.items ≡ sum_of a.now b.now) }
{
    let mut out = Vec::new(alloc);
    let mut i = 0;
    let mut j = 0;
    while i < a.len() && j < b.len() {
        let x = &a[i];
        let y = &b[j];
        match x.0.cmp_grevlex(&y.0) {
            Ordering::Greater => {
                push_copy(alloc, &mut out, x)?;
                i += 1;
            }
            Ordering::Less => {
                push_copy(alloc, &mut out, y)?;
                j += 1;
            }
            Ordering::Equal => {
                push_sum(alloc, &mut out, x, y)?;
                i += 1;
                j += 1;
            }
        }
    }
    push_copies(alloc, &mut out, &a[i..])?;
    push_copies(alloc, &mut out, &b[j..])?;
    Ok(out)
}
