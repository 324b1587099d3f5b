//! Sums of lists that are done with: their terms are moved and not copied.

ghost use Rattle.std.specs.Prelude.{◌≡◌, ◌+◌, ◌≤◌, ◌++◌, [], OnOk, IfOk, take, drop, ◌+ℤ◌};
ghost use Rattle.std.specs.Int.RustNames.{unsigned_abs};
ghost use Rattle.alg_mono.specs.FiniteMaps.{IsCanonical, keep};
ghost use Rattle.alg_mono.specs.Numbers.{integers};
ghost use Rattle.alg_mono.specs.Polynomials.{MAX, norm};
ghost use Rattle.alg_mono.specs.NumberedPolynomials.{before, sum_of};

use crate::NoMemory;
use alg_mono::terms::Term;
use std::alloc::Global;
use std::cmp::Ordering;
use std::collections::VecDeque;

/// Moves the first term of a list to the end of another.
fn move_first(from: &mut VecDeque<Term>, to: &mut Vec<Term>) -> Result<(), NoMemory>
    ensures rest { from.new.items ≡ drop 1 from.old.items }
    ensures moved { OnOk result (to.new.items ≡ to.old.items ++ take 1 from.old.items) }
{
    if let Some(term) = from.pop_front() {
        to.push(term)?;
    }
    Ok(())
}

/// Moves all terms of a list to the end of another.
fn move_all(mut from: VecDeque<Term>, to: &mut Vec<Term>) -> Result<(), NoMemory>
    ensures { OnOk result (to.new.items ≡ to.old.items ++ from.items) }
{
    while let Some(term) = from.pop_front() {
        to.push(term)?;
    }
    Ok(())
}

/// Appends the sum of two terms with one monomial, unless it is 0.
fn push_sum(to: &mut Vec<Term>, x: Term, y: Term) -> Result<(), NoMemory>
    requires { unsigned_abs x.1 + unsigned_abs y.1 ≤ MAX }
    ensures { OnOk result (to.new.items
        ≡ to.old.items ++ keep before integers.amounts x.0 (x.1 +ℤ y.1) []) }
{
    let c = x.1 + y.1;
    if c != 0 {
        to.push((x.0, c))?;
    }
    Ok(())
}

/// The sum of two lists of terms, by one pass over both.
pub(crate) fn merge_moved(alloc: Global, a: Vec<Term>, b: Vec<Term>) -> Result<Vec<Term>, NoMemory>
    requires falls_a { IsCanonical before integers.amounts a.items }
    requires falls_b { IsCanonical before integers.amounts b.items }
    requires fits { norm a.items + norm b.items ≤ MAX }
    ensures { IfOk result (λ v. v.items ≡ sum_of a.items b.items) }
{
    let mut a = VecDeque::from(a);
    let mut b = VecDeque::from(b);
    let mut out = Vec::new(alloc);
    while let (Some(x), Some(y)) = (a.front(), b.front()) {
        match x.0.cmp_grevlex(&y.0) {
            Ordering::Greater => move_first(&mut a, &mut out)?,
            Ordering::Less => move_first(&mut b, &mut out)?,
            Ordering::Equal => {
                if let (Some(x), Some(y)) = (a.pop_front(), b.pop_front()) {
                    push_sum(&mut out, x, y)?;
                }
            }
        }
    }
    move_all(a, &mut out)?;
    move_all(b, &mut out)?;
    Ok(out)
}
