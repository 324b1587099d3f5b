//! Products of polynomials as lists of their factors, each as often as it is one, in any order.

ghost use Rattle.std.specs.Prelude.{◌≡◌, ◌-◌, ◌++◌, cond, IfOk, OnOk};
ghost use Rattle.std.specs.Ordering.{eq_by_cmp};
ghost use Rattle.alg_mono.specs.NumberedPolynomials.{Polynomial};
ghost use Rattle.alg_reify.specs.FactorMaps.{order};
ghost use Rattle.alg_check.specs.Factors.{times_in, repeated};

use crate::{NoMemory, Poly};
use std::alloc::Global;

/// Appends a copy of each of these.
pub(crate) fn append(alloc: Global, list: &mut Vec<Poly>, more: &[Poly]) -> Result<(), NoMemory>
    ensures { OnOk result (list.new.items ≡ list.old.items ++ more.now) }
{
    for p in more {
        list.push(p.copy(alloc)?)?;
    }
    Ok(())
}

/// The factors of a power.
pub(crate) fn repeated(alloc: Global, list: &[Poly], n: u32) -> Result<Vec<Poly>, NoMemory>
    ensures { IfOk result (λ v. v.items ≡ repeated n list.now) }
{
    let mut all = Vec::new(alloc);
    for _ in 0..n {
        append(alloc, &mut all, list)?;
    }
    Ok(all)
}

/// Takes a factor away once, if it is there.
fn take_away(list: &mut Vec<Poly>, p: &Poly)
    ensures { (q : Polynomial) → times_in q list.new.items
        ≡ times_in q list.old.items - cond (eq_by_cmp order q p.now) 1 0 }
{
    for i in 0..list.len() {
        if list[i].same(p) {
            list.remove(i);
            return;
        }
    }
}

/// What `own` lacks of `other`: each factor as often as it is there more often.
pub(crate) fn lacking(alloc: Global, own: &[Poly], other: &[Poly]) -> Result<Vec<Poly>, NoMemory>
    ensures { IfOk result (λ v. (q : Polynomial) →
        times_in q v.items ≡ times_in q other.now - times_in q own.now) }
{
    let mut left = Vec::new(alloc);
    append(alloc, &mut left, other)?;
    for p in own {
        take_away(&mut left, p);
    }
    Ok(left)
}
