ghost use Rattle.std.specs.Prelude.{◌≡◌, ◌+◌, ◌≤◌, ◌<◌, ◌↔◌, IsTrue, IfOk, IfErr, OnOk};
ghost use Rattle.std.specs.Ordering.{nat_cmp};
ghost use Rattle.alg_mono.specs.FiniteMaps.{IsCanonical, collect, put_in};
ghost use Rattle.alg_mono.specs.Numbers.{exponents};
ghost use Rattle.alg_mono.specs.Monomials.{MAX_DEGREE, degree};
ghost use Rattle.alg_mono.specs.Refusals.{IsOverDegreeLimit};

use crate::NoMemory;
use crate::ends::MonoEnd;
use crate::mono::{DEGREE_LIMIT, Mono};
use crate::search::search;
use std::alloc::Global;

// Whether the exponents add up to more than 1,000.
fn is_too_great(pairs: &[(u32, u32)]) -> bool
    ensures { IsTrue result ↔ (MAX_DEGREE < degree pairs.now) }
{
    let mut left = DEGREE_LIMIT;
    for pair in pairs {
        if pair.1 > left {
            return true;
        }
        left -= pair.1;
    }
    false
}

// Adds one more power of an atom.
fn add_power(pairs: &mut Vec<(u32, u32)>, atom: u32, exponent: u32) -> Result<(), NoMemory>
    requires rises { IsCanonical nat_cmp exponents pairs.old.items }
    requires positive { 0 < exponent }
    requires small { degree pairs.old.items + exponent ≤ MAX_DEGREE }
    ensures { OnOk result
        (pairs.new.items ≡ put_in nat_cmp exponents atom exponent pairs.old.items) }
{
    match search(pairs, atom) {
        Ok(at) => pairs[at].1 += exponent,
        Err(at) => pairs.insert(at, (atom, exponent))?,
    }
    Ok(())
}

// The pairs with each atom once, the atoms rising, and no exponent 0.
fn collected(alloc: Global, pairs: &[(u32, u32)]) -> Result<Vec<(u32, u32)>, NoMemory>
    requires { degree pairs.now ≤ MAX_DEGREE }
    ensures { IfOk result (λ v. v.items ≡ collect nat_cmp exponents pairs.now) }
{
    let mut out = Vec::new(alloc);
    for &(atom, exponent) in pairs {
        if exponent > 0 {
            add_power(&mut out, atom, exponent)?;
        }
    }
    Ok(out)
}

impl Mono {
    /// The product of the pairs' powers: repeated atoms add up, exponents 0 drop out. At most 1,000
    /// pairs are kept, and each has its place by halving.
    ///
    /// `Degree` exactly where the exponents add up to more than 1,000.
    pub fn from_pairs(alloc: Global, pairs: &[(u32, u32)]) -> Result<Mono, MonoEnd>
        ensures ok { IfOk result (λ m. m ≡ collect nat_cmp exponents pairs.now) }
        ensures within { IfOk result (λ m. degree pairs.now ≤ MAX_DEGREE) }
        ensures refused { IfErr result (IsOverDegreeLimit (degree pairs.now)) }
    {
        if is_too_great(pairs) {
            return Err(MonoEnd::Degree);
        }
        let pairs = collected(alloc, pairs)?;
        Ok(Mono { pairs })
    }
}
