ghost use Rattle.std.specs.Prelude.{◌≡◌, ◌+◌, ◌≤◌, ◌<◌, IfOk, IfErr};
ghost use Rattle.std.specs.Ordering.{nat_cmp};
ghost use Rattle.alg_mono.specs.FiniteMaps.{IsCanonical};
ghost use Rattle.alg_mono.specs.Numbers.{exponents};
ghost use Rattle.alg_mono.specs.Monomials.{MAX_DEGREE, degree, mono_times};
ghost use Rattle.alg_mono.specs.Refusals.{IsOverDegreeLimit};

use crate::NoMemory;
use crate::ends::MonoEnd;
use crate::mono::{DEGREE_LIMIT, Mono};
use std::alloc::Global;
use std::cmp::Ordering;

// The product of two lists of pairs, by one pass over both.
fn merge_pairs(
    alloc: Global,
    a: &[(u32, u32)],
    b: &[(u32, u32)],
) -> Result<Vec<(u32, u32)>, NoMemory>
    requires rises_a { IsCanonical nat_cmp exponents a.now }
    requires rises_b { IsCanonical nat_cmp exponents b.now }
    requires small { degree a.now + degree b.now ≤ MAX_DEGREE }
    ensures { IfOk result (λ v. v.items ≡ mono_times nat_cmp a.now b.now) }
{
    let mut out = Vec::new(alloc);
    let mut i = 0;
    let mut j = 0;
    while i < a.len() && j < b.len() {
        let x = a[i];
        let y = b[j];
        match x.0.cmp(&y.0) {
            Ordering::Less => {
                out.push(x)?;
                i += 1;
            }
            Ordering::Greater => {
                out.push(y)?;
                j += 1;
            }
            Ordering::Equal => {
                out.push((x.0, x.1 + y.1))?;
                i += 1;
                j += 1;
            }
        }
    }
    out.extend_from_slice(&a[i..])?;
    out.extend_from_slice(&b[j..])?;
    Ok(out)
}

impl Mono {
    /// The product, where the exponents add up. Its cost is one look at each pair of both.
    ///
    /// `Degree` exactly where the degrees add up to more than 1,000.
    pub fn times(&self, alloc: Global, other: &Mono) -> Result<Mono, MonoEnd>
        ensures ok { IfOk result (λ m. m ≡ mono_times nat_cmp self.now other.now) }
        ensures within { IfOk result (λ m. degree self.now + degree other.now ≤ MAX_DEGREE) }
        ensures refused { IfErr result (IsOverDegreeLimit (degree self.now + degree other.now)) }
    {
        if self.degree() + other.degree() > DEGREE_LIMIT {
            return Err(MonoEnd::Degree);
        }
        let pairs = merge_pairs(alloc, &self.pairs, &other.pairs)?;
        Ok(Mono { pairs })
    }
}
