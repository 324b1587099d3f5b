ghost use Rattle.std.specs.Prelude.{◌≡◌, ◌≤◌, ◌<◌, ◌↔◌, IsTrue, IfOk, IfErr, All};
ghost use Rattle.std.specs.Ordering.{nat_cmp};
ghost use Rattle.alg_mono.specs.FiniteMaps.{IsCanonical};
ghost use Rattle.alg_mono.specs.Numbers.{exponents};
ghost use Rattle.alg_mono.specs.Monomials.{MAX_DEGREE, degree, Divides, mono_times, mono_over, lcm};
ghost use Rattle.alg_mono.specs.Mono.{FitsIn};
ghost use Rattle.alg_mono.specs.Refusals.{IsOverDegreeLimit};

use crate::NoMemory;
use crate::ends::MonoEnd;
use crate::mono::Mono;
use std::alloc::Global;

// What the pairs have beyond a monomial, for each pair one search in that monomial.
fn pairs_beyond(
    alloc: Global,
    pairs: &[(u32, u32)],
    other: &Mono,
) -> Result<Vec<(u32, u32)>, NoMemory>
    requires { IsCanonical nat_cmp exponents pairs.now }
    ensures { IfOk result (λ v. v.items ≡ mono_over nat_cmp pairs.now other.now) }
{
    let mut out = Vec::new(alloc);
    for &(atom, exponent) in pairs {
        let left = exponent.saturating_sub(other.exponent(atom));
        if left > 0 {
            out.push((atom, left))?;
        }
    }
    Ok(out)
}

impl Mono {
    /// Whether `other` is `self` times a monomial. It takes no memory, and for each pair one search
    /// in `other`.
    pub fn divides(&self, other: &Mono) -> bool
        ensures { IsTrue result ↔ Divides nat_cmp self.now other.now }
    {
        let _ = &self.pairs;
        self.each_pair_fits(other)
    }

    // The test that `divides` makes of each pair.
    fn each_pair_fits(&self, other: &Mono) -> bool
        ensures { IsTrue result ↔ All (FitsIn other.now) self.now }
    {
        self.pairs
            .iter()
            .all(|&(atom, exponent)| exponent <= other.exponent(atom))
    }

    /// The monomial that gives `self` when it is multiplied with the divisor, by one search in the
    /// divisor for each pair.
    pub fn over(&self, alloc: Global, divisor: &Mono) -> Result<Mono, NoMemory>
        requires { Divides nat_cmp divisor.now self.now }
        ensures product { IfOk result (λ q. mono_times nat_cmp divisor.now q ≡ self.now) }
        ensures value { IfOk result (λ q. q ≡ mono_over nat_cmp self.now divisor.now) }
    {
        let pairs = pairs_beyond(alloc, &self.pairs, divisor)?;
        Ok(Mono { pairs })
    }

    /// The least common multiple, with the greater exponent of each atom, by one search in `self`
    /// for each pair of `other` and one look at each pair of both.
    ///
    /// `Degree` exactly where its degree would be over 1,000.
    pub fn lcm(&self, alloc: Global, other: &Mono) -> Result<Mono, MonoEnd>
        ensures ok { IfOk result (λ m. m ≡ lcm nat_cmp self.now other.now) }
        ensures within { IfOk result (λ m. degree (lcm nat_cmp self.now other.now) ≤ MAX_DEGREE) }
        ensures refused { IfErr result (IsOverDegreeLimit (degree (lcm nat_cmp self.now other.now))) }
    {
        let pairs = pairs_beyond(alloc, &other.pairs, self)?;
        let beyond = Mono { pairs };
        self.times(alloc, &beyond)
    }
}
