//! The search, with what its answers say of all certificates.

ghost use Rattle.std.specs.Prelude.{◌≡◌, ◌≤◌, ◌<◌, ◌^◌, length, All};
ghost use Rattle.std.specs.Ordering.{nat_cmp};
ghost use Rattle.alg_mono.specs.Polynomials.{IsPoly};
ghost use Rattle.alg_groebner.specs.Verdicts.{Decides, IsWithinLimit};
ghost use Rattle.alg_criterion.specs.Sure.{IsSure};

use crate::laws::none_exists;
use alg_groebner::{Verdict, search};
use alg_mono::Overrun;
use alg_poly::Poly;
use std::alloc::Global;

/// Each is a polynomial within the limits, as each `Poly` is.
fn are_polynomials(polys: &[Poly])
    ensures { All (λ p. IsPoly nat_cmp p) polys.now }
{
    for poly in polys {
        poly.terms();
    }
}

/// Searches as `search` does. Where it answers `NoneUpTo`, no nonzero multiple of a power of `goal`
/// up to that one is a sum of products with `hyps`: no certificate exists, within any limit.
pub fn search_sure(
    alloc: Global,
    hyps: &[Poly],
    goal: &Poly,
    power: u32,
    limit: u32,
) -> Result<Verdict, Overrun>
    requires few { length hyps.now < 2 ^ 31 }
    requires powers { power ≤ 16 }
    requires limited { limit ≤ 1000000 }
    ensures decides { Decides hyps.now goal.now power limit result }
    ensures within { IsWithinLimit limit result }
    ensures sure { IsSure hyps.now goal.now result }
{
    none_exists();
    are_polynomials(hyps);
    goal.terms();
    search(alloc, hyps, goal, power, limit)
}
