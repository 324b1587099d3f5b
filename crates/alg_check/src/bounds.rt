//! Which rule a product breaks, found by bounds on its norm and its degree before it is made.

ghost use Rattle.std.specs.Prelude.{◌≡◌, ◌+◌, ◌*◌, ◌^◌, ◌∷◌, ◌++◌, ℕ, true, min};
ghost use Rattle.alg_mono.specs.Outcomes.{is_nothing};
ghost use Rattle.alg_mono.specs.Polynomials.{norm, poly_degree};
ghost use Rattle.alg_check.specs.Bounds.{IsSize, IsSizeOf, Fits, sized, norm_end, degree_end};

use crate::Poly;
use alg_mono::Overrun;

/// The least number over the limit on norms.
const NORM_END: u128 = 1 << 127;

/// The least number over the limit on degrees.
const DEGREE_END: u32 = 1001;

/// Bounds on a product: the norms of its factors multiplied, and their degrees added up. Where one is
/// over its limit, it is the least number that is.
#[derive(Clone, Copy, Debug)]
pub(crate) struct Size {
    pub(crate) norm: u128,
    pub(crate) degree: u32,
}

/// Two norms multiplied, as far as the limit.
fn times_norm(a: u128, b: u128) -> u128
    ensures { result ≡ min (a * b) norm_end }
{
    a.saturating_mul(b).min(NORM_END)
}

/// Two degrees added up, as far as the limit.
fn plus_degree(a: u32, b: u32) -> u32
    ensures { result ≡ min (a + b) degree_end }
{
    a.saturating_add(b).min(DEGREE_END)
}

/// A power of a norm, as far as the limit.
fn power_norm(a: u128, k: u32) -> u128
    ensures { result ≡ min (a ^ k) norm_end }
{
    match a.checked_pow(k) {
        Some(power) => power.min(NORM_END),
        None => NORM_END,
    }
}

/// A degree so many times, as far as the limit.
fn times_degree(k: u32, a: u32) -> u32
    ensures { result ≡ min (k * a) degree_end }
{
    k.saturating_mul(a).min(DEGREE_END)
}

impl Size {
    /// That of one polynomial.
    pub(crate) fn of(p: &Poly) -> Size
        ensures size { IsSize (norm p.now) (poly_degree p.now) result }
        ensures sound { norm p.now ≡ 0 → is_nothing p.now ≡ true }
    {
        // Its contract says that the terms are those of a polynomial.
        p.terms();
        Size {
            norm: p.norm().unsigned_abs(),
            degree: p.degree(),
        }
    }

    /// That of a product of two.
    pub(crate) fn times(self, other: Size) -> Size
        ensures { (m n d e : ℕ) → IsSize m d self → IsSize n e other → IsSize (m * n) (d + e) result }
    {
        Size {
            norm: times_norm(self.norm, other.norm),
            degree: plus_degree(self.degree, other.degree),
        }
    }

    /// That of a power.
    pub(crate) fn power(self, k: u32) -> Size
        ensures { (n d : ℕ) → IsSize n d self → IsSize (n ^ k) (k * d) result }
    {
        Size {
            norm: power_norm(self.norm, k),
            degree: times_degree(k, self.degree),
        }
    }

    /// Refused where a rule is broken, the one on norms first; a product with a factor 0 breaks none.
    pub(crate) fn fits(self) -> Result<(), Overrun>
        ensures { (n d : ℕ) → IsSize n d self → Fits (sized n d) result }
    {
        if self.norm == NORM_END {
            return Err(Overrun::Range);
        }
        if self.norm > 0 && self.degree == DEGREE_END {
            return Err(Overrun::Degree);
        }
        Ok(())
    }
}

/// The size of the product of these.
pub(crate) fn size_of(ps: &[Poly]) -> Size
    ensures { IsSizeOf ps.now result }
{
    let mut size = Size { norm: 1, degree: 0 };
    for p in ps {
        size = size.times(Size::of(p));
    }
    size
}

/// The size of the product of one and these.
pub(crate) fn size_over(first: &Poly, rest: &[Poly]) -> Size
    ensures { IsSizeOf (first.now ∷ rest.now) result }
{
    Size::of(first).times(size_of(rest))
}

/// The size of the product of these and those.
pub(crate) fn size_of_both(these: &[Poly], those: &[Poly]) -> Size
    ensures { IsSizeOf (these.now ++ those.now) result }
{
    size_of(these).times(size_of(those))
}
