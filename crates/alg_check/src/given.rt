//! The lines that a certificate may cite, by their numbers from 1: the hypotheses, and then the
//! lines that were made; and whether a polynomial is 0.

ghost use Rattle.std.specs.Prelude.{◌++◌, ◌≡◌, ◌↔◌, [], IsTrue};
ghost use Rattle.alg_lines.specs.Lines.{line_at};
ghost use Rattle.alg_lines.specs.Accepting.{IsOneOf};

use alg_poly::Poly;

/// Whether `k` is the number of a line.
pub fn has_line(hyps: &[Poly], made: &[Poly], k: u32) -> bool
    ensures { IsTrue result ↔ IsOneOf (hyps.now ++ made.now) k }
{
    1 <= k && k as usize <= hyps.len() + made.len()
}

/// Line number `k`.
pub fn line<'a>(hyps: &'a [Poly], made: &'a [Poly], k: u32) -> &'a Poly
    requires { IsOneOf (hyps.now ++ made.now) k }
    ensures { result.now ≡ line_at (hyps.now ++ made.now) k }
{
    let index = k as usize - 1;
    if index < hyps.len() {
        &hyps[index]
    } else {
        &made[index - hyps.len()]
    }
}

/// Whether a polynomial is 0.
pub fn is_zero(p: &Poly) -> bool
    ensures { IsTrue result ↔ (p.now ≡ []) }
{
    p.terms().is_empty()
}
