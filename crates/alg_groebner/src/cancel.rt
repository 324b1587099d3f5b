//! Two polynomials without their leads.

ghost use Rattle.std.specs.Prelude.{◌≡◌, ◌≢◌, ◌≤ℤ◌, pos, [], true, IfOk, IfErr};
ghost use Rattle.alg_mono.specs.Outcomes.{Outcome};
ghost use Rattle.alg_mono.specs.Refusals.{RefusesWith};
ghost use Rattle.alg_poly.specs.Divisors.{IsDivisible};
ghost use Rattle.alg_groebner.specs.Divisors.{content};
ghost use Rattle.alg_groebner.specs.Leads.{reduces};
ghost use Rattle.alg_groebner.specs.Cancelling.{cancelled, cancel_outcome, quotient, reduced, reduce_outcome, left_lift, right_lift, s_polynomial, s_outcome};

use crate::leads::{lead_of, leading_of};
use crate::{NoMemory, factors};
use alg_lines::combine;
use alg_mono::{Mono, MonoEnd, Overrun};
use alg_poly::Poly;
use std::alloc::Global;

/// A combination without the leads: `d*poly = a*m*p - b*n*q`, with no common divisor in `poly`.
#[derive(Debug, Drop)]
pub(crate) struct Cancelled {
    pub(crate) a: i128,
    pub(crate) b: i128,
    pub(crate) d: i128,
    pub(crate) poly: Poly,
}

/// The content of `p`.
fn content_of(p: &Poly) -> i128
    ensures value { result ≡ pos (content p.now) }
    ensures divides { IsDivisible result p.now }
    ensures positive { pos 1 ≤ℤ result }
{
    let _ = p.terms();
    p.content()
}

/// Takes the leads of `m*p` and `n*q` away, and divides by the content.
pub(crate) fn cancel(
    alloc: Global,
    m: &Mono,
    p: &Poly,
    n: &Mono,
    q: &Poly,
) -> Result<Cancelled, Overrun>
    requires p_some { p.now ≢ [] }
    requires q_some { q.now ≢ [] }
    ensures value { IfOk result (λ c. c ≡ cancelled m.now p.now n.now q.now) }
    ensures fine { IfOk result (λ c. cancel_outcome m.now p.now n.now q.now ≡ Outcome.Fine) }
    ensures refused { IfErr result (λ e. RefusesWith e (cancel_outcome m.now p.now n.now q.now)) }
{
    let u = leading_of(p);
    let v = leading_of(q);
    let a = factors::left(u, v);
    let b = factors::right(u, v);
    let sum = combine(alloc, a, m, p, b, n, q)?;
    let d = content_of(&sum);
    let poly = sum.over_int(alloc, d)?;
    Ok(Cancelled { a, b, d, poly })
}

/// Reduces `p` by `q`, with the monomial that takes the lead of `q` to that of `p`.
pub(crate) fn reduce(alloc: Global, p: &Poly, q: &Poly) -> Result<(Mono, Cancelled), Overrun>
    requires { reduces q.now p.now ≡ true }
    ensures quotient { IfOk result (λ r. r.0 ≡ quotient p.now q.now) }
    ensures value { IfOk result (λ r. r.1 ≡ reduced p.now q.now) }
    ensures fine { IfOk result (λ r. reduce_outcome p.now q.now ≡ Outcome.Fine) }
    ensures refused { IfErr result (λ e. RefusesWith e (reduce_outcome p.now q.now)) }
{
    let n = lead_of(p).over(alloc, lead_of(q))?;
    let made = cancel(alloc, &Mono::one(alloc), p, &n, q)?;
    Ok((n, made))
}

/// The S-polynomial of `p` and `q`, with the monomials that take their leads to the least common
/// multiple.
pub(crate) fn s_polynomial(
    alloc: Global,
    p: &Poly,
    q: &Poly,
) -> Result<(Mono, Mono, Cancelled), Overrun>
    requires p_some { p.now ≢ [] }
    requires q_some { q.now ≢ [] }
    ensures left { IfOk result (λ r. r.0 ≡ left_lift p.now q.now) }
    ensures right { IfOk result (λ r. r.1 ≡ right_lift p.now q.now) }
    ensures value { IfOk result (λ r. r.2 ≡ s_polynomial p.now q.now) }
    ensures fine { IfOk result (λ r. s_outcome p.now q.now ≡ Outcome.Fine) }
    ensures refused { IfErr result (λ e. RefusesWith e (s_outcome p.now q.now)) }
{
    let lcm = match lead_of(p).lcm(alloc, lead_of(q)) {
        Ok(lcm) => lcm,
        Err(MonoEnd::Degree) => return Err(Overrun::Degree),
        Err(MonoEnd::NoMemory) => return Err(Overrun::NoMemory),
    };
    let m = lcm.over(alloc, lead_of(p))?;
    let n = lcm.over(alloc, lead_of(q))?;
    let made = cancel(alloc, &m, p, &n, q)?;
    Ok((m, n, made))
}
