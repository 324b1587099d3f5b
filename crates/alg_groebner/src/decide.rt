//! The search: powers, run, and certificate.

ghost use Rattle.std.specs.Prelude.{◌≡◌, ◌≤◌, ◌<◌, ◌+◌, ◌^◌, IfOk, IfErr, length};
ghost use Rattle.alg_mono.specs.Outcomes.{Outcome};
ghost use Rattle.alg_mono.specs.Refusals.{RefusesWith};
ghost use Rattle.alg_groebner.specs.Runs.{powers, powers_outcome};
ghost use Rattle.alg_groebner.specs.Steps.{work_of, first_work, work_certificate};
ghost use Rattle.alg_groebner.specs.Verdicts.{Decides, IsWithinLimit};

use crate::NoMemory;
use crate::basis::Basis;
use crate::machine::{Ending, Machine};
use crate::pruning::prune;
use crate::queue::Queue;
use crate::remainder::Remainder;
use crate::run::run;
use alg_lines::Cert;
use alg_mono::Overrun;
use alg_pairs::Pairs;
use alg_poly::Poly;
use alg_terms::Seq;
use std::alloc::Global;

/// How a search ends.
#[derive(Debug, Drop)]
pub enum Verdict {
    /// A power of the goal came to zero, by this certificate.
    Proved(Cert),
    /// No power of the goal up to this one came to zero.
    NoneUpTo(u32),
    /// This many counted moves were made, and another was due.
    GaveUp(u32),
}

/// The powers of the goal from 1 to `power`, without steps.
fn powers_of(alloc: Global, goal: &Poly, power: u32) -> Result<Vec<Remainder>, Overrun>
    requires { power ≤ 16 }
    ensures value { IfOk result (λ v. v.items ≡ powers goal.now 1 power) }
    ensures fine { IfOk result (λ v. powers_outcome goal.now 1 power ≡ Outcome.Fine) }
    ensures refused { IfErr result (λ e. RefusesWith e (powers_outcome goal.now 1 power)) }
{
    let mut out = Vec::new(alloc);
    for r in 0..power {
        let rest = goal.power(alloc, r + 1)?;
        let steps = Seq::from_vec(Vec::new(alloc));
        out.push(Remainder { rest, steps })?;
    }
    Ok(out)
}

/// The machine before its first step.
fn begin(alloc: Global, hyps: &[Poly], remainders: Vec<Remainder>) -> Machine
    requires { length hyps.now < 2 ^ 31 }
    ensures { work_of result ≡ first_work hyps.now remainders.items }
{
    Machine {
        given: hyps.len() as u32,
        made: Vec::new(alloc),
        basis: Basis::new(alloc),
        queue: Queue {
            pairs: Pairs::new(alloc),
            beyond: false,
        },
        taken: 0,
        remainders,
        current: None,
        count: 0,
    }
}

/// The certificate for a power that came to zero.
fn certificate_of(alloc: Global, machine: &Machine, power: u32) -> Result<Cert, NoMemory>
    requires first { 1 ≤ power }
    requires power { power ≤ length machine.now.remainders.items }
    requires lines { machine.now.given + length machine.now.made.items < 2 ^ 32 }
    ensures { IfOk result (λ c. c ≡ work_certificate (work_of machine.now) power) }
{
    let steps = machine.remainders[power as usize - 1].steps.items();
    prune(alloc, machine.given, &machine.made, steps, power)
}

/// Searches a certificate that some power of `goal` up to `power` is zero where all of `hyps` are,
/// by at most `limit` counted moves: reductions and S-polynomials, as Buchberger's algorithm takes
/// them.
///
/// `Range` and `Degree` exactly where a power of the goal or a move breaks the rule on norms, or
/// the one on degrees.
pub fn search(
    alloc: Global,
    hyps: &[Poly],
    goal: &Poly,
    power: u32,
    limit: u32,
) -> Result<Verdict, Overrun>
    requires few { length hyps.now < 2 ^ 31 }
    requires powers { power ≤ 16 }
    requires limited { limit ≤ 1000000 }
    ensures decides { Decides hyps.now goal.now power limit result }
    ensures within { IsWithinLimit limit result }
{
    let remainders = powers_of(alloc, goal, power)?;
    let mut machine = begin(alloc, hyps, remainders);
    match run(alloc, hyps, &mut machine, limit) {
        Ok(Ending::Proved(r)) => {
            let cert = certificate_of(alloc, &machine, r)?;
            Ok(Verdict::Proved(cert))
        }
        Ok(Ending::NoneUpTo(r)) => Ok(Verdict::NoneUpTo(r)),
        Ok(Ending::GaveUp) => Ok(Verdict::GaveUp(limit)),
        Err(end) => Err(end),
    }
}
