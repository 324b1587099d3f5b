//! The run of the machine to its end.

ghost use Rattle.std.specs.Prelude.{◌≡◌};
ghost use Rattle.alg_groebner.specs.Runs.{first_state};
ghost use Rattle.alg_groebner.specs.Sound.{IsSound};
ghost use Rattle.alg_groebner.specs.Steps.{work_of, first_work, RunsAs};

use crate::machine::{Ending, Machine};
use alg_mono::Overrun;
use alg_poly::Poly;
use std::alloc::Global;

/// Makes step after step until the run ends.
pub(crate) fn run(
    alloc: Global,
    hyps: &[Poly],
    machine: &mut Machine,
    limit: u32,
) -> Result<Ending, Overrun>
    requires begins { work_of machine.old
        ≡ first_work hyps.now machine.old.remainders.items }
    requires sound { IsSound limit (first_state hyps.now machine.old.remainders.items) }
    ensures { RunsAs limit (first_state hyps.now machine.old.remainders.items) result
        (work_of machine.new) }
{
    loop {
        match machine.step(alloc, hyps, limit) {
            Ok(None) => {}
            Ok(Some(ending)) => return Ok(ending),
            Err(end) => return Err(end),
        }
    }
}
