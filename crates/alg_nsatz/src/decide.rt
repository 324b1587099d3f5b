//! The answer to a goal by nsatz.

ghost use Rattle.std.specs.Prelude.{◌≡◌, ◌<◌, ◌≤◌, ◌^◌, length, IfOk, IfErr};
ghost use Rattle.alg_terms.specs.Members.{goal_at, sort_at};
ghost use Rattle.alg_terms.specs.Valid.{IsValid};
ghost use Rattle.alg_reify.specs.Preparing.{IsByNsatz};
ghost use Rattle.alg_nsatz.specs.Answers.{verdict_of, StopsWith, Answers};
ghost use Rattle.alg_nsatz.specs.Verdict.{IsNsatzVerdict};

use crate::preparing::{Task, prepare};
use crate::{Cert, Stop};
use alg_groebner::{Verdict, search};
use alg_lines::constants_of;
use alg_reify::Overrun;
use alg_terms::{File, Seq};
use std::alloc::Global;

/// The answer to a goal by nsatz that is not stopped.
#[derive(Debug, Drop)]
pub enum NsatzAnswer {
    /// A power of the goal is zero where the hypotheses hold, by the certificate. The sides are equal
    /// wherever none of the constants, each a number of ones, is zero.
    Proved { constants: Seq<i128>, cert: Cert },
    /// The search ended, and no power of the goal up to this one came to zero.
    NoneUpTo(u32),
    /// This many counted moves were made, and another was due.
    GaveUp(u32),
}

/// Whether the sort of a goal's equation is declared of characteristic 0.
fn has_char0(file: &File, goal: u32) -> bool
    requires { goal < length file.now.goals }
    ensures { result ≡ (sort_at file.now (goal_at file.now goal).equation.sort).char0 }
{
    let sort = file.goals.items()[goal as usize].equation.sort;
    match file.sorts.items().get(sort as usize) {
        Some(sort) => sort.char0,
        None => false,
    }
}

/// Searches a certificate for a task, and adds its constants.
pub(crate) fn answer(alloc: Global, task: &Task, char0: bool) -> Result<NsatzAnswer, Overrun>
    requires few { length task.now.hyps < 2 ^ 31 }
    requires powers { task.now.power ≤ 16 }
    requires limited { task.now.limit ≤ 1000000 }
    ensures { Answers task.now char0 result }
{
    match search(alloc, task.hyps.items(), &task.goal, task.power, task.limit)? {
        Verdict::Proved(cert) => {
            let constants = Seq::from_vec(constants_of(alloc, &cert, char0)?);
            Ok(NsatzAnswer::Proved { constants, cert })
        }
        Verdict::NoneUpTo(power) => Ok(NsatzAnswer::NoneUpTo(power)),
        Verdict::GaveUp(moves) => Ok(NsatzAnswer::GaveUp(moves)),
    }
}

/// Decides a goal by nsatz of a valid file, by its number: its polynomials are prepared, and a
/// certificate is searched for them.
///
/// `Atoms` comes exactly where the goal with its used hypotheses has more than 1,000 atoms; else
/// `Range` or `Degree` exactly where the first polynomial that breaks a rule breaks that one: of those
/// that [`prepare`] makes, then of the powers of the goal, and then of the search's moves.
pub fn decide_nsatz(alloc: Global, file: &File, goal: u32) -> Result<NsatzAnswer, Stop>
    requires valid { IsValid file.now }
    requires there { goal < length file.now.goals }
    requires method { IsByNsatz (goal_at file.now goal).method }
    ensures answer { IfOk result (λ a.
        IsNsatzVerdict file.now (goal_at file.now goal) (verdict_of a)) }
    ensures stop { IfErr result (StopsWith file.now (goal_at file.now goal)) }
{
    let task = prepare(alloc, file, goal)?;
    let char0 = has_char0(file, goal);
    Ok(answer(alloc, &task, char0)?)
}
