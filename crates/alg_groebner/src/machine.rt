//! The machine's state, and one step.

ghost use Rattle.std.specs.Prelude.{◌≡◌, ◌≢◌, ◌<◌, ◌≤◌, ◌+◌, ◌-◌, ◌^◌, [], true, Some, None, OnOk, IfOk, IsSome, All, length, option_map};
ghost use Rattle.alg_mono.specs.Outcomes.{Outcome};
ghost use Rattle.alg_groebner.specs.Leads.{reduces};
ghost use Rattle.alg_groebner.specs.Cancelling.{reduce_outcome, s_outcome};
ghost use Rattle.alg_groebner.specs.Choices.{zero_power, remainder_at};
ghost use Rattle.alg_groebner.specs.Work.{member_at, member_reducible, with_current, with_made, with_step, work_joined, work_taken, work_pair_taken};
ghost use Rattle.alg_groebner.specs.Working.{work_by_line, by_members, work_by_inputs, work_by_current, work_next};
ghost use Rattle.alg_groebner.specs.Workable.{IsSomeMember, IsWorkable};
ghost use Rattle.alg_groebner.specs.Steps.{work_of, Steps};

use crate::NoMemory;
use crate::basis::Basis;
use crate::cancel::{Cancelled, reduce, s_polynomial};
use crate::member::Member;
use crate::queue::Queue;
use crate::remainder::Remainder;
use alg_lines::{GoalStep, Line};
use alg_mono::{Mono, Overrun};
use alg_poly::Poly;
use std::alloc::Global;

/// How a run ends, where no polynomial breaks a rule.
#[derive(Clone, Copy, Debug, PartialEq, Eq)]
pub(crate) enum Ending {
    /// This power of the goal came to zero.
    Proved(u32),
    NoneUpTo(u32),
    GaveUp,
}

/// The state of the search over hypotheses, which stand beside it. Of the other lines only the
/// basis lines and the current one keep their polynomials.
#[derive(Debug, Drop)]
pub(crate) struct Machine {
    pub(crate) given: u32,
    pub(crate) made: Vec<Line>,
    pub(crate) basis: Basis,
    pub(crate) queue: Queue,
    pub(crate) taken: u32,
    pub(crate) remainders: Vec<Remainder>,
    pub(crate) current: Option<Member>,
    pub(crate) count: u32,
}

/// The least power of the goal that came to zero.
fn zero_power_of(remainders: &[Remainder]) -> Option<u32>
    requires { length remainders.now ≤ 16 }
    ensures { result ≡ zero_power remainders.now }
{
    let mut power = 1;
    for remainder in remainders {
        if remainder.rest.lead().is_none() {
            return Some(power);
        }
        power += 1;
    }
    None
}

/// The first remainder that is reducible, by its place, and the first basis line that reduces it.
fn reducible<'a>(basis: &'a Basis, remainders: &[Remainder]) -> Option<(usize, &'a Member)>
    ensures { option_map (λ x. (x.0, x.1.now)) result
        ≡ member_reducible basis.now 0 remainders.now }
{
    let mut place = 0;
    for remainder in remainders {
        if let Some(member) = basis.reducer_of(&remainder.rest) {
            return Some((place, member));
        }
        place += 1;
    }
    None
}

impl Machine {
    /// Adds a line that was made of lines `i` and `j`; it becomes the current one.
    fn push_line(&mut self, m: Mono, i: u32, n: Mono, j: u32, c: Cancelled) -> Result<(), NoMemory>
        requires lines { self.old.given + length self.old.made.items < 2 ^ 32 - 1 }
        requires count { self.old.count < 2 ^ 32 - 1 }
        ensures { OnOk result (work_of self.new ≡ with_made (work_of self.old) m i n j c) }
    {
        let Cancelled { a, b, d, poly } = c;
        self.made.push(Line {
            a,
            m,
            i,
            b,
            n,
            j,
            d,
        })?;
        let number = self.given + self.made.len() as u32;
        self.current = Some(Member { number, poly });
        self.count += 1;
        Ok(())
    }

    /// Adds a step to the remainder at a place.
    fn push_step(&mut self, r: usize, n: Mono, j: u32, c: Cancelled) -> Result<(), NoMemory>
        requires place { r < length self.old.remainders.items }
        requires count { self.old.count < 2 ^ 32 - 1 }
        ensures { OnOk result (work_of self.new ≡ with_step (work_of self.old) r n j c) }
    {
        let Cancelled { a, b, d, poly } = c;
        let remainder = &mut self.remainders[r];
        remainder.steps.push(GoalStep { a, b, n, j, d })?;
        remainder.rest = poly;
        self.count += 1;
        Ok(())
    }

    /// `LineJoins`: the line joins the basis.
    fn join(&mut self, alloc: Global, line: Member) -> Result<(), NoMemory>
        requires basis { All IsSomeMember self.old.basis }
        requires new { line.poly ≢ [] }
        ensures { OnOk result (work_of self.new ≡ work_joined (work_of self.old) line) }
    {
        self.queue.add_all(alloc, self.basis.members(), &line)?;
        self.basis.insert(alloc, line)?;
        self.current = None;
        Ok(())
    }

    /// The rules for the current line: `LineIsZero`, `LineIsReduced` and `LineJoins`.
    fn step_current(
        &mut self,
        alloc: Global,
        limit: u32,
        line: Member,
    ) -> Result<Option<Ending>, Overrun>
        requires basis { All IsSomeMember self.old.basis }
        requires lines { self.old.given + length self.old.made.items < 2 ^ 32 - 1 }
        requires limited { limit < 2 ^ 30 }
        requires taken { self.old.current ≡ None }
        ensures { Steps (work_by_line limit (work_of self.old) line line.poly) result
            (with_current (work_of self.old) line) (work_of self.new) }
    {
        if line.poly.lead().is_none() {
            return Ok(None);
        }
        let Some(member) = self.basis.reducer_of(&line.poly) else {
            self.join(alloc, line)?;
            return Ok(None);
        };
        if self.count >= limit {
            return Ok(Some(Ending::GaveUp));
        }
        let j = member.number;
        let (n, made) = reduce(alloc, &line.poly, &member.poly)?;
        self.push_line(Mono::one(alloc), line.number, n, j, made)?;
        Ok(None)
    }

    /// `InputIsTaken`: the next hypothesis is the current line.
    fn take_input(&mut self, alloc: Global, hyps: &[Poly]) -> Result<(), NoMemory>
        requires given { self.old.given ≡ length hyps.now }
        requires left { self.old.taken < self.old.given }
        ensures { OnOk result (work_of self.new ≡ work_taken (work_of self.old) hyps.now) }
    {
        let poly = hyps[self.taken as usize].copy(alloc)?;
        self.taken += 1;
        self.current = Some(Member {
            number: self.taken,
            poly,
        });
        Ok(())
    }

    /// `PairIsTaken` for the pair of two basis lines, which is not in the queue any more.
    fn take_pair(
        &mut self,
        alloc: Global,
        limit: u32,
        i: u32,
        j: u32,
    ) -> Result<Option<Ending>, Overrun>
        requires first { IsSome (member_at self.old.basis i) }
        requires second { IsSome (member_at self.old.basis j) }
        requires basis { All IsSomeMember self.old.basis }
        requires lines { self.old.given + length self.old.made.items < 2 ^ 32 - 1 }
        requires limited { limit < 2 ^ 30 }
        ensures { Steps (by_members limit (work_of self.old) self.old.queue.pairs
            (member_at self.old.basis i) (member_at self.old.basis j)) result
            (work_of self.old) (work_of self.new) }
    {
        let (Some(first), Some(second)) = (self.basis.member_of(i), self.basis.member_of(j)) else {
            unreachable!()
        };
        if self.count >= limit {
            return Ok(Some(Ending::GaveUp));
        }
        let (m, n, made) = s_polynomial(alloc, &first.poly, &second.poly)?;
        self.push_line(m, i, n, j, made)?;
        Ok(None)
    }

    /// The rules where no remainder is reducible and there is no current line: `InputIsTaken`,
    /// `PairIsTaken` and `NothingIsLeft`.
    fn step_onward(
        &mut self,
        alloc: Global,
        hyps: &[Poly],
        limit: u32,
    ) -> Result<Option<Ending>, Overrun>
        requires sound { IsWorkable hyps.now limit (work_of self.old) }
        ensures { Steps (work_by_inputs hyps.now limit (work_of self.old)) result
            (work_of self.old) (work_of self.new) }
    {
        if self.taken < self.given {
            self.take_input(alloc, hyps)?;
            return Ok(None);
        }
        if self.queue.is_done() {
            return Ok(Some(Ending::NoneUpTo(self.remainders.len() as u32)));
        }
        match self.queue.pairs.take_least() {
            Some((i, j)) => self.take_pair(alloc, limit, i, j),
            None if self.count >= limit => Ok(Some(Ending::GaveUp)),
            None => Err(Overrun::Degree),
        }
    }

    /// The rules where there is no current line: `GoalIsReduced` and those of `step_onward`.
    fn step_idle(
        &mut self,
        alloc: Global,
        hyps: &[Poly],
        limit: u32,
    ) -> Result<Option<Ending>, Overrun>
        requires sound { IsWorkable hyps.now limit (work_of self.old) }
        ensures { Steps (work_by_current hyps.now limit (work_of self.old) None) result
            (work_of self.old) (work_of self.new) }
    {
        let Some((r, member)) = reducible(&self.basis, &self.remainders) else {
            return self.step_onward(alloc, hyps, limit);
        };
        if self.count >= limit {
            return Ok(Some(Ending::GaveUp));
        }
        let j = member.number;
        let (n, made) = reduce(alloc, &self.remainders[r].rest, &member.poly)?;
        self.push_step(r, n, j, made)?;
        Ok(None)
    }

    /// The first rule that applies: how the run ends, or `None` where it goes on.
    #[tactic(auto, unfolding(crate::specs::Working::work_next))]
    pub(crate) fn step(
        &mut self,
        alloc: Global,
        hyps: &[Poly],
        limit: u32,
    ) -> Result<Option<Ending>, Overrun>
        requires { IsWorkable hyps.now limit (work_of self.old) }
        ensures { Steps (work_next hyps.now limit (work_of self.old)) result
            (work_of self.old) (work_of self.new) }
    {
        if let Some(power) = zero_power_of(&self.remainders) {
            return Ok(Some(Ending::Proved(power)));
        }
        match self.current.take() {
            Some(line) => self.step_current(alloc, limit, line),
            None => self.step_idle(alloc, hyps, limit),
        }
    }
}
