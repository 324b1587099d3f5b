//! The pairs that are left.

ghost use Rattle.std.specs.Prelude.{◌≡◌, ◌≢◌, ◌↔◌, [], false, IsTrue, OnOk, All};
ghost use Rattle.alg_groebner.specs.Work.{with_ordered, with_member, with_members};
ghost use Rattle.alg_groebner.specs.Workable.{IsSomeMember};

use crate::NoMemory;
use crate::leads::{are_coprime, lead_of};
use crate::member::Member;
use alg_mono::MonoEnd;
use alg_pairs::Pairs;
use std::alloc::Global;

/// The pairs that are left.
#[derive(Debug, Drop)]
pub(crate) struct Queue {
    /// Those whose least common multiple of leads is within the limit on degrees.
    pub(crate) pairs: Pairs,
    /// Whether there was a pair beyond it. Such pairs come after all others.
    pub(crate) beyond: bool,
}

impl Queue {
    /// Whether no pair is left. It takes no memory.
    pub(crate) fn is_done(&self) -> bool
        ensures { IsTrue result ↔ (self.now ≡ record { pairs = []; beyond = false }) }
    {
        !self.beyond && self.pairs.is_empty()
    }

    /// Adds the pair of two lines, the lesser number first.
    fn add_ordered(&mut self, alloc: Global, b: &Member, c: &Member) -> Result<(), NoMemory>
        requires first { b.now.poly ≢ [] }
        requires second { c.now.poly ≢ [] }
        ensures { OnOk result (self.new ≡ with_ordered b.now c.now self.old) }
    {
        match lead_of(&b.poly).lcm(alloc, lead_of(&c.poly)) {
            Ok(lcm) => self.pairs.insert(b.number, c.number, lcm)?,
            Err(MonoEnd::Degree) => self.beyond = true,
            Err(MonoEnd::NoMemory) => return Err(NoMemory),
        }
        Ok(())
    }

    /// Adds the pair of two lines, unless their leads are coprime.
    fn add(&mut self, alloc: Global, b: &Member, c: &Member) -> Result<(), NoMemory>
        requires first { b.now.poly ≢ [] }
        requires second { c.now.poly ≢ [] }
        ensures { OnOk result (self.new ≡ with_member b.now c.now self.old) }
    {
        if are_coprime(lead_of(&b.poly), lead_of(&c.poly)) {
            return Ok(());
        }
        if b.number < c.number {
            self.add_ordered(alloc, b, c)
        } else {
            self.add_ordered(alloc, c, b)
        }
    }

    /// Adds the pairs of a line with all basis lines.
    pub(crate) fn add_all(
        &mut self,
        alloc: Global,
        basis: &[Member],
        line: &Member,
    ) -> Result<(), NoMemory>
        requires all { All IsSomeMember basis.now }
        requires new { line.now.poly ≢ [] }
        ensures { OnOk result (self.new ≡ with_members line.now basis.now self.old) }
    {
        for member in basis {
            self.add(alloc, member, line)?;
        }
        Ok(())
    }
}
