//! A set of pairs, which gives the least first.

ghost use Rattle.std.specs.Prelude.{◌≡◌, ◌↔◌, [], IsTrue, OnOk, OnErr, drop, slice_get, option_map};
ghost use Rattle.std.specs.BTreeSet.{insert_key};
ghost use Rattle.alg_pairs.specs.Order.{pair_cmp};

use crate::NoMemory;
use crate::pair::Pair;
use alg_mono::Mono;
use std::alloc::Global;
use std::collections::BTreeSet;
use std::marker::Model;

/// A set of pairs of lines, seen as its list in rising order.
#[derive(Debug, Drop)]
pub struct Pairs {
    set: BTreeSet<Pair>,
}

impl Model for Pairs {
    ghost use Rattle.std.specs.Prelude.{List};
    ghost use Rattle.alg_pairs.specs.declared.pair.Pair.{Pair};

    ghost Value = { List Pair };

    ghost view = { λ s. s.set.keys };
}

impl Pairs {
    /// No pairs. It takes no memory.
    pub fn new(alloc: Global) -> Pairs
        ensures { result ≡ [] }
    {
        Pairs {
            set: BTreeSet::new(alloc),
        }
    }

    /// Whether there is no pair. It takes no memory.
    pub fn is_empty(&self) -> bool
        ensures { IsTrue result ↔ (self.now ≡ []) }
    {
        self.set.is_empty()
    }

    /// Adds a pair, unless it is there, by a number of comparisons that is logarithmic in that of
    /// the pairs. Without memory the set is unchanged.
    pub fn insert(&mut self, i: u32, j: u32, lcm: Mono) -> Result<(), NoMemory>
        ensures added { OnOk result (self.new
            ≡ insert_key pair_cmp self.old (record { lcm = lcm; j = j; i = i })) }
        ensures kept { OnErr result (self.new ≡ self.old) }
    {
        self.set.insert(Pair { lcm, j, i })?;
        Ok(())
    }

    /// Takes out the least pair, and answers `None` exactly where there is none. It takes no
    /// memory.
    pub fn take_least(&mut self) -> Option<(u32, u32)>
        ensures least { result ≡ option_map (λ x. (x.i, x.j)) (slice_get self.old 0) }
        ensures rest { self.new ≡ drop 1 self.old }
    {
        match self.set.pop_first() {
            None => None,
            Some(pair) => Some((pair.i, pair.j)),
        }
    }
}
