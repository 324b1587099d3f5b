//! Two lines with the least common multiple of their leads, and the order of such pairs.

ghost use Rattle.std.specs.Prelude.{◌≡◌, Some, refl};
ghost use Rattle.std.specs.Cmp.{partial_equiv_from_equiv, eq_by_cmp_equiv, po};
ghost use Rattle.std.specs.Ordering.{eq_by_cmp};
ghost use Rattle.alg_pairs.specs.Order.{pair_cmp};
ghost use Rattle.alg_pairs.specs.OrderLaws.{pair_total};

use alg_mono::Mono;
use std::cmp::Ordering;

/// Two lines `i < j`, with the least common multiple of their leads. Pairs are ordered by `lcm` in
/// grevlex, then by `j`, then by `i`.
#[derive(Debug, Drop)]
pub struct Pair {
    pub lcm: Mono,
    pub j: u32,
    pub i: u32,
}

impl PartialEq for Pair {
    ghost eq = { λ x y. eq_by_cmp pair_cmp x y };

    ghost laws = { partial_equiv_from_equiv (eq_by_cmp_equiv pair_total) };

    fn eq(&self, other: &Pair) -> bool {
        self.cmp(other) == Ordering::Equal
    }
}

impl Eq for Pair {
    ghost laws = { eq_by_cmp_equiv pair_total };
}

impl PartialOrd for Pair {
    ghost partial_cmp = { λ x y. Some (pair_cmp x y) };

    ghost laws = { po pair_total (λ x y. refl) };

    fn partial_cmp(&self, other: &Pair) -> Option<Ordering> {
        Some(self.cmp(other))
    }
}

impl Ord for Pair {
    ghost cmp = { pair_cmp };

    ghost total = { pair_total };

    ghost matches_partial_cmp = { λ x y. refl };

    ghost matches_eq = { λ x y. refl };

    fn cmp(&self, other: &Pair) -> Ordering {
        self.lcm
            .cmp_grevlex(&other.lcm)
            .then(self.j.cmp(&other.j))
            .then(self.i.cmp(&other.i))
    }
}
