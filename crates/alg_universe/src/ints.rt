use crate::Universe;
use std::marker::Model;

/// The whole numbers, in every sort. No value of the type is ever made.
pub struct Ints;

impl Model for Ints {
    ghost use Rattle.std.specs.Prelude.{ℤ, pos};

    ghost Value = { ℤ };

    ghost view = { λ _. pos 0 };
}

impl Universe for Ints {
    ghost use Rattle.alg_universe.specs.Ints as ints;
    ghost use Rattle.alg_universe.specs.IntsLaws.{laws};

    ghost has = { ints.has };

    ghost zero = { ints.zero };

    ghost one = { ints.one };

    ghost add = { ints.add };

    ghost opp = { ints.opp };

    ghost mul = { ints.mul };

    ghost inv = { ints.inv };

    ghost hom = { ints.hom };

    ghost kind = { ints.kind };

    ghost char0 = { ints.char0 };

    ghost maps = { ints.maps };

    ghost laws = { laws };
}
