use crate::Universe;
use std::marker::Model;

/// The rational numbers, in every sort, as reduced fractions. No value of the type is ever made.
pub struct Rats;

impl Model for Rats {
    ghost use Rattle.std.specs.Prelude.{ℤ, ℕ, pos};

    ghost Value = { ℤ × ℕ };

    ghost view = { λ _. (pos 0, 1) };
}

impl Universe for Rats {
    ghost use Rattle.alg_universe.specs.Rats as rats;
    ghost use Rattle.alg_universe.specs.RatsLaws.{laws};

    ghost has = { rats.has };

    ghost zero = { rats.zero };

    ghost one = { rats.one };

    ghost add = { rats.add };

    ghost opp = { rats.opp };

    ghost mul = { rats.mul };

    ghost inv = { rats.inv };

    ghost hom = { rats.hom };

    ghost kind = { rats.kind };

    ghost char0 = { rats.char0 };

    ghost maps = { rats.maps };

    ghost laws = { laws };
}
