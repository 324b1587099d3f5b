use alg_universe::Universe;
use std::marker::Model;

/// The polynomials over atoms, in every sort. No value of the type is ever made.
pub struct Free;

impl Model for Free {
    ghost use Rattle.std.specs.Prelude.{[]};
    ghost use Rattle.alg_meaning.specs.Atoms.{Polynomial};

    ghost Value = { Polynomial };

    ghost view = { λ _. [] };
}

impl Universe for Free {
    ghost use Rattle.alg_meaning.specs.Free as free;
    ghost use Rattle.alg_meaning.specs.FreeLaws.{laws};

    ghost has = { free.has };

    ghost zero = { free.zero };

    ghost one = { free.one };

    ghost add = { free.add };

    ghost opp = { free.opp };

    ghost mul = { free.mul };

    ghost inv = { free.inv };

    ghost hom = { free.hom };

    ghost kind = { free.kind };

    ghost char0 = { free.char0 };

    ghost maps = { free.maps };

    ghost laws = { laws };
}
