use crate::Universe;

/// The field of two elements, in every sort.
pub enum Two {
    Zero,
    One,
}

impl Universe for Two {
    ghost use Rattle.alg_universe.specs.Two as two;
    ghost use Rattle.alg_universe.specs.TwoLaws.{laws};

    ghost has = { two.has };

    ghost zero = { two.zero };

    ghost one = { two.one };

    ghost add = { two.add };

    ghost opp = { two.opp };

    ghost mul = { two.mul };

    ghost inv = { two.inv };

    ghost hom = { two.hom };

    ghost kind = { two.kind };

    ghost char0 = { two.char0 };

    ghost maps = { two.maps };

    ghost laws = { laws };
}
