use crate::Universe;

/// One element, which is zero and one, in every sort.
pub struct OnePoint;

impl Universe for OnePoint {
    ghost use Rattle.alg_universe.specs.OnePoint as point;
    ghost use Rattle.alg_universe.specs.OnePointLaws.{laws};

    ghost has = { point.has };

    ghost zero = { point.zero };

    ghost one = { point.one };

    ghost add = { point.add };

    ghost opp = { point.opp };

    ghost mul = { point.mul };

    ghost inv = { point.inv };

    ghost hom = { point.hom };

    ghost kind = { point.kind };

    ghost char0 = { point.char0 };

    ghost maps = { point.maps };

    ghost laws = { laws };
}
