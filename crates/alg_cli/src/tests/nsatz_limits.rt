//! Goals by nsatz with hypotheses that say little, or at a limit.

use super::rows::Answered;
use crate::status::Status;

pub(super) const ANSWERED: [Answered; 14] = [
    Answered {
        shows: "nothing follows without hypotheses",
        file: "domain D.
var x y : D.
goal x = 0 by nsatz power 3 limit 0.
",
        answer: "  none up to power 3.
",
        status: Status::NotAll,
    },
    Answered {
        shows: "but sides of one polynomial are equal",
        file: "domain D.
var x y : D.
goal (x + y)^2 = x^2 + 2*x*y + y^2 by nsatz power 1 limit 0.
",
        answer: "  proved version 2 power 1.
",
        status: Status::Done,
    },
    Answered {
        shows: "a hypothesis that is zero says nothing",
        file: "domain D.
var x y : D.
hyp H : x = x.
goal x = 0 by nsatz using H power 1 limit 10000.
",
        answer: "  none up to power 1.
",
        status: Status::NotAll,
    },
    Answered {
        shows: "a constant hypothesis proves each goal where it is not zero",
        file: "domain D.
var x y : D.
hyp H : x - x + 2 = 0.
goal x = 0 by nsatz using H power 1 limit 10000.
",
        answer: "  proved version 2 power 1 if 2 <> 0.
  step 2 minus 1, x, 1.
",
        status: Status::Done,
    },
    Answered {
        shows: "the goal is its hypothesis",
        file: "domain D.
var x y : D.
hyp H : x*y = 1.
goal x*y = 1 by nsatz using H power 1 limit 10000.
",
        answer: "  proved version 2 power 1.
  step 1 minus 1, 1.
",
        status: Status::Done,
    },
    Answered {
        shows: "a hypothesis that is used twice is reduced by itself",
        file: "domain D.
var x y : D.
hyp H : x = 0.
goal y = 0 by nsatz using H, H power 1 limit 1.
",
        answer: "  none up to power 1.
",
        status: Status::NotAll,
    },
    Answered {
        shows: "which is a counted move",
        file: "domain D.
var x y : D.
hyp H : x = 0.
goal y = 0 by nsatz using H, H power 1 limit 0.
",
        answer: "  gave up after 0.
",
        status: Status::NotAll,
    },
    Answered {
        shows: "the power may be 16",
        file: "domain D.
var x y : D.
hyp H : x^16 = 0.
goal x = 0 by nsatz using H power 16 limit 10000.
",
        answer: "  proved version 2 power 16.
  step 1 minus 1, 1.
",
        status: Status::Done,
    },
    Answered {
        shows: "the power 15 is none of the 16th",
        file: "domain D.
var x y : D.
hyp H : x^16 = 0.
goal x = 0 by nsatz using H power 15 limit 10000.
",
        answer: "  none up to power 15.
",
        status: Status::NotAll,
    },
    Answered {
        shows: "the norms of the factors multiply",
        file: "domain D.
var x y : D.
hyp N : 170141183460469231731687303715884105727*x <> 0.
goal 2*y = 0 by nsatz using N power 1 limit 10000.
",
        answer: "  range.
",
        status: Status::NotAll,
    },
    Answered {
        shows: "the degrees of the factors add up",
        file: "domain D.
var x y : D.
hyp N : x^1000 <> 0.
goal y = 0 by nsatz using N power 1 limit 10000.
",
        answer: "  degree.
",
        status: Status::NotAll,
    },
    Answered {
        shows: "norms come before degrees",
        file: "domain D.
var x y : D.
hyp N : 170141183460469231731687303715884105727*x^1000 <> 0.
goal 2*y = 0 by nsatz using N power 1 limit 10000.
",
        answer: "  range.
",
        status: Status::NotAll,
    },
    Answered {
        shows: "a pair beyond the greatest degree ends the search",
        file: "domain D.
var t x y z : D.
hyp A : x*y^600 = z.
hyp B : x*z^600 = y.
goal t = 0 by nsatz using A, B power 1 limit 1.
",
        answer: "  degree.
",
        status: Status::NotAll,
    },
    Answered {
        shows: "unless no move may be made",
        file: "domain D.
var t x y z : D.
hyp A : x*y^600 = z.
hyp B : x*z^600 = y.
goal t = 0 by nsatz using A, B power 1 limit 0.
",
        answer: "  gave up after 0.
",
        status: Status::NotAll,
    },
];
