//! Goals by nsatz, what is written for them, and how the run ends.

use super::rows::{Answered, Row};
use crate::status::Status;

pub(super) const ANSWERED: [Answered; 10] = [
    Answered {
        shows: "a power of the goal is a hypothesis",
        file: "domain D.
var x y : D.
hyp H : x^2 = 0.
goal x = 0 by nsatz using H power 2 limit 10000.
",
        answer: "  proved version 2 power 2.
  step 1 minus 1, 1.
",
        status: Status::Done,
    },
    Answered {
        shows: "a goal is proved where 2 is not zero",
        file: "domain D.
var x y : D.
hyp H : 2*x = 0.
goal x = 0 by nsatz using H power 1 limit 10000.
",
        answer: "  proved version 2 power 1 if 2 <> 0.
  step 2 minus 1, 1.
",
        status: Status::Done,
    },
    Answered {
        shows: "in characteristic 0 there is no constant",
        file: "domain D char 0.
var x y : D.
hyp H : 2*x = 0.
goal x = 0 by nsatz using H power 1 limit 10000.
",
        answer: "  proved version 2 power 1.
  step 2 minus 1, 1.
",
        status: Status::Done,
    },
    Answered {
        shows: "a factor that is not zero is left out",
        file: "domain D.
var x y : D.
hyp H : x*y = 0.
hyp N : x <> 0.
goal y = 0 by nsatz using H, N power 1 limit 10000.
",
        answer: "  proved version 2 power 1.
  step 1 minus 1, 1.
",
        status: Status::Done,
    },
    Answered {
        shows: "no counted move may be made",
        file: "domain D.
var x y : D.
hyp H : x*y = 0.
hyp N : x <> 0.
goal y = 0 by nsatz using H, N power 1 limit 0.
",
        answer: "  gave up after 0.
",
        status: Status::NotAll,
    },
    Answered {
        shows: "a hypothesis is used under a morphism",
        file: "ring R.
domain D.
hom f : R -> D.
var x y : R.
hyp H : x = y.
goal f(x) = f(y) by nsatz using f(H) power 1 limit 10000.
",
        answer: "  proved version 2 power 1.
  step 1 minus 1, 1.
",
        status: Status::Done,
    },
    Answered {
        shows: "a line of two hypotheses is cited",
        file: "domain D.
var x y : D.
hyp P : x + y = 0.
hyp Q : x - y = 0.
goal y = 0 by nsatz using P, Q power 1 limit 10000.
",
        answer: "  proved version 2 power 1 if 2 <> 0.
  line 1, 2 minus -1, 1 over 2.
  step 1 minus 1, 1.
  step 1 minus -1, 3.
",
        status: Status::Done,
    },
    Answered {
        shows: "a pair of coprime leads is not taken",
        file: "domain D.
var x y : D.
hyp A : x^2 = 1.
hyp B : y^2 = 1.
goal x*y = 1 by nsatz using A, B power 1 limit 0.
",
        answer: "  none up to power 1.
",
        status: Status::NotAll,
    },
    Answered {
        shows: "a hypothesis is used under two morphisms",
        file: "ring R.
ring S.
domain D.
hom f : R -> S.
hom g : S -> D.
hom h : R -> D.
var x : R.
hyp H : x^2 = 1.
goal g(f(x))^2 = 1 by nsatz using g(f(H)) power 1 limit 10000.
",
        answer: "  proved version 2 power 1.
  step 1 minus 1, 1.
",
        status: Status::Done,
    },
    Answered {
        shows: "under another path it speaks of another atom",
        file: "ring R.
ring S.
domain D.
hom f : R -> S.
hom g : S -> D.
hom h : R -> D.
var x : R.
hyp H : x^2 = 1.
goal g(f(x))^2 = 1 by nsatz using h(H) power 1 limit 10000.
",
        answer: "  none up to power 1.
",
        status: Status::NotAll,
    },
];

pub(super) const ROWS: [Row; 4] = [
    Row {
        shows: "without options the power is 1 and the limit 10,000",
        input: b"domain D.\nvar x y : D.\nhyp H : x^2 = 0.\ngoal x = 0 by nsatz using H.\n",
        output: "domain D.\nvar x y : D.\nhyp H : x^2 = 0.\ngoal x = 0 by nsatz using H power 1 limit 10000.\n  none up to power 1.\n",
        status: Status::NotAll,
    },
    Row {
        shows: "a goal by nsatz is of a domain",
        input: b"ring R.\nvar x : R.\ngoal x = 0 by nsatz.\n",
        output: "refused 14 at 33\n",
        status: Status::Refused,
    },
    Row {
        shows: "a power is over 16",
        input: b"domain D.\nvar x : D.\ngoal x = 0 by nsatz power 17.\n",
        output: "refused 16 at 47\n",
        status: Status::Refused,
    },
    Row {
        shows: "a limit is over 1,000,000",
        input: b"domain D.\nvar x : D.\ngoal x = 0 by nsatz limit 1000001.\n",
        output: "refused 16 at 47\n",
        status: Status::Refused,
    },
];
