//! Goals by field, what is written for them, and how the run ends.

use super::rows::{Answered, Row};
use crate::status::Status;

pub(super) const ANSWERED: [Answered; 26] = [
    Answered {
        shows: "a quotient of one term is 1 where it is not zero",
        file: "field F.\nvar x y : F.\ngoal x/x = 1 by field.\n",
        answer: "  proved if x <> 0.\n",
        status: Status::Done,
    },
    Answered {
        shows: "each denominator is a condition, in the order of the quotients",
        file: "field F.\nvar x y : F.\ngoal 1/x + 1/y = (x + y)/(x*y) by field.\n",
        answer: "  proved if x <> 0, y <> 0, x*y <> 0.\n",
        status: Status::Done,
    },
    Answered {
        shows: "a denominator is zero",
        file: "field F.\nvar x y : F.\ngoal 1/(x - x) = 0 by field.\n",
        answer: "  zero denominator x - x.\n",
        status: Status::NotAll,
    },
    Answered {
        shows: "a morphism keeps quotients",
        file: "field F.\nfield K.\nhom f : F -> K.\nvar x y : F.\ngoal f(1/x) = 1/f(x) by field.\n",
        answer: "  proved if x <> 0, f(x) <> 0.\n",
        status: Status::Done,
    },
    Answered {
        shows: "two may be zero",
        file: "field F.\nvar x y : F.\ngoal x/2 + x/2 = x by field.\n",
        answer: "  proved if 2 <> 0.\n",
        status: Status::Done,
    },
    Answered {
        shows: "in characteristic 0 it is not",
        file: "field F char 0.\nvar x y : F.\ngoal x/2 + x/2 = x by field.\n",
        answer: "  proved.\n",
        status: Status::Done,
    },
    Answered {
        shows: "cleared numerators differ",
        file: "field F.\nvar x y : F.\ngoal 1/x = 1/(x + 1) by field.\n",
        answer: "  no at 1 : 1 and 0.\n",
        status: Status::NotAll,
    },
    Answered {
        shows: "each condition stands once",
        file: "field F.\nvar x y : F.\ngoal x/(x + 5) + 5/(x + 5) = 1 by field.\n",
        answer: "  proved if x + 5 <> 0.\n",
        status: Status::Done,
    },
    Answered {
        shows: "equal denominators that are written differently are two conditions",
        file: "field F.\nvar x y : F.\ngoal x/(2*3) = x/6 by field.\n",
        answer: "  proved if 2*3 <> 0, 6 <> 0.\n",
        status: Status::Done,
    },
    Answered {
        shows: "a denominator is zero only when it is multiplied out",
        file: "field F.\nvar x y : F.\ngoal 1/((x + y)^2 - x^2 - 2*x*y - y^2) = 0 by field.\n",
        answer: "  zero denominator (x + y)^2 - x^2 - 2*x*y - y^2.\n",
        status: Status::NotAll,
    },
    Answered {
        shows: "zero by zero",
        file: "field F.\nvar x y : F.\ngoal 0/0 = x by field.\n",
        answer: "  zero denominator 0.\n",
        status: Status::NotAll,
    },
    Answered {
        shows: "a power 0 is 1, and needs no condition",
        file: "field F.\nvar x y : F.\ngoal x^0/x^0 = 1 by field.\n",
        answer: "  proved.\n",
        status: Status::Done,
    },
    Answered {
        shows: "so is the power 0 of zero",
        file: "field F.\nvar x y : F.\ngoal 1/(x - x)^0 = 1 by field.\n",
        answer: "  proved.\n",
        status: Status::Done,
    },
    Answered {
        shows: "a denominator whose numerator is 1 is dropped",
        file: "field F.\nvar x y : F.\ngoal 1/(1/x) = x by field.\n",
        answer: "  proved if x <> 0.\n",
        status: Status::Done,
    },
    Answered {
        shows: "a quotient may be a condition",
        file: "field F.\nvar x y : F.\ngoal x/(x/y) = y by field.\n",
        answer: "  proved if y <> 0, x/y <> 0.\n",
        status: Status::Done,
    },
    Answered {
        shows: "a literal below a morphism and one outside are one condition",
        file: "field F.\nfield K.\nhom f : F -> K.\nvar x y : F.\ngoal f(1/2) = 1/2 by field.\n",
        answer: "  proved if 2 <> 0.\n",
        status: Status::Done,
    },
    Answered {
        shows: "the atoms of the numerators are under the morphism",
        file: "field F.\nfield K.\nhom f : F -> K.\nvar x y : F.\ngoal f(1/x) = 1/f(y) by field.\n",
        answer: "  no at f(x) : 0 and 1.\n",
        status: Status::NotAll,
    },
    Answered {
        shows: "a quotient is one of the morphism's target",
        file: "ring R.\nfield F.\nhom f : R -> F.\nvar x : R.\ngoal f(x)^2/f(x) = f(x) by field.\n",
        answer: "  proved if f(x) <> 0.\n",
        status: Status::Done,
    },
    Answered {
        shows: "quotients one after the other",
        file: "field F.\nvar x y : F.\ngoal x/y/y/y = x/y^3 by field.\n",
        answer: "  proved if y <> 0, y^3 <> 0.\n",
        status: Status::Done,
    },
    Answered {
        shows: "a numerator over the common factors has a degree over 1,000",
        file: "field F.\nvar x y : F.\ngoal x^1000/x^1000 = y^1000/y^1000 by field.\n",
        answer: "  degree.\n",
        status: Status::NotAll,
    },
    Answered {
        shows: "a numerator of degree 1,000",
        file: "field F.\nvar x y : F.\ngoal x^1000/x^1000 = 1 by field.\n",
        answer: "  proved if x^1000 <> 0.\n",
        status: Status::Done,
    },
    Answered {
        shows: "the factors of a quotient are within the limits, whatever its numerator is",
        file: "field F.\nvar x y : F.\ngoal 0/x^1000/x = 0 by field.\n",
        answer: "  degree.\n",
        status: Status::NotAll,
    },
    Answered {
        shows: "so are their norms",
        file: "field F.\nvar x y : F.\ngoal 0/170141183460469231731687303715884105727/2 = x by field.\n",
        answer: "  range.\n",
        status: Status::NotAll,
    },
    Answered {
        shows: "the left side comes first",
        file: "field F.\nvar x y : F.\ngoal 1/(x - x) = x^1000*x by field.\n",
        answer: "  zero denominator x - x.\n",
        status: Status::NotAll,
    },
    Answered {
        shows: "and so does its broken rule",
        file: "field F.\nvar x y : F.\ngoal x^1000*x = 1/(x - x) by field.\n",
        answer: "  degree.\n",
        status: Status::NotAll,
    },
    Answered {
        shows: "a numerator zero is divided",
        file: "field F.\nvar x y : F.\ngoal (x - x)/y = 0 by field.\n",
        answer: "  proved if y <> 0.\n",
        status: Status::Done,
    },
];

/// Goals by both methods.
const SIDE_BY_SIDE: &[u8] = b"ring R.
field F char 0.
hom f : R -> F.
var a b : R.
var u v w t : F.
goal (a + b)*(a - b) = a^2 - b^2 by ring.
goal f(a*b + 1) = f(a)*f(b) + 1 by ring.
goal u/v + w/t = (u*t + w*v)/(v*t) by field.
goal 1/(u - v) - 1/(u + v) = 2*v/(u^2 - v^2) by field.
goal f(a)/2 + f(a)/2 = f(a) by field.
";

/// And with their answers.
const SIDE_BY_SIDE_ANSWERED: &str = "ring R.
field F char 0.
hom f : R -> F.
var a b : R.
var u v w t : F.
goal (a + b)*(a - b) = a^2 - b^2 by ring.
  proved.
goal f(a*b + 1) = f(a)*f(b) + 1 by ring.
  proved.
goal u/v + w/t = (u*t + w*v)/(v*t) by field.
  proved if v <> 0, t <> 0, v*t <> 0.
goal 1/(u - v) - 1/(u + v) = 2*v/(u^2 - v^2) by field.
  proved if u - v <> 0, u + v <> 0, u^2 - v^2 <> 0.
goal f(a)/2 + f(a)/2 = f(a) by field.
  proved.
";

pub(super) const ROWS: [Row; 6] = [
    Row {
        shows: "goals by ring and by field stand side by side",
        input: SIDE_BY_SIDE,
        output: SIDE_BY_SIDE_ANSWERED,
        status: Status::Done,
    },
    Row {
        shows: "a quotient stands where the sort is no field",
        input: b"ring R.\nfield F.\nhom f : R -> F.\nvar x : R.\ngoal f(x/x) = 1 by field.\n",
        output: "refused 13 at 52\n",
        status: Status::Refused,
    },
    Row {
        shows: "a quotient stands below a morphism to a ring",
        input: b"ring R.\nfield F.\nhom f : R -> F.\nhom g : F -> R.\nvar y : F.\ngoal f(g(1/y)) = 1 by field.\n",
        output: "refused 13 at 70\n",
        status: Status::Refused,
    },
    Row {
        shows: "a goal by field is of a ring",
        input: b"ring R.\nvar x : R.\ngoal x = x by field.\n",
        output: "refused 15 at 33\n",
        status: Status::Refused,
    },
    Row {
        shows: "a goal by field is of a domain",
        input: b"domain D.\nvar x : D.\ngoal x = x by field.\n",
        output: "refused 15 at 35\n",
        status: Status::Refused,
    },
    Row {
        shows: "neither side of a goal by field has a sort",
        input: b"field F.\ngoal 1/2 = 1/2 by field.\n",
        output: "refused 10 at 18\n",
        status: Status::Refused,
    },
];
