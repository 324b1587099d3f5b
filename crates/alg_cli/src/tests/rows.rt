//! Files, what is written for them, and how the run ends.

use crate::status::Status;

/// A file in canonical form that ends with a goal, the answer below it, and how the run ends.
pub(super) struct Answered {
    pub(super) shows: &'static str,
    pub(super) file: &'static str,
    pub(super) answer: &'static str,
    pub(super) status: Status,
}

pub(super) const ANSWERED: [Answered; 13] = [
    Answered {
        shows: "nothing is a file",
        file: "",
        answer: "",
        status: Status::Done,
    },
    Answered {
        shows: "a square is its expansion",
        file: "ring R.\nvar x y : R.\ngoal (x + y)^2 = x^2 + 2*x*y + y^2 by ring.\n",
        answer: "  proved.\n",
        status: Status::Done,
    },
    Answered {
        shows: "a square without its middle differs there",
        file: "ring R.\nvar x y : R.\ngoal (x + y)^2 = x^2 + y^2 by ring.\n",
        answer: "  no at x*y : 2 and 0.\n",
        status: Status::NotAll,
    },
    Answered {
        shows: "a morphism keeps sums and products",
        file: "ring R.\nhom f : R -> R.\nvar x y : R.\ngoal f(x*y + 1) = f(x)*f(y) + 1 by ring.\n",
        answer: "  proved.\n",
        status: Status::Done,
    },
    Answered {
        shows: "morphisms do not commute",
        file: "ring R.\nhom f : R -> R.\nhom g : R -> R.\nvar x y : R.\ngoal f(g(x)) = g(f(x)) by ring.\n",
        answer: "  no at f(g(x)) : 1 and 0.\n",
        status: Status::NotAll,
    },
    Answered {
        shows: "the norm may be the greatest",
        file: "ring R.\nvar x y : R.\ngoal x + 170141183460469231731687303715884105726 = x + 170141183460469231731687303715884105726 by ring.\n",
        answer: "  proved.\n",
        status: Status::Done,
    },
    Answered {
        shows: "a norm of one more is out of range",
        file: "ring R.\nvar x y : R.\ngoal x + 170141183460469231731687303715884105727 = x + 170141183460469231731687303715884105727 by ring.\n",
        answer: "  range.\n",
        status: Status::NotAll,
    },
    Answered {
        shows: "a power counts its base's norm, to 2^126",
        file: "ring R.\nvar x y : R.\ngoal (2*x)^126 = (2*x)^126 by ring.\n",
        answer: "  proved.\n",
        status: Status::Done,
    },
    Answered {
        shows: "2^127 is out of range",
        file: "ring R.\nvar x y : R.\ngoal (2*x)^127 = (2*x)^127 by ring.\n",
        answer: "  range.\n",
        status: Status::NotAll,
    },
    Answered {
        shows: "a difference at the monomial without atoms",
        file: "ring R.\nvar x y : R.\ngoal x - x + 1 = 0 by ring.\n",
        answer: "  no at 1 : 1 and 0.\n",
        status: Status::NotAll,
    },
    Answered {
        shows: "degree 1,001 is too great",
        file: "ring R.\nvar x y : R.\ngoal x^1000*x = 0 by ring.\n",
        answer: "  degree.\n",
        status: Status::NotAll,
    },
    Answered {
        shows: "degree 1,000 is not",
        file: "ring R.\nvar x y : R.\ngoal x^1000 = x^1000 by ring.\n",
        answer: "  proved.\n",
        status: Status::Done,
    },
    Answered {
        shows: "a name may have letters of any script",
        file: "ring R.\nvar \u{3b1} : R.\ngoal \u{3b1} + \u{3b1} = 2*\u{3b1} by ring.\n",
        answer: "  proved.\n",
        status: Status::Done,
    },
];

/// An input, what is written, and how the run ends.
pub(super) struct Row {
    pub(super) shows: &'static str,
    pub(super) input: &'static [u8],
    pub(super) output: &'static str,
    pub(super) status: Status,
}

pub(super) const ROWS: [Row; 14] = [
    Row {
        shows: "blanks, comments, zeros and needless parentheses are not kept",
        input: b"# a ring\nring R.var x\ty:R.\r\ngoal ((x)) - (y - 007) = -(x)by ring. # all",
        output: "ring R.\nvar x y : R.\ngoal x - (y - 7) = -x by ring.\n  no at x : 1 and -1.\n",
        status: Status::NotAll,
    },
    Row {
        shows: "each goal has its own answer below it",
        input: b"field F char 0.\nvar u : F.\ngoal u = 0 by ring.\ngoal u*u = u^2 by ring.\nvar v : F.\ngoal v = u by ring.\n",
        output: "field F char 0.\nvar u : F.\ngoal u = 0 by ring.\n  no at u : 1 and 0.\ngoal u*u = u^2 by ring.\n  proved.\nvar v : F.\ngoal v = u by ring.\n  no at v : 1 and 0.\n",
        status: Status::NotAll,
    },
    Row {
        shows: "no side has a sort",
        input: b"ring R.\nvar x : R.\ngoal 1 = 0 by ring.\n",
        output: "refused 10 at 26\n",
        status: Status::Refused,
    },
    Row {
        shows: "the input ends inside a statement",
        input: b"ring R.\nvar x : R",
        output: "refused 5 at 17\n",
        status: Status::Refused,
    },
    Row {
        shows: "a name is not declared",
        input: b"var x : R.\n",
        output: "refused 7 at 8\n",
        status: Status::Refused,
    },
    Row {
        shows: "a literal is over the greatest",
        input: b"ring R.\nvar x : R.\ngoal x = 170141183460469231731687303715884105728 by ring.\n",
        output: "refused 3 at 28\n",
        status: Status::Refused,
    },
    Row {
        shows: "a quotient stands in a goal by ring",
        input: b"field F.\nvar x : F.\ngoal x/x = 1 by ring.\n",
        output: "refused 13 at 26\n",
        status: Status::Refused,
    },
    Row {
        shows: "the bytes are no text",
        input: b"\xff",
        output: "refused 1 at 0\n",
        status: Status::Refused,
    },
    Row {
        shows: "a character begins no token",
        input: b"ring R.\nvar x$ : R.\n",
        output: "refused 2 at 13\n",
        status: Status::Refused,
    },
    Row {
        shows: "a name is declared again",
        input: b"ring R.\nvar x R : R.\n",
        output: "refused 6 at 14\n",
        status: Status::Refused,
    },
    Row {
        shows: "a ring stands where a variable is wanted",
        input: b"ring R.\nvar x : R.\ngoal x = R by ring.\n",
        output: "refused 8 at 28\n",
        status: Status::Refused,
    },
    Row {
        shows: "two sorts are added",
        input: b"ring R.\nring S.\nvar x : R.\nvar y : S.\ngoal x + y = x by ring.\n",
        output: "refused 9 at 45\n",
        status: Status::Refused,
    },
    Row {
        shows: "an exponent is over 1,000",
        input: b"ring R.\nvar x : R.\ngoal x^1001 = x by ring.\n",
        output: "refused 12 at 26\n",
        status: Status::Refused,
    },
    Row {
        shows: "a file may have no goals",
        input: b"ring R.\nvar x : R.\nhyp H : x <> 0.\n",
        output: "ring R.\nvar x : R.\nhyp H : x <> 0.\n",
        status: Status::Done,
    },
];
