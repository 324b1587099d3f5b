//! Files with answers, and what `check` reports on them.

use super::rows::{self, Row};
use super::{by_field, by_nsatz, joined, nsatz_limits, run_of};
use crate::status::Status;
use std::test::Fail;

/// A certificate of one step, and it spoilt.
const STEP_ALONE: [Row; 5] = [
    Row {
        shows: "a certificate that proves its goal",
        input: b"domain D.\nvar x y : D.\nhyp H : 2*x = 0.\ngoal x = 0 by nsatz using H power 1 limit 10000.\n  proved power 1 if 2 <> 0.\n  step 2 minus 1, 1, 1 over 1.\n",
        output: "goal 1: ok proved\n",
        status: Status::Done,
    },
    Row {
        shows: "it proves it in the second format too",
        input: b"domain D.\nvar x y : D.\nhyp H : 2*x = 0.\ngoal x = 0 by nsatz using H power 1 limit 10000.\n  proved version 2 power 1 if 2 <> 0.\n  step 2 minus 1, 1.\n",
        output: "goal 1: ok proved\n",
        status: Status::Done,
    },
    Row {
        shows: "after three times the goal less the line x is left",
        input: b"domain D.\nvar x y : D.\nhyp H : 2*x = 0.\ngoal x = 0 by nsatz using H power 1 limit 10000.\n  proved power 1 if 2 <> 0.\n  step 3 minus 1, 1, 1 over 1.\n",
        output: "goal 1: bad at 2\n",
        status: Status::NotAll,
    },
    Row {
        shows: "there is no second line",
        input: b"domain D.\nvar x y : D.\nhyp H : 2*x = 0.\ngoal x = 0 by nsatz using H power 1 limit 10000.\n  proved power 1 if 2 <> 0.\n  step 2 minus 1, 1, 2 over 1.\n",
        output: "goal 1: bad at 1\n",
        status: Status::NotAll,
    },
    Row {
        shows: "the constant is not printed",
        input: b"domain D.\nvar x y : D.\nhyp H : 2*x = 0.\ngoal x = 0 by nsatz using H power 1 limit 10000.\n  proved power 1.\n  step 2 minus 1, 1, 1 over 1.\n",
        output: "goal 1: bad\n",
        status: Status::NotAll,
    },
];

/// Answers by ring and by field, and files that are none.
const OTHERS: [Row; 13] = [
    Row {
        shows: "a difference that is there",
        input: b"ring R.\nvar x y : R.\ngoal (x + y)^2 = x^2 + y^2 by ring.\n  no at x*y : 2 and 0.\n",
        output: "goal 1: ok\n",
        status: Status::Done,
    },
    Row {
        shows: "a difference with another coefficient",
        input: b"ring R.\nvar x y : R.\ngoal (x + y)^2 = x^2 + y^2 by ring.\n  no at x*y : 1 and 0.\n",
        output: "goal 1: bad\n",
        status: Status::NotAll,
    },
    Row {
        shows: "a proof of what is not so",
        input: b"ring R.\nvar x y : R.\ngoal (x + y)^2 = x^2 + y^2 by ring.\n  proved.\n",
        output: "goal 1: bad\n",
        status: Status::NotAll,
    },
    Row {
        shows: "a goal without an answer",
        input: b"ring R.\nvar x y : R.\ngoal (x + y)^2 = x^2 + y^2 by ring.\n",
        output: "goal 1: unchecked\n",
        status: Status::NotAll,
    },
    Row {
        shows: "an end of the search is not checked",
        input: b"domain D.\nvar x y : D.\nhyp H : x^2 = 0.\ngoal x = 0 by nsatz using H.\n  none up to power 1.\n",
        output: "goal 1: unchecked\n",
        status: Status::NotAll,
    },
    Row {
        shows: "the conditions as they stand in the goal",
        input: b"field F.\nvar x y : F.\ngoal 1/x + 1/y = (x + y)/(x*y) by field.\n  proved if x <> 0, y <> 0, x*y <> 0.\n",
        output: "goal 1: ok proved\n",
        status: Status::Done,
    },
    Row {
        shows: "the conditions in another order",
        input: b"field F.\nvar x y : F.\ngoal 1/x + 1/y = (x + y)/(x*y) by field.\n  proved if y <> 0, x <> 0, x*y <> 0.\n",
        output: "goal 1: bad\n",
        status: Status::NotAll,
    },
    Row {
        shows: "a condition is missing",
        input: b"field F.\nvar x y : F.\ngoal 1/x + 1/y = (x + y)/(x*y) by field.\n  proved if x <> 0, y <> 0.\n",
        output: "goal 1: bad\n",
        status: Status::NotAll,
    },
    Row {
        shows: "a condition is too many",
        input: b"field F.\nvar x y : F.\ngoal 1/x + 1/y = (x + y)/(x*y) by field.\n  proved if x <> 0, y <> 0, x*y <> 0, x + y <> 0.\n",
        output: "goal 1: bad\n",
        status: Status::NotAll,
    },
    Row {
        shows: "each goal has a report of its own",
        input: b"ring R.\nvar x : R.\ngoal x = 0 by ring.\n  no at x : 1 and 0.\ngoal x = x by ring.\ngoal 2*x = x + x by ring.\n  proved.\n",
        output: "goal 1: ok\ngoal 2: unchecked\ngoal 3: ok proved\n",
        status: Status::NotAll,
    },
    Row {
        shows: "a file without goals has no reports",
        input: b"ring R.\n",
        output: "",
        status: Status::Done,
    },
    Row {
        shows: "an answer stands before the first goal",
        input: b"ring R.\n  proved.\n",
        output: "refused 4 at 10\n",
        status: Status::Refused,
    },
    Row {
        shows: "an answer by nsatz to a goal by ring",
        input: b"ring R.\nvar x : R.\ngoal x = 0 by ring.\n  none up to power 1.\n",
        output: "refused 17 at 41\n",
        status: Status::Refused,
    },
];

#[test]
fn each_goal_has_the_report_on_its_answer(rt: HostRuntime) -> Result<(), Fail> {
    for rows in [STEP_ALONE.as_slice(), OTHERS.as_slice()] {
        for row in rows {
            let (output, status) = run_of(rt.alloc(), "check", row.input.to_vec(rt.alloc())?)?;
            let shows = row.shows;
            assert_eq!(rt; output.as_slice(), row.output.as_bytes(), "{shows}");
            assert_eq!(rt; status, row.status, "{shows}");
        }
    }
    Ok(())
}

/// Of what `prove` writes each proof is accepted, and each other answer by ring and by field; another
/// one by nsatz is not checked.
#[test]
fn what_is_answered_is_accepted(rt: HostRuntime) -> Result<(), Fail> {
    for (answered, other) in [
        (rows::ANSWERED.as_slice(), ("goal 1: ok\n", Status::Done)),
        (
            by_field::ANSWERED.as_slice(),
            ("goal 1: ok\n", Status::Done),
        ),
        (
            by_nsatz::ANSWERED.as_slice(),
            ("goal 1: unchecked\n", Status::NotAll),
        ),
        (
            nsatz_limits::ANSWERED.as_slice(),
            ("goal 1: unchecked\n", Status::NotAll),
        ),
    ] {
        for row in answered {
            let (wanted, ending) = if row.answer.is_empty() {
                ("", Status::Done)
            } else if row.status == Status::Done {
                ("goal 1: ok proved\n", Status::Done)
            } else {
                other
            };
            let input = joined(rt.alloc(), row.file, row.answer)?;
            let (output, status) = run_of(rt.alloc(), "check", input)?;
            let shows = row.shows;
            assert_eq!(rt; output.as_slice(), wanted.as_bytes(), "{shows}");
            assert_eq!(rt; status, ending, "{shows}");
        }
    }
    Ok(())
}

#[test]
fn more_is_checked_than_is_proved(rt: HostRuntime) -> Result<(), Fail> {
    let input = vec![in rt.alloc(); b' '; 1_048_577]?;
    let (output, status) = run_of(rt.alloc(), "check", input)?;
    assert_eq!(rt; output.as_slice(), b"".as_slice());
    assert_eq!(rt; status, Status::Done);
    Ok(())
}
