//! A certificate that is checked, with a change, and cut.

use super::run_of;
use crate::status::Status;
use std::test::Fail;

/// A certificate with a line and two steps.
const CERTIFICATE: &str = "domain D.\nvar x y : D.\nhyp P : x + y = 0.\nhyp Q : x - y = 0.\n\
    goal y = 0 by nsatz using P, Q power 1 limit 10000.\n  proved power 1 if 2 <> 0.\n  \
    line 1, 1, 2 minus -1, 1, 1 over 2.\n  step 1 minus 1, 1, 1 over 1.\n  step 1 minus -1, 1, 3 over 1.\n";

/// The same in the second format.
const CERTIFICATE_IN_FORMAT_TWO: &str =
    "domain D.\nvar x y : D.\nhyp P : x + y = 0.\nhyp Q : x - y = 0.\n\
    goal y = 0 by nsatz using P, Q power 1 limit 10000.\n  proved version 2 power 1 if 2 <> 0.\n  \
    line 1, 2 minus -1, 1 over 2.\n  step 1 minus 1, 1.\n  step 1 minus -1, 3.\n";

#[test]
fn a_certificate_is_good_in_either_format(rt: HostRuntime) -> Result<(), Fail> {
    for file in [CERTIFICATE, CERTIFICATE_IN_FORMAT_TWO] {
        let input = Vec::from_slice(rt.alloc(), file.as_bytes())?;
        let (output, status) = run_of(rt.alloc(), "check", input)?;
        assert_eq!(rt; output.as_slice(), b"goal 1: ok proved\n".as_slice());
        assert_eq!(rt; status, Status::Done);
    }
    Ok(())
}

/// What is changed in a certificate, what stands in its place, what is written then, and how the run
/// ends.
struct Change {
    old: &'static str,
    new: &'static str,
    output: &'static str,
    status: Status,
}

/// Changes to a certificate in either format.
const CHANGES: [Change; 7] = [
    Change {
        old: "over 2",
        new: "over 0",
        output: "goal 1: bad at 1\n",
        status: Status::NotAll,
    },
    Change {
        old: "over 2",
        new: "over 3",
        output: "goal 1: bad at 1\n",
        status: Status::NotAll,
    },
    Change {
        old: "line 1,",
        new: "line 170141183460469231731687303715884105727,",
        output: "goal 1: bad at 1\n",
        status: Status::NotAll,
    },
    Change {
        old: "step 1 minus 1",
        new: "step 0 minus 1",
        output: "goal 1: bad at 2\n",
        status: Status::NotAll,
    },
    Change {
        old: "power 1 if",
        new: "power 2 if",
        output: "goal 1: bad\n",
        status: Status::NotAll,
    },
    Change {
        old: "power 1 if",
        new: "power 0 if",
        output: "goal 1: bad\n",
        status: Status::NotAll,
    },
    Change {
        old: " if 2 <> 0",
        new: "",
        output: "goal 1: bad\n",
        status: Status::NotAll,
    },
];

/// Changes to the one in the first format.
const CHANGES_IN_FORMAT_ONE: [Change; 7] = [
    Change {
        old: "line 1, 1, 2 minus",
        new: "line 1, 1, 3 minus",
        output: "goal 1: bad at 1\n",
        status: Status::NotAll,
    },
    Change {
        old: "over 2",
        new: "over 1",
        output: "goal 1: bad at 4\n",
        status: Status::NotAll,
    },
    Change {
        old: "line 1, 1, 2 minus",
        new: "line 1, 1, 4294967295 minus",
        output: "goal 1: bad at 1\n",
        status: Status::NotAll,
    },
    Change {
        old: "line 1, 1, 2 minus",
        new: "line 1, 1, 4294967296 minus",
        output: "refused 18 at 154\n",
        status: Status::Refused,
    },
    Change {
        old: "line 1, 1,",
        new: "line 1, x^1000,",
        output: "goal 1: bad at 1\n",
        status: Status::NotAll,
    },
    Change {
        old: "line 1, 1,",
        new: "line 1, x^1001,",
        output: "refused 18 at 151\n",
        status: Status::Refused,
    },
    Change {
        old: "1, 3 over",
        new: "1, 4 over",
        output: "goal 1: bad at 3\n",
        status: Status::NotAll,
    },
];

/// Changes to the one in the second format.
const CHANGES_IN_FORMAT_TWO: [Change; 9] = [
    Change {
        old: "line 1, 2 minus",
        new: "line 1, 3 minus",
        output: "goal 1: bad at 1\n",
        status: Status::NotAll,
    },
    Change {
        old: " over 2",
        new: "",
        output: "goal 1: bad at 4\n",
        status: Status::NotAll,
    },
    Change {
        old: "line 1, 2 minus",
        new: "line 1, 4294967295 minus",
        output: "goal 1: bad at 1\n",
        status: Status::NotAll,
    },
    Change {
        old: "line 1, 2 minus",
        new: "line 1, 4294967296 minus",
        output: "refused 18 at 161\n",
        status: Status::Refused,
    },
    Change {
        old: "line 1, 2",
        new: "line 1, x^1000, 2",
        output: "goal 1: bad at 1\n",
        status: Status::NotAll,
    },
    Change {
        old: "line 1, 2",
        new: "line 1, x^1001, 2",
        output: "refused 18 at 161\n",
        status: Status::Refused,
    },
    Change {
        old: "minus -1, 3.",
        new: "minus -1, 4.",
        output: "goal 1: bad at 3\n",
        status: Status::NotAll,
    },
    Change {
        old: "version 2",
        new: "version 3",
        output: "refused 18 at 130\n",
        status: Status::Refused,
    },
    Change {
        old: "version 2",
        new: "version 1",
        output: "refused 4 at 161\n",
        status: Status::Refused,
    },
];

#[test]
fn a_change_to_a_certificate_is_found(rt: HostRuntime) -> Result<(), Fail> {
    for (certificate, changes) in [
        (CERTIFICATE, CHANGES.as_slice()),
        (CERTIFICATE_IN_FORMAT_TWO, CHANGES.as_slice()),
        (CERTIFICATE, CHANGES_IN_FORMAT_ONE.as_slice()),
        (CERTIFICATE_IN_FORMAT_TWO, CHANGES_IN_FORMAT_TWO.as_slice()),
    ] {
        for change in changes {
            let file = certificate.replace(rt.alloc(), change.old, change.new)?;
            let input = Vec::from_slice(rt.alloc(), file.as_bytes())?;
            let (output, status) = run_of(rt.alloc(), "check", input)?;
            let new = change.new;
            assert_eq!(rt; output.as_slice(), change.output.as_bytes(), "{new}");
            assert_eq!(rt; status, change.status, "{new}");
        }
    }
    Ok(())
}

/// Where the goal of a certificate, its answer, its line and its steps end.
const ENDS: [usize; 5] = [112, 140, 178, 209, 241];

/// The same in the second format.
const ENDS_IN_FORMAT_TWO: [usize; 5] = [112, 150, 182, 203, 225];

/// What is written for so many bytes of a certificate, and how the run ends, where they are a file. At
/// most three blanks stand between two of its statements.
fn for_the_front(ends: [usize; 5], length: usize) -> Option<(&'static str, Status)> {
    let [goal, answer, line, step, last] = ends;
    for (end, written, ending) in [
        (goal, "goal 1: unchecked\n", Status::NotAll),
        (answer, "goal 1: bad at 1\n", Status::NotAll),
        (line, "goal 1: bad at 2\n", Status::NotAll),
        (step, "goal 1: bad at 3\n", Status::NotAll),
        (last, "goal 1: ok proved\n", Status::Done),
    ] {
        if end <= length && length - end <= 3 {
            return Some((written, ending));
        }
    }
    match length {
        0 | 9 | 10 | 22 | 23 | 41 | 42 | 60 | 61 => Some(("", Status::Done)),
        _ => None,
    }
}

/// Whether a text is a refusal for its tokens, its grammar or its end.
fn is_refusal(text: &[u8]) -> bool {
    text.starts_with(b"refused 2 at ")
        || text.starts_with(b"refused 4 at ")
        || text.starts_with(b"refused 5 at ")
}

#[test]
fn a_certificate_may_be_cut_anywhere(rt: HostRuntime) -> Result<(), Fail> {
    for (certificate, ends) in [
        (CERTIFICATE, ENDS),
        (CERTIFICATE_IN_FORMAT_TWO, ENDS_IN_FORMAT_TWO),
    ] {
        for length in 0..=certificate.len() {
            let mut input = Vec::from_slice(rt.alloc(), certificate.as_bytes())?;
            input.truncate(length);
            let (output, status) = run_of(rt.alloc(), "check", input)?;
            match for_the_front(ends, length) {
                Some((wanted, ending)) => {
                    assert_eq!(rt; output.as_slice(), wanted.as_bytes(), "{length}");
                    assert_eq!(rt; status, ending, "{length}");
                }
                None => {
                    assert!(rt; is_refusal(output.as_slice()), "{length}");
                    assert_eq!(rt; status, Status::Refused, "{length}");
                }
            }
        }
    }
    Ok(())
}
