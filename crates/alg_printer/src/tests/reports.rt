//! Reports in print.

use crate::report_text;
use alg_lines::GoalCheck;
use std::test::Fail;

const WANT: &str = "goal 1: ok proved
goal 2: ok
goal 3: bad
goal 4: bad at 3
goal 5: unchecked
goal 6: atoms
goal 7: range
goal 8: degree
";

#[test]
fn each_report_has_a_line_of_its_own(rt: HostRuntime) -> Result<(), Fail> {
    let reports = [
        GoalCheck::OkProved,
        GoalCheck::OkOther,
        GoalCheck::Bad { at: 0 },
        GoalCheck::Bad { at: 3 },
        GoalCheck::Unchecked,
        GoalCheck::Atoms,
        GoalCheck::Range,
        GoalCheck::Degree,
    ];
    let text = report_text(rt.alloc(), &reports)?;
    assert_eq!(rt; text.as_slice(), WANT.as_bytes());
    Ok(())
}

#[test]
fn of_no_goals_nothing_is_reported(rt: HostRuntime) -> Result<(), Fail> {
    assert!(rt; report_text(rt.alloc(), &[])?.is_empty());
    Ok(())
}
