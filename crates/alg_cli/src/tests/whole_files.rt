//! A file with a goal by each method, and one with many hypotheses.

use super::{joined, prove_run};
use crate::status::Status;
use std::alloc::Global;
use std::test::Fail;

const DECLARED: &str = "ring R.
field F char 0.
hom f : R -> F.
var a b c d : R.
var u v w t : F.
hyp E : a = b.
hyp H : u*v = 1.
hyp K : u*w = 1.
hyp P : u + t = 0.
hyp Q : u - t = 0.
hyp S : w^2 = 0.
";

/// Goals as they are read, each with the lines that are written for it.
const GOALS: [(&str, &str); 12] = [
    (
        "goal (a + b)*(a - b) = a^2 - b^2 by ring.\n",
        "goal (a + b)*(a - b) = a^2 - b^2 by ring.
  proved.
",
    ),
    (
        "goal (a + b)^3 = a^3 + 3*a^2*b + 3*a*b^2 + b^3 by ring.\n",
        "goal (a + b)^3 = a^3 + 3*a^2*b + 3*a*b^2 + b^3 by ring.
  proved.
",
    ),
    (
        "goal (a^2 + b^2)*(c^2 + d^2) = (a*c - b*d)^2 + (a*d + b*c)^2 by ring.\n",
        "goal (a^2 + b^2)*(c^2 + d^2) = (a*c - b*d)^2 + (a*d + b*c)^2 by ring.
  proved.
",
    ),
    (
        "goal f(a*b + c) = f(a)*f(b) + f(c) by ring.\n",
        "goal f(a*b + c) = f(a)*f(b) + f(c) by ring.
  proved.
",
    ),
    (
        "goal f((a - b)^2) = f(a)^2 - 2*f(a)*f(b) + f(b)^2 by ring.\n",
        "goal f((a - b)^2) = f(a)^2 - 2*f(a)*f(b) + f(b)^2 by ring.
  proved.
",
    ),
    (
        "goal u/v + w/t = (u*t + w*v)/(v*t) by field.\n",
        "goal u/v + w/t = (u*t + w*v)/(v*t) by field.
  proved if v <> 0, t <> 0, v*t <> 0.
",
    ),
    (
        "goal 1/(u - v) - 1/(u + v) = 2*v/(u^2 - v^2) by field.\n",
        "goal 1/(u - v) - 1/(u + v) = 2*v/(u^2 - v^2) by field.
  proved if u - v <> 0, u + v <> 0, u^2 - v^2 <> 0.
",
    ),
    (
        "goal f(a)/2 + f(a)/2 = f(a) by field.\n",
        "goal f(a)/2 + f(a)/2 = f(a) by field.
  proved.
",
    ),
    (
        "goal v = w by nsatz using H, K.\n",
        "goal v = w by nsatz using H, K power 1 limit 10000.
  proved version 2 power 1.
  line 1, w, 1 minus 1, v, 2.
  step 1 minus 1, 3.
",
    ),
    (
        "goal t = 0 by nsatz using P, Q.\n",
        "goal t = 0 by nsatz using P, Q power 1 limit 10000.
  proved version 2 power 1.
  line 1, 2 minus -1, 1 over 2.
  step 1 minus 1, 1.
  step 1 minus -1, 3.
",
    ),
    (
        "goal f(a)^2 = f(b)^2 by nsatz using f(E).\n",
        "goal f(a)^2 = f(b)^2 by nsatz using f(E) power 1 limit 10000.
  proved version 2 power 1.
  step 1 minus 1, f(a), 1.
  step 1 minus 1, f(b), 1.
",
    ),
    (
        "goal w = 0 by nsatz using S power 2.\n",
        "goal w = 0 by nsatz using S power 2 limit 10000.
  proved version 2 power 2.
  step 1 minus 1, 1.
",
    ),
];

#[test]
fn a_file_may_have_goals_by_each_method(rt: HostRuntime) -> Result<(), Fail> {
    let mut input = joined(rt.alloc(), DECLARED, "")?;
    let mut wanted = joined(rt.alloc(), DECLARED, "")?;
    for (goal, answered) in GOALS {
        input.extend_from_slice(goal.as_bytes())?;
        wanted.extend_from_slice(answered.as_bytes())?;
    }
    let (output, status) = prove_run(rt.alloc(), input)?;
    assert_eq!(rt; output, wanted);
    assert_eq!(rt; status, Status::Done);
    Ok(())
}

/// A thousand times the same hypothesis under other names, and a goal that does not follow from it.
fn many_hypotheses(alloc: Global, limit: u32) -> Result<Vec<u8>, Fail> {
    let mut file = Vec::from_slice(alloc, b"domain D.\nvar x y : D.\n")?;
    for k in 0..1000 {
        let hyp = format!(in alloc; "hyp h{k} : x = 0.\n")?;
        file.extend_from_slice(hyp.as_bytes())?;
    }
    file.extend_from_slice(b"goal y = 0 by nsatz using h0")?;
    for k in 1..1000 {
        let used = format!(in alloc; ", h{k}")?;
        file.extend_from_slice(used.as_bytes())?;
    }
    let options = format!(in alloc; " power 1 limit {limit}.\n")?;
    file.extend_from_slice(options.as_bytes())?;
    Ok(file)
}

#[test]
fn a_goal_may_use_1000_hypotheses(rt: HostRuntime) -> Result<(), Fail> {
    // Each but the first is reduced to zero by the first, in one counted move.
    for (limit, answer) in [
        (999, "  none up to power 1.\n"),
        (998, "  gave up after 998.\n"),
    ] {
        let input = many_hypotheses(rt.alloc(), limit)?;
        let mut wanted = Vec::from_slice(rt.alloc(), input.as_slice())?;
        wanted.extend_from_slice(answer.as_bytes())?;
        let (output, status) = prove_run(rt.alloc(), input)?;
        assert_eq!(rt; output, wanted, "{limit}");
        assert_eq!(rt; status, Status::NotAll, "{limit}");
    }
    Ok(())
}
