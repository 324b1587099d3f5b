//! Loaded files: what they declare, and goals of each turn.

use crate::laws::limits;
use crate::{NoMemory, load_file};
use alg_terms::{File, Kind, Statement, Term};
use std::alloc::Global;
use std::test::Fail;

// The term as it is written, with parentheses around each operation on two parts.
fn text(alloc: Global, term: &Term) -> Result<String, NoMemory> {
    match term {
        Term::Var(0) => String::from_str(alloc, "x"),
        Term::Var(1) => String::from_str(alloc, "y"),
        Term::Int(value) => format!(in alloc; "{value}"),
        Term::Add(left, right) => {
            let left = text(alloc, left.get())?;
            let right = text(alloc, right.get())?;
            format!(in alloc; "({left}+{right})")
        }
        Term::Mul(left, right) => {
            let left = text(alloc, left.get())?;
            let right = text(alloc, right.get())?;
            format!(in alloc; "({left}*{right})")
        }
        Term::Div(left, right) => {
            let left = text(alloc, left.get())?;
            let right = text(alloc, right.get())?;
            format!(in alloc; "({left}/{right})")
        }
        Term::Pow(part, exponent) => {
            let part = text(alloc, part.get())?;
            format!(in alloc; "{part}^{exponent}")
        }
        _ => String::from_str(alloc, "another term"),
    }
}

fn goal_text(alloc: Global, file: &File, number: usize) -> Result<String, NoMemory> {
    match file.goals.items().get(number) {
        Some(goal) => {
            let left = text(alloc, &goal.equation.left)?;
            let right = text(alloc, &goal.equation.right)?;
            let method = &goal.method;
            format!(in alloc; "{left} = {right} {method:?}")
        }
        None => String::from_str(alloc, "none"),
    }
}

/// Each row: the number of a goal, and the goal.
const TURNS: &[(usize, &str)] = &[
    (0, "(x+(0*y))^2 = ((x^2+((0*x)*y))+(0*y^2)) ByRing"),
    (1, "(x+(1*y))^2 = (x^2+(1*y^2)) ByRing"),
    (2, "((x/(x+2))+(2/(x+2))) = 1 ByField"),
    (3, "(x+(3*y))^2 = ((x^2+((6*x)*y))+(9*y^2)) ByRing"),
    (4, "(x+(4*y))^2 = (x^2+(16*y^2)) ByRing"),
    (8, "((x/(x+8))+(8/(x+8))) = 1 ByField"),
    (9, "(x+(9*y))^2 = ((x^2+((18*x)*y))+(81*y^2)) ByRing"),
    (10, "none"),
];

#[test]
fn goals_take_turns(rt: HostRuntime) -> Result<(), Fail> {
    let file = load_file(rt.alloc(), 10)?;
    for (number, want) in TURNS {
        let text = goal_text(rt.alloc(), &file, *number)?;
        assert_eq!(rt; text.as_str(), *want, "goal {number} of 10");
        drop(text);
    }
    drop(file);
    Ok(())
}

const LAST: &[(usize, &str)] = &[
    (9_998, "((x/(x+9998))+(9998/(x+9998))) = 1 ByField"),
    (
        9_999,
        "(x+(9999*y))^2 = ((x^2+((19998*x)*y))+(99980001*y^2)) ByRing",
    ),
    (10_000, "none"),
];

#[test]
fn the_greatest_file_is_given(rt: HostRuntime) -> Result<(), Fail> {
    limits();
    let file = load_file(rt.alloc(), 10_000)?;
    for (number, want) in LAST {
        let text = goal_text(rt.alloc(), &file, *number)?;
        assert_eq!(rt; text.as_str(), *want, "goal {number} of 10000");
        drop(text);
    }
    drop(file);
    Ok(())
}

#[test]
fn a_field_and_two_variables_are_declared(rt: HostRuntime) -> Result<(), Fail> {
    let file = load_file(rt.alloc(), 0)?;
    match (file.sorts.items(), file.vars.items()) {
        ([sort], [x, y]) => {
            assert_eq!(rt; (sort.name.text(), sort.kind), ("F", Kind::Field));
            assert_eq!(rt; (x.name.text(), x.sort), ("x", 0));
            assert_eq!(rt; (y.name.text(), y.sort), ("y", 0));
        }
        _ => panic!(rt; "{file:?}"),
    }
    assert!(rt; file.goals.items().is_empty(), "no goal of 0");
    Ok(())
}

#[test]
fn the_goals_stand_behind_the_variables(rt: HostRuntime) -> Result<(), Fail> {
    let sort = Statement::Sort(0);
    let vars = Statement::Vars { first: 0, count: 2 };
    let one = load_file(rt.alloc(), 1)?;
    assert_eq!(rt;
        one.order.items(),
        [sort, vars, Statement::Goal(0)].as_slice()
    );
    let three = load_file(rt.alloc(), 3)?;
    assert_eq!(rt; three.goals.items().len(), 3);
    let (first, second, third) = (Statement::Goal(0), Statement::Goal(1), Statement::Goal(2));
    assert_eq!(rt;
        three.order.items(),
        [sort, vars, first, second, third].as_slice()
    );
    Ok(())
}

// It makes nothing else, so that a run whose memory is refused tells what the file takes.
#[test]
fn a_file_of_100_goals_is_made(rt: HostRuntime) -> Result<(), Fail> {
    let _file = load_file(rt.alloc(), 100)?;
    Ok(())
}
