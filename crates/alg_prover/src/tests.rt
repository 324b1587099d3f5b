//! A file of four goals, and their answers.

ghost use Rattle.std.specs.Prelude.{◌≡◌, IfOk, pos};
ghost use Rattle.alg_reify.specs.TestTerms.{test_side};
ghost use Rattle.alg_prover.specs.Examples.{by_nsatz, example, example_goal};

use crate::laws::{answers_are_printable, no_differs, one_answer, proved_is_right};
use crate::{NoMemory, answers};
use alg_lines::Answer;
use alg_terms::{Equation, File, Goal, Kind, Method, Name, Seq, Sort, Statement, Term, VarDecl};
use alg_universe::Rats;
use sqlite_items::Boxed;
use std::alloc::Global;
use std::test::Fail;

// (3*x)^2*x + c
fn side(alloc: Global, c: u64) -> Result<Term, NoMemory>
    ensures { IfOk result (λ term. term ≡ test_side (pos 3) 2 (pos c)) }
{
    let base = Term::Mul(
        Boxed::new(alloc, Term::Int(3))?,
        Boxed::new(alloc, Term::Var(0))?,
    );
    let power = Term::Pow(Boxed::new(alloc, base)?, 2);
    let product = Term::Mul(Boxed::new(alloc, power)?, Boxed::new(alloc, Term::Var(0))?);
    Ok(Term::Add(
        Boxed::new(alloc, product)?,
        Boxed::new(alloc, Term::Int(i128::from(c)))?,
    ))
}

fn by_nsatz(alloc: Global) -> Method
    ensures { result ≡ by_nsatz }
{
    Method::ByNsatz {
        uses: Seq::from_vec(Vec::new(alloc)),
        power: 1,
        limit: 10,
    }
}

// (3*x)^2*x + c = (3*x)^2*x + d
fn goal(alloc: Global, c: u64, d: u64, method: Method) -> Result<Goal, NoMemory>
    ensures { IfOk result (λ goal. goal ≡ example_goal (pos c) (pos d) method) }
{
    let left = side(alloc, c)?;
    let right = side(alloc, d)?;
    Ok(Goal {
        equation: Equation {
            sort: 0,
            left,
            right,
        },
        method,
    })
}

fn goals(alloc: Global) -> Result<Seq<Goal>, NoMemory>
    ensures { IfOk result (λ goals. goals ≡ example.goals) }
{
    let mut goals = Seq::from_vec(Vec::new(alloc));
    goals.push(goal(alloc, 5, 5, Method::ByRing)?)?;
    goals.push(goal(alloc, 5, 6, Method::ByRing)?)?;
    goals.push(goal(alloc, 5, 5, by_nsatz(alloc))?)?;
    goals.push(goal(alloc, 5, 6, by_nsatz(alloc))?)?;
    Ok(goals)
}

fn sorts(alloc: Global) -> Result<Seq<Sort>, NoMemory>
    ensures { IfOk result (λ sorts. sorts ≡ example.sorts) }
{
    let mut sorts = Seq::from_vec(Vec::new(alloc));
    sorts.push(Sort {
        name: Name::new(alloc, "_")?,
        kind: Kind::Domain,
        char0: false,
    })?;
    Ok(sorts)
}

fn vars(alloc: Global) -> Result<Seq<VarDecl>, NoMemory>
    ensures { IfOk result (λ vars. vars ≡ example.vars) }
{
    let mut vars = Seq::from_vec(Vec::new(alloc));
    vars.push(VarDecl {
        name: Name::new(alloc, "_'")?,
        sort: 0,
    })?;
    Ok(vars)
}

fn order(alloc: Global) -> Result<Seq<Statement>, NoMemory>
    ensures { IfOk result (λ order. order ≡ example.order) }
{
    let mut order = Seq::from_vec(Vec::new(alloc));
    order.push(Statement::Sort(0))?;
    order.push(Statement::Vars { first: 0, count: 1 })?;
    order.push(Statement::Goal(0))?;
    order.push(Statement::Goal(1))?;
    order.push(Statement::Goal(2))?;
    order.push(Statement::Goal(3))?;
    Ok(order)
}

fn example_file(alloc: Global) -> Result<File, NoMemory>
    ensures { IfOk result (λ file. file ≡ example) }
{
    let sorts = sorts(alloc)?;
    let vars = vars(alloc)?;
    let goals = goals(alloc)?;
    let order = order(alloc)?;
    Ok(File {
        sorts,
        homs: Seq::from_vec(Vec::new(alloc)),
        vars,
        hyps: Seq::from_vec(Vec::new(alloc)),
        goals,
        order,
    })
}

#[test]
fn each_goal_has_its_own_answer(rt: HostRuntime) -> Result<(), Fail> {
    let file = example_file(rt.alloc())?;
    let answers = answers(rt.alloc(), &file)?;
    match answers.as_slice() {
        [
            Answer::Proved { conditions },
            Answer::No { at, left, right },
            Answer::Certified { constants, cert },
            Answer::NoneUpTo { power },
        ] => {
            assert!(rt; conditions.items().is_empty(), "without conditions");
            assert_eq!(rt; (at.degree(), *left, *right), (0, 5, 6));
            let steps = cert.steps.items().len() + cert.lines.items().len();
            assert_eq!(rt; (cert.power, steps, constants.items().len()), (1, 0, 0));
            assert_eq!(rt; *power, 1);
        }
        _ => panic!(rt; "{answers:?}"),
    }
    Ok(())
}

#[test]
fn the_laws_are_called() {
    one_answer();
    proved_is_right::<Rats>();
    no_differs();
    answers_are_printable();
}
