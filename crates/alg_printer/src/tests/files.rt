//! A whole file in print, with answers.

ghost use Rattle.std.specs.Prelude.{◌≡◌, IfOk};
ghost use Rattle.alg_terms.specs.Members.{uses_of};
ghost use Rattle.alg_terms.specs.SmallFile.{small, inverse_is_itself, image_of_square};
ghost use Rattle.alg_printer.specs.Examples.{inverse_answer, image_answer, one_line, one_step};

use crate::{NoMemory, file_text};
use alg_lines::{Answer, Cert, GoalStep, Line};
use alg_mono::Mono;
use alg_terms::{
    Equation, File, Goal, HomDecl, Hyp, Kind, Method, Name, Seq, Sort, Statement, Term, Use,
    VarDecl,
};
use sqlite_items::Boxed;
use std::alloc::Global;
use std::test::Fail;

fn sorts(alloc: Global) -> Result<Seq<Sort>, NoMemory>
    ensures { IfOk result (λ sorts. sorts ≡ small.sorts) }
{
    let mut sorts = Seq::from_vec(Vec::new(alloc));
    sorts.push(Sort {
        name: Name::new(alloc, "_")?,
        kind: Kind::Ring,
        char0: false,
    })?;
    sorts.push(Sort {
        name: Name::new(alloc, "_'")?,
        kind: Kind::Field,
        char0: false,
    })?;
    Ok(sorts)
}

fn homs(alloc: Global) -> Result<Seq<HomDecl>, NoMemory>
    ensures { IfOk result (λ homs. homs ≡ small.homs) }
{
    let mut homs = Seq::from_vec(Vec::new(alloc));
    homs.push(HomDecl {
        name: Name::new(alloc, "_''")?,
        from: 0,
        to: 1,
    })?;
    Ok(homs)
}

fn vars(alloc: Global) -> Result<Seq<VarDecl>, NoMemory>
    ensures { IfOk result (λ vars. vars ≡ small.vars) }
{
    let mut vars = Seq::from_vec(Vec::new(alloc));
    vars.push(VarDecl {
        name: Name::new(alloc, "_'''")?,
        sort: 0,
    })?;
    vars.push(VarDecl {
        name: Name::new(alloc, "_''''")?,
        sort: 1,
    })?;
    Ok(vars)
}

fn hyps(alloc: Global) -> Result<Seq<Hyp>, NoMemory>
    ensures { IfOk result (λ hyps. hyps ≡ small.hyps) }
{
    let mut hyps = Seq::from_vec(Vec::new(alloc));
    hyps.push(Hyp {
        name: Name::new(alloc, "_'''''")?,
        equation: Equation {
            sort: 0,
            left: Term::Pow(Boxed::new(alloc, Term::Var(0))?, 2),
            right: Term::Int(4),
        },
        nonzero: false,
    })?;
    Ok(hyps)
}

fn inverse(alloc: Global) -> Result<Goal, NoMemory>
    ensures { IfOk result (λ goal. goal ≡ inverse_is_itself) }
{
    let one = Boxed::new(alloc, Term::Int(1))?;
    let variable = Boxed::new(alloc, Term::Var(1))?;
    Ok(Goal {
        equation: Equation {
            sort: 1,
            left: Term::Div(one, variable),
            right: Term::Var(1),
        },
        method: Method::ByField,
    })
}

fn uses(alloc: Global) -> Result<Seq<Use>, NoMemory>
    ensures { IfOk result (λ uses. uses ≡ uses_of image_of_square.method) }
{
    let mut path = Seq::from_vec(Vec::new(alloc));
    path.push(0)?;
    let mut uses = Seq::from_vec(Vec::new(alloc));
    uses.push(Use { path, hyp: 0 })?;
    Ok(uses)
}

fn image(alloc: Global) -> Result<Goal, NoMemory>
    ensures { IfOk result (λ goal. goal ≡ image_of_square) }
{
    let variable = Term::Hom(0, Boxed::new(alloc, Term::Var(0))?);
    let left = Term::Pow(Boxed::new(alloc, variable)?, 2);
    let uses = uses(alloc)?;
    Ok(Goal {
        equation: Equation {
            sort: 1,
            left,
            right: Term::Int(4),
        },
        method: Method::ByNsatz {
            uses,
            power: 1,
            limit: 10_000,
        },
    })
}

fn goals(alloc: Global) -> Result<Seq<Goal>, NoMemory>
    ensures { IfOk result (λ goals. goals ≡ small.goals) }
{
    let mut goals = Seq::from_vec(Vec::new(alloc));
    goals.push(inverse(alloc)?)?;
    goals.push(image(alloc)?)?;
    Ok(goals)
}

fn order(alloc: Global) -> Result<Seq<Statement>, NoMemory>
    ensures { IfOk result (λ order. order ≡ small.order) }
{
    let mut order = Seq::from_vec(Vec::new(alloc));
    order.push(Statement::Sort(0))?;
    order.push(Statement::Sort(1))?;
    order.push(Statement::Hom(0))?;
    order.push(Statement::Vars { first: 0, count: 1 })?;
    order.push(Statement::Vars { first: 1, count: 1 })?;
    order.push(Statement::Hyp(0))?;
    order.push(Statement::Goal(0))?;
    order.push(Statement::Goal(1))?;
    Ok(order)
}

fn small_file(alloc: Global) -> Result<File, NoMemory>
    ensures { IfOk result (λ file. file ≡ small) }
{
    let sorts = sorts(alloc)?;
    let homs = homs(alloc)?;
    let vars = vars(alloc)?;
    let hyps = hyps(alloc)?;
    let goals = goals(alloc)?;
    let order = order(alloc)?;
    Ok(File {
        sorts,
        homs,
        vars,
        hyps,
        goals,
        order,
    })
}

// Proved where the variable is not zero.
fn first_answer(alloc: Global) -> Result<Answer, NoMemory>
    ensures { IfOk result (λ answer. answer ≡ inverse_answer) }
{
    let mut conditions = Seq::from_vec(Vec::new(alloc));
    conditions.push(Term::Var(1))?;
    Ok(Answer::Proved { conditions })
}

fn lines(alloc: Global) -> Result<Seq<Line>, NoMemory>
    ensures { IfOk result (λ lines. lines ≡ one_line) }
{
    let mut lines = Seq::from_vec(Vec::new(alloc));
    lines.push(Line {
        a: 1,
        m: Mono::one(alloc),
        i: 1,
        b: -1,
        n: Mono::one(alloc),
        j: 1,
        d: 2,
    })?;
    Ok(lines)
}

fn steps(alloc: Global) -> Result<Seq<GoalStep>, NoMemory>
    ensures { IfOk result (λ steps. steps ≡ one_step) }
{
    let mut steps = Seq::from_vec(Vec::new(alloc));
    steps.push(GoalStep {
        a: 1,
        b: 1,
        n: Mono::one(alloc),
        j: 2,
        d: 1,
    })?;
    Ok(steps)
}

// A certificate of a line and a step, with a constant.
fn second_answer(alloc: Global) -> Result<Answer, NoMemory>
    ensures { IfOk result (λ answer. answer ≡ image_answer) }
{
    let mut constants = Seq::from_vec(Vec::new(alloc));
    constants.push(2)?;
    let lines = lines(alloc)?;
    let steps = steps(alloc)?;
    Ok(Answer::Certified {
        constants,
        cert: Cert {
            power: 1,
            lines,
            steps,
        },
    })
}

const WANT: &str = "ring _.
field _'.
hom _'' : _ -> _'.
var _''' : _.
var _'''' : _'.
hyp _''''' : _'''^2 = 4.
goal 1/_'''' = _'''' by field.
  proved if _'''' <> 0.
goal _''(_''')^2 = 4 by nsatz using _''(_''''') power 1 limit 10000.
  proved version 2 power 1 if 2 <> 0.
  line 1, 1 minus -1, 1 over 2.
  step 1 minus 1, 2.
";

#[test]
fn a_file_is_printed_with_its_answers(rt: HostRuntime) -> Result<(), Fail> {
    let alloc = rt.alloc();
    let file = small_file(alloc)?;
    let answers = [Some(first_answer(alloc)?), Some(second_answer(alloc)?)];
    let text = file_text(alloc, &file, &answers)?;
    assert_eq!(rt; text.as_slice(), WANT.as_bytes());
    Ok(())
}

const WANT_ZERO: &str = "ring _.
field _'.
hom _'' : _ -> _'.
var _''' : _.
var _'''' : _'.
hyp _''''' : _'''^2 = 4.
goal 1/_'''' = _'''' by field.
  zero denominator _''''.
goal _''(_''')^2 = 4 by nsatz using _''(_''''') power 1 limit 10000.
";

#[test]
fn a_denominator_that_is_zero_is_printed(rt: HostRuntime) -> Result<(), Fail> {
    let alloc = rt.alloc();
    let file = small_file(alloc)?;
    let denominator = Term::Var(1);
    let answers = [Some(Answer::ZeroDenominator { denominator }), None];
    let text = file_text(alloc, &file, &answers)?;
    assert_eq!(rt; text.as_slice(), WANT_ZERO.as_bytes());
    Ok(())
}
