//! A small file, with names of apostrophes:
//!     ring _.  field _'.  hom _'' : _ -> _'.  var _''' : _.  var _'''' : _'.  hyp _''''' : x^2 = 4.
//!     goal 1/y = y by field.  goal f(x)^2 = 4 by nsatz using f(A).
//! where f, x, y and A are the last four of these names.

ghost use Rattle.std.specs.Prelude.{◌≡◌, [], ◌∷◌, IfOk};
ghost use Rattle.alg_terms.specs.SmallFile.{small, inverse_is_itself, image_of_square};

use crate::NoMemory;
use alg_terms::{
    Equation, File, Goal, HomDecl, Hyp, Kind, Method, Name, Seq, Sort, Statement, Term, Use,
    VarDecl,
};
use sqlite_items::Boxed;
use std::alloc::Global;

fn declare_sorts(alloc: Global) -> Result<Seq<Sort>, NoMemory>
    ensures { IfOk result (λ sorts. sorts ≡ small.sorts) }
{
    let mut sorts = Seq::from_vec(Vec::new(alloc));
    sorts.push(Sort {
        name: Name::new(alloc, "_")?,
        kind: Kind::Ring,
        char0: false,
    })?;
    sorts.push(Sort {
        name: Name::new(alloc, "_'")?,
        kind: Kind::Field,
        char0: false,
    })?;
    Ok(sorts)
}

fn declare_homs(alloc: Global) -> Result<Seq<HomDecl>, NoMemory>
    ensures { IfOk result (λ homs. homs ≡ small.homs) }
{
    let mut homs = Seq::from_vec(Vec::new(alloc));
    homs.push(HomDecl {
        name: Name::new(alloc, "_''")?,
        from: 0,
        to: 1,
    })?;
    Ok(homs)
}

fn declare_vars(alloc: Global) -> Result<Seq<VarDecl>, NoMemory>
    ensures { IfOk result (λ vars. vars ≡ small.vars) }
{
    let mut vars = Seq::from_vec(Vec::new(alloc));
    vars.push(VarDecl {
        name: Name::new(alloc, "_'''")?,
        sort: 0,
    })?;
    vars.push(VarDecl {
        name: Name::new(alloc, "_''''")?,
        sort: 1,
    })?;
    Ok(vars)
}

fn declare_hyps(alloc: Global) -> Result<Seq<Hyp>, NoMemory>
    ensures { IfOk result (λ hyps. hyps ≡ small.hyps) }
{
    let equation = Equation {
        sort: 0,
        left: Term::Pow(Boxed::new(alloc, Term::Var(0))?, 2),
        right: Term::Int(4),
    };
    let mut hyps = Seq::from_vec(Vec::new(alloc));
    hyps.push(Hyp {
        name: Name::new(alloc, "_'''''")?,
        equation,
        nonzero: false,
    })?;
    Ok(hyps)
}

fn one_use(alloc: Global) -> Result<Seq<Use>, NoMemory>
    ensures { IfOk result (λ uses. uses ≡ record { path = 0 ∷ []; hyp = 0 } ∷ []) }
{
    let mut path = Seq::from_vec(Vec::new(alloc));
    path.push(0)?;
    let mut uses = Seq::from_vec(Vec::new(alloc));
    uses.push(Use { path, hyp: 0 })?;
    Ok(uses)
}

fn inverse_is_itself(alloc: Global) -> Result<Goal, NoMemory>
    ensures { IfOk result (λ goal. goal ≡ inverse_is_itself) }
{
    let left = Term::Div(
        Boxed::new(alloc, Term::Int(1))?,
        Boxed::new(alloc, Term::Var(1))?,
    );
    Ok(Goal {
        equation: Equation {
            sort: 1,
            left,
            right: Term::Var(1),
        },
        method: Method::ByField,
    })
}

fn image_of_square(alloc: Global) -> Result<Goal, NoMemory>
    ensures { IfOk result (λ goal. goal ≡ image_of_square) }
{
    let image = Term::Hom(0, Boxed::new(alloc, Term::Var(0))?);
    Ok(Goal {
        equation: Equation {
            sort: 1,
            left: Term::Pow(Boxed::new(alloc, image)?, 2),
            right: Term::Int(4),
        },
        method: Method::ByNsatz {
            uses: one_use(alloc)?,
            power: 1,
            limit: 10000,
        },
    })
}

fn goals(alloc: Global) -> Result<Seq<Goal>, NoMemory>
    ensures { IfOk result (λ goals. goals ≡ small.goals) }
{
    let mut goals = Seq::from_vec(Vec::new(alloc));
    goals.push(inverse_is_itself(alloc)?)?;
    goals.push(image_of_square(alloc)?)?;
    Ok(goals)
}

fn order(alloc: Global) -> Result<Seq<Statement>, NoMemory>
    ensures { IfOk result (λ order. order ≡ small.order) }
{
    let mut order = Seq::from_vec(Vec::new(alloc));
    order.push(Statement::Sort(0))?;
    order.push(Statement::Sort(1))?;
    order.push(Statement::Hom(0))?;
    order.push(Statement::Vars { first: 0, count: 1 })?;
    order.push(Statement::Vars { first: 1, count: 1 })?;
    order.push(Statement::Hyp(0))?;
    order.push(Statement::Goal(0))?;
    order.push(Statement::Goal(1))?;
    Ok(order)
}

pub(crate) fn small_file(alloc: Global) -> Result<File, NoMemory>
    ensures { IfOk result (λ file. file ≡ small) }
{
    Ok(File {
        sorts: declare_sorts(alloc)?,
        homs: declare_homs(alloc)?,
        vars: declare_vars(alloc)?,
        hyps: declare_hyps(alloc)?,
        goals: goals(alloc)?,
        order: order(alloc)?,
    })
}
