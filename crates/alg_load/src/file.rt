//! Loaded files.

ghost use Rattle.std.specs.Prelude.{◌≡◌, ◌≤◌, IfOk};
ghost use Rattle.alg_load.specs.Limits.{MAX_LOAD};
ghost use Rattle.alg_load.specs.Loaded.{loaded};
ghost use Rattle.alg_terms.specs.Valid.{IsValid};

use crate::NoMemory;
use crate::declarations::{sorts, vars};
use crate::goals::goals;
use alg_terms::{File, Seq, Statement};
use std::alloc::Global;

// The field, the variables and then the goals.
fn order(alloc: Global, n: u32) -> Result<Seq<Statement>, NoMemory>
    ensures { IfOk result (λ order. order ≡ (loaded n).order) }
{
    let mut order = Seq::from_vec(Vec::new(alloc));
    order.push(Statement::Sort(0))?;
    order.push(Statement::Vars { first: 0, count: 2 })?;
    for i in 0..n {
        order.push(Statement::Goal(i))?;
    }
    Ok(order)
}

/// The file of `n`: a field `F`, two variables `x` and `y` of it, and `n` goals, for i from 0 to
/// n - 1. By the remainder of i by 3 these are
///
/// ```text
/// goal (x + i*y)^2 = x^2 + (2i)*x*y + (i*i)*y^2 by ring.
/// goal (x + i*y)^2 = x^2 + (i*i)*y^2 by ring.
/// goal x/(x + i) + i/(x + i) = 1 by field.
/// ```
///
/// where each of i, (2i) and (i*i) is one literal. `n` is at most [`GREATEST_LOAD`](crate::GREATEST_LOAD).
pub fn load_file(alloc: Global, n: u32) -> Result<File, NoMemory>
    requires { n ≤ MAX_LOAD }
    ensures file { IfOk result (λ file. file ≡ loaded n) }
    ensures valid { IfOk result IsValid }
{
    let sorts = sorts(alloc)?;
    let vars = vars(alloc)?;
    let goals = goals(alloc, n)?;
    let order = order(alloc, n)?;
    Ok(File {
        sorts,
        homs: Seq::from_vec(Vec::new(alloc)),
        vars,
        hyps: Seq::from_vec(Vec::new(alloc)),
        goals,
        order,
    })
}
