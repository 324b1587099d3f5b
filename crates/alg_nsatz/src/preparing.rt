//! The polynomials that a search is given for a goal.

ghost use Rattle.std.specs.Prelude.{◌≡◌, ◌<◌, ◌++◌, cond, [], ◌∷◌, All, Contains, length, IfOk, IfErr, OnOk};
ghost use Rattle.alg_terms.specs.GoalRules.{IsEquation, IsGoal, IsHyp, DividesNowhere};
ghost use Rattle.alg_terms.specs.Members.{goal_at};
ghost use Rattle.alg_terms.specs.Valid.{IsValid};
ghost use Rattle.alg_mono.specs.Outcomes.{Outcome};
ghost use Rattle.alg_mono.specs.Refusals.{RefusesWith};
ghost use Rattle.alg_reify.specs.Numbered.{numbered};
ghost use Rattle.alg_reify.specs.Preparing.{IsByNsatz, StopsPreparing, difference, difference_outcome, uses_outcome, equation_differences, nonzero_differences};
ghost use Rattle.alg_reify.specs.Table.{equation_leaves, use_leaves};
ghost use Rattle.alg_nsatz.specs.Tasks.{IsPrepared, IsTask, StopsTask};
ghost use Rattle.alg_nsatz.specs.Puts.{PutsUse};

use crate::product::product;
use crate::{NoMemory, Poly, Stop};
use alg_reify::{Atoms, Overrun, atoms_of, reify};
use alg_terms::{Equation, File, Goal, Method, Seq, Use};
use std::alloc::Global;

/// What a search is given: whether some power of `goal` up to `power` is zero where all of `hyps` are,
/// to be found by at most `limit` counted moves. The polynomials are over `atoms` atoms by their
/// numbers.
#[derive(Debug, Drop)]
pub struct Task {
    pub atoms: u32,
    pub hyps: Seq<Poly>,
    pub goal: Poly,
    pub power: u32,
    pub limit: u32,
}

/// The differences of used hypotheses: of the equations, and of the `<>`.
#[derive(Drop)]
struct Differences {
    equations: Vec<Poly>,
    nonzero: Vec<Poly>,
}

/// The difference of an equation's sides under a path. The left side is made first.
fn difference(
    alloc: Global,
    file: &File,
    path: &[u32],
    equation: &Equation,
    table: &Atoms,
) -> Result<Poly, Overrun>
    requires equation { IsEquation file.now equation.now }
    requires plain { DividesNowhere equation.now }
    requires held { All (Contains table.now) (equation_leaves path.now equation.now) }
    ensures ok { IfOk result (λ p. p ≡ numbered table.now (difference path.now equation.now)) }
    ensures fine { OnOk result (difference_outcome path.now equation.now ≡ Outcome.Fine) }
    ensures refused { IfErr result (λ e. RefusesWith e (difference_outcome path.now equation.now)) }
{
    let left: Poly = reify(alloc, file, path, &equation.left, table)?;
    let right: Poly = reify(alloc, file, path, &equation.right, table)?;
    left.sub(alloc, &right)
}

/// Puts a difference last among those of its kind.
fn put(differences: &mut Differences, is_nonzero: bool, difference: Poly) -> Result<(), NoMemory>
    ensures equations { OnOk result (differences.new.equations.items
        ≡ differences.old.equations.items ++ cond is_nonzero [] (difference ∷ [])) }
    ensures nonzero { OnOk result (differences.new.nonzero.items
        ≡ differences.old.nonzero.items ++ cond is_nonzero (difference ∷ []) []) }
{
    if is_nonzero {
        differences.nonzero.push(difference)?;
    } else {
        differences.equations.push(difference)?;
    }
    Ok(())
}

/// Puts the difference of a used hypothesis under its path last among those of its kind.
fn put_use(
    alloc: Global,
    differences: &mut Differences,
    file: &File,
    used: &Use,
    table: &Atoms,
) -> Result<(), Overrun>
    requires hyps { All (IsHyp file.now) file.now.hyps }
    requires there { used.now.hyp < length file.now.hyps }
    requires held { All (Contains table.now) (use_leaves file.now used.now) }
    ensures { PutsUse file.now table.now used.now differences.old differences.new result }
{
    let hyp = &file.hyps.items()[used.hyp as usize];
    let difference = difference(alloc, file, used.path.items(), &hyp.equation, table)?;
    put(differences, hyp.nonzero, difference)?;
    Ok(())
}

/// The differences of used hypotheses under their paths, made in order.
fn make_differences(
    alloc: Global,
    file: &File,
    uses: &[Use],
    table: &Atoms,
) -> Result<Differences, Overrun>
    requires hyps { All (IsHyp file.now) file.now.hyps }
    requires there { All (λ u. u.hyp < length file.now.hyps) uses.now }
    requires held { All (λ u. All (Contains table.now) (use_leaves file.now u)) uses.now }
    ensures equations { IfOk result (λ d.
        d.equations.items ≡ equation_differences file.now table.now uses.now) }
    ensures nonzero { IfOk result (λ d.
        d.nonzero.items ≡ nonzero_differences file.now table.now uses.now) }
    ensures fine { OnOk result (uses_outcome file.now uses.now ≡ Outcome.Fine) }
    ensures refused { IfErr result (λ e. RefusesWith e (uses_outcome file.now uses.now)) }
{
    let mut differences = Differences {
        equations: Vec::new(alloc),
        nonzero: Vec::new(alloc),
    };
    for used in uses {
        put_use(alloc, &mut differences, file, used, table)?;
    }
    Ok(differences)
}

/// The polynomials of an equation with its used hypotheses.
fn prepare_uses(
    alloc: Global,
    file: &File,
    equation: &Equation,
    uses: &[Use],
    power: u32,
    limit: u32,
) -> Result<Task, Stop>
    requires hyps { All (IsHyp file.now) file.now.hyps }
    requires equation { IsEquation file.now equation.now }
    requires plain { DividesNowhere equation.now }
    requires there { All (λ u. u.hyp < length file.now.hyps) uses.now }
    ensures task { IfOk result (IsPrepared file.now equation.now uses.now) }
    ensures power { IfOk result (λ t. t.power ≡ power) }
    ensures limit { IfOk result (λ t. t.limit ≡ limit) }
    ensures stop { IfErr result (StopsPreparing file.now equation.now uses.now) }
{
    let table = atoms_of(alloc, file, equation, uses)?;
    let first = difference(alloc, file, &[], equation, &table)?;
    let rest = make_differences(alloc, file, uses, &table)?;
    let goal = product(alloc, first, &rest.nonzero)?;
    Ok(Task {
        atoms: table.len() as u32,
        hyps: Seq::from_vec(rest.equations),
        goal,
        power,
        limit,
    })
}

/// The task of a goal.
fn prepare_goal(alloc: Global, file: &File, goal: &Goal) -> Result<Task, Stop>
    requires hyps { All (IsHyp file.now) file.now.hyps }
    requires goal { IsGoal file.now goal.now }
    requires method { IsByNsatz goal.now.method }
    ensures task { IfOk result (IsTask file.now goal.now) }
    ensures stop { IfErr result (StopsTask file.now goal.now.equation goal.now.method) }
{
    match &goal.method {
        Method::ByNsatz { uses, power, limit } => {
            prepare_uses(alloc, file, &goal.equation, uses.items(), *power, *limit)
        }
        Method::ByRing | Method::ByField => unreachable!(),
    }
}

/// What a search is given for a goal by nsatz of a valid file, by its number.
///
/// `Atoms` comes exactly where the goal with its used hypotheses has more than 1,000 atoms. Else the
/// left side of the goal, its right side and their difference are made first, then the same three of
/// each used hypothesis under its path, and then the product of the goal's difference and those of
/// the used `<>`, which is bounded as one product of all its factors: `Range` or `Degree` exactly where
/// the first of all these that breaks a rule breaks that one.
pub fn prepare(alloc: Global, file: &File, goal: u32) -> Result<Task, Stop>
    requires valid { IsValid file.now }
    requires there { goal < length file.now.goals }
    requires method { IsByNsatz (goal_at file.now goal).method }
    ensures task { IfOk result (IsTask file.now (goal_at file.now goal)) }
    ensures stop { IfErr result (StopsTask file.now (goal_at file.now goal).equation
        (goal_at file.now goal).method) }
{
    prepare_goal(alloc, file, &file.goals.items()[goal as usize])
}
