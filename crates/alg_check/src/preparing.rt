//! What a certificate is tried on: the hypotheses and the goal as polynomials.

ghost use Rattle.std.specs.Prelude.{◌≡◌, ◌<◌, ◌++◌, cond, [], ◌∷◌, All, Contains, length, IfOk, IfErr, OnOk};
ghost use Rattle.alg_terms.specs.GoalRules.{IsEquation, IsHyp, DividesNowhere};
ghost use Rattle.alg_mono.specs.Outcomes.{Outcome};
ghost use Rattle.alg_mono.specs.Refusals.{RefusesWith};
ghost use Rattle.alg_reify.specs.Numbered.{numbered};
ghost use Rattle.alg_reify.specs.Preparing.{StopsPreparing, difference, difference_outcome, uses_outcome, equation_differences, nonzero_differences};
ghost use Rattle.alg_reify.specs.Table.{equation_leaves, use_leaves};
ghost use Rattle.alg_check.specs.Preparing.{AddsUse, IsPrepared};

use crate::product::product;
use crate::{NoMemory, Poly};
use alg_reify::{Atoms, Overrun, Stop, atoms_of, reify};
use alg_terms::{Equation, File, Use};
use std::alloc::Global;

/// The polynomials that are given as zero, and the one that a certificate brings to zero.
#[derive(Drop)]
pub(crate) struct Prepared {
    pub(crate) hyps: Vec<Poly>,
    pub(crate) goal: Poly,
}

/// The differences of used hypotheses: those of equations are zero, and those of `<>` are factors of
/// the goal.
#[derive(Drop)]
struct Used {
    zero: Vec<Poly>,
    factors: Vec<Poly>,
}

/// The left side of an equation under a path, less the right one.
fn difference(
    alloc: Global,
    file: &File,
    path: &[u32],
    equation: &Equation,
    table: &Atoms,
) -> Result<Poly, Overrun>
    requires equation { IsEquation file.now equation.now }
    requires plain { DividesNowhere equation.now }
    requires held { All (Contains table.now) (equation_leaves path.now equation.now) }
    ensures ok { IfOk result (λ p. p ≡ numbered table.now (difference path.now equation.now)) }
    ensures fine { OnOk result (difference_outcome path.now equation.now ≡ Outcome.Fine) }
    ensures refused { IfErr result (λ e. RefusesWith e (difference_outcome path.now equation.now)) }
{
    let left: Poly = reify(alloc, file, path, &equation.left, table)?;
    let right: Poly = reify(alloc, file, path, &equation.right, table)?;
    left.sub(alloc, &right)
}

/// Adds the difference of a hypothesis.
fn add(used: &mut Used, is_nonzero: bool, difference: Poly) -> Result<(), NoMemory>
    ensures zero { OnOk result (used.new.zero.items
        ≡ used.old.zero.items ++ cond is_nonzero [] (difference ∷ [])) }
    ensures factors { OnOk result (used.new.factors.items
        ≡ used.old.factors.items ++ cond is_nonzero (difference ∷ []) []) }
{
    if is_nonzero {
        used.factors.push(difference)?;
    } else {
        used.zero.push(difference)?;
    }
    Ok(())
}

/// Adds the difference of a used hypothesis under its path.
fn add_use(
    alloc: Global,
    used: &mut Used,
    file: &File,
    one: &Use,
    table: &Atoms,
) -> Result<(), Overrun>
    requires hyps { All (IsHyp file.now) file.now.hyps }
    requires there { one.now.hyp < length file.now.hyps }
    requires held { All (Contains table.now) (use_leaves file.now one.now) }
    ensures { AddsUse file.now table.now one.now used.old used.new result }
{
    let hyp = &file.hyps.items()[one.hyp as usize];
    let difference = difference(alloc, file, one.path.items(), &hyp.equation, table)?;
    add(used, hyp.nonzero, difference)?;
    Ok(())
}

/// The differences of used hypotheses under their paths, in order.
fn used_differences(
    alloc: Global,
    file: &File,
    uses: &[Use],
    table: &Atoms,
) -> Result<Used, Overrun>
    requires hyps { All (IsHyp file.now) file.now.hyps }
    requires there { All (λ u. u.hyp < length file.now.hyps) uses.now }
    requires held { All (λ u. All (Contains table.now) (use_leaves file.now u)) uses.now }
    ensures zero { IfOk result (λ d.
        d.zero.items ≡ equation_differences file.now table.now uses.now) }
    ensures factors { IfOk result (λ d.
        d.factors.items ≡ nonzero_differences file.now table.now uses.now) }
    ensures fine { OnOk result (uses_outcome file.now uses.now ≡ Outcome.Fine) }
    ensures refused { IfErr result (λ e. RefusesWith e (uses_outcome file.now uses.now)) }
{
    let mut used = Used {
        zero: Vec::new(alloc),
        factors: Vec::new(alloc),
    };
    for one in uses {
        add_use(alloc, &mut used, file, one, table)?;
    }
    Ok(used)
}

/// What a certificate for an equation with used hypotheses is tried on.
pub(crate) fn prepare(
    alloc: Global,
    file: &File,
    equation: &Equation,
    uses: &[Use],
) -> Result<Prepared, Stop>
    requires hyps { All (IsHyp file.now) file.now.hyps }
    requires equation { IsEquation file.now equation.now }
    requires plain { DividesNowhere equation.now }
    requires there { All (λ u. u.hyp < length file.now.hyps) uses.now }
    ensures prepared { IfOk result (IsPrepared file.now equation.now uses.now) }
    ensures stop { IfErr result (StopsPreparing file.now equation.now uses.now) }
{
    let table = atoms_of(alloc, file, equation, uses)?;
    let first = difference(alloc, file, &[], equation, &table)?;
    let used = used_differences(alloc, file, uses, &table)?;
    let goal = product(alloc, first, &used.factors)?;
    Ok(Prepared {
        hyps: used.zero,
        goal,
    })
}
