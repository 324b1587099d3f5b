//! Numerators over the common factors of two fractions.

ghost use Rattle.std.specs.Prelude.{◌≡◌, IfOk, IfErr};
ghost use Rattle.alg_mono.specs.NumberedPolynomials.{product_of};
ghost use Rattle.alg_mono.specs.Outcomes.{Outcome};
ghost use Rattle.alg_mono.specs.Refusals.{RefusesWith};
ghost use Rattle.alg_meaning.specs.FractionRules.{worse, over_outcome};
ghost use Rattle.alg_reify.specs.FactorMaps.{lacks, product};

use crate::factors::Factors;
use crate::rules::{kept, worse};
use crate::{HornerPoly, NoMemory};
use alg_mono::Overrun;
use std::alloc::Global;

/// What each of two products of factors lacks of the other.
#[derive(Drop)]
pub(crate) struct Lacks {
    pub(crate) left: Factors,
    pub(crate) right: Factors,
}

/// What each of two products of factors lacks of the other.
pub(crate) fn lacks_of(alloc: Global, left: &Factors, right: &Factors) -> Result<Lacks, NoMemory>
    ensures left { IfOk result (λ l. l.left ≡ lacks left.now right.now) }
    ensures right { IfOk result (λ l. l.right ≡ lacks right.now left.now) }
{
    Ok(Lacks {
        left: left.lacks(alloc, right)?,
        right: right.lacks(alloc, left)?,
    })
}

/// Two numerators, each times the factors that its fraction lacks. `Range` of either comes before
/// `Degree` of either.
pub(crate) fn cleared(
    alloc: Global,
    left: HornerPoly,
    right: HornerPoly,
    lacks: &Lacks,
) -> Result<(HornerPoly, HornerPoly), Overrun>
    ensures left { IfOk result (λ n. n.0 ≡ product_of left (product lacks.now.left)) }
    ensures right { IfOk result (λ n. n.1 ≡ product_of right (product lacks.now.right)) }
    ensures fine { IfOk result (λ n.
        worse (over_outcome left lacks.now.left) (over_outcome right lacks.now.right) ≡ Outcome.Fine) }
    ensures refused { IfErr result (λ e.
        RefusesWith e (worse (over_outcome left lacks.now.left) (over_outcome right lacks.now.right))) }
{
    kept(worse(lacks.left.rule_over(&left), lacks.right.rule_over(&right)))?;
    let left = lacks.left.over(alloc, left)?;
    let right = lacks.right.over(alloc, right)?;
    Ok((left, right))
}
