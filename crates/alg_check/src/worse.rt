//! Of what is made at one node the rule on norms comes before that on degrees.

ghost use Rattle.std.specs.Prelude.{◌≡◌};
ghost use Rattle.alg_mono.specs.NumberedPolynomials.{Polynomial};
ghost use Rattle.alg_mono.specs.Outcomes.{Outcome};
ghost use Rattle.alg_mono.specs.Refusals.{RefusesWith};
ghost use Rattle.alg_meaning.specs.FractionRules.{worse};
ghost use Rattle.alg_reify.specs.Making.{Gives};
ghost use Rattle.alg_check.specs.Bounds.{Fits};

use crate::{Overrun, Poly};

/// What is told where both of two things are refused.
fn worse(end: Overrun, other: Overrun) -> Overrun
    ensures { (o u : Outcome) → RefusesWith end o → RefusesWith other u → RefusesWith result (worse o u) }
{
    match end {
        Overrun::Degree => other,
        Overrun::Range | Overrun::NoMemory => end,
    }
}

/// A polynomial that was made or refused, where something else at the node is refused or not.
pub(crate) fn kept(made: Result<Poly, Overrun>, fits: Result<(), Overrun>) -> Result<Poly, Overrun>
    ensures { (p : Polynomial) (o u : Outcome) → Gives (λ q. q) p o made → Fits u fits →
        Gives (λ q. q) p (worse o u) result }
{
    match made {
        Ok(made) => match fits {
            Ok(()) => Ok(made),
            Err(end) => Err(end),
        },
        Err(end) => match fits {
            Ok(()) => Err(end),
            Err(other) => Err(worse(end, other)),
        },
    }
}

/// Two polynomials, each of which was made or refused.
pub(crate) fn both(
    left: Result<Poly, Overrun>,
    right: Result<Poly, Overrun>,
) -> Result<(Poly, Poly), Overrun>
    ensures { (p q : Polynomial) (o u : Outcome) → Gives (λ x. x) p o left →
        Gives (λ x. x) q u right → Gives (λ x. x) (p, q) (worse o u) result }
{
    match left {
        Ok(left) => match right {
            Ok(right) => Ok((left, right)),
            Err(end) => Err(end),
        },
        Err(end) => match right {
            Ok(_) => Err(end),
            Err(other) => Err(worse(end, other)),
        },
    }
}
