//! Which rule is broken, and which one is told.

ghost use Rattle.std.specs.Prelude.{◌≡◌, ℕ, OnOk, IfErr};
ghost use Rattle.alg_mono.specs.Monomials.{MAX_DEGREE};
ghost use Rattle.alg_mono.specs.Outcomes.{Outcome, outcome};
ghost use Rattle.alg_mono.specs.Polynomials.{MAX};
ghost use Rattle.alg_mono.specs.Refusals.{RefusesWith};
ghost use Rattle.alg_meaning.specs.FractionRules.{worse};
ghost use Rattle.alg_field.specs.Rules.{outcome_of, IsBound};

use alg_mono::Overrun;

/// Which rule is broken.
#[derive(Clone, Copy, Debug, PartialEq, Eq)]
pub(crate) enum Rule {
    Fine,
    /// The rule on norms.
    Range,
    /// The rule on degrees.
    Degree,
}

/// Which rule is broken by two bounds, each None where it is over its limit.
pub(crate) fn rule_of(norm: Option<u128>, degree: Option<u32>) -> Rule
    ensures { (n d : ℕ) → IsBound MAX n norm → IsBound MAX_DEGREE d degree →
        outcome_of result ≡ outcome n d }
{
    match norm {
        None => Rule::Range,
        Some(_) => match degree {
            None => Rule::Degree,
            Some(_) => Rule::Fine,
        },
    }
}

/// Of what is made at one node: the rule on norms comes before that on degrees.
pub(crate) fn worse(a: Rule, b: Rule) -> Rule
    ensures { outcome_of result ≡ worse (outcome_of a) (outcome_of b) }
{
    match a {
        Rule::Fine => b,
        Rule::Range => Rule::Range,
        Rule::Degree => match b {
            Rule::Range => Rule::Range,
            _ => Rule::Degree,
        },
    }
}

/// Refused where a rule is broken.
pub(crate) fn kept(rule: Rule) -> Result<(), Overrun>
    ensures fine { OnOk result (outcome_of rule ≡ Outcome.Fine) }
    ensures refused { IfErr result (λ e. RefusesWith e (outcome_of rule)) }
{
    match rule {
        Rule::Fine => Ok(()),
        Rule::Range => Err(Overrun::Range),
        Rule::Degree => Err(Overrun::Degree),
    }
}

/// What is told where one thing is refused, and another at the same node breaks a rule or none.
pub(crate) fn worse_end(end: Overrun, rule: Rule) -> Overrun
    ensures { (o : Outcome) → RefusesWith end o → RefusesWith result (worse o (outcome_of rule)) }
{
    match end {
        Overrun::Degree => match rule {
            Rule::Range => Overrun::Range,
            _ => Overrun::Degree,
        },
        _ => end,
    }
}
