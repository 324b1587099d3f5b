//! Products of powers of polynomials.

ghost use Rattle.std.specs.Prelude.{◌≡◌, [], ◌∷◌, IfOk};
ghost use Rattle.alg_mono.specs.FiniteMaps.{IsCanonical};
ghost use Rattle.alg_mono.specs.NumberedPolynomials.{product_of};
ghost use Rattle.alg_mono.specs.Numbers.{exponents};
ghost use Rattle.alg_mono.specs.Outcomes.{Outcome};
ghost use Rattle.alg_meaning.specs.FractionRules.{over_outcome, below_outcome};
ghost use Rattle.alg_reify.specs.FactorMaps.{order, lacks, times_map, power_map, product};
ghost use Rattle.alg_field.specs.Lists.{IsFactor};
ghost use Rattle.alg_field.specs.Rules.{outcome_of};

use crate::bounds::{joined_rule, over_rule, power_rule};
use crate::lists::{Factor, put_factors, scale, what_is_beyond};
use crate::multiply::multiplied;
use crate::rules::Rule;
use crate::{HornerPoly, NoMemory};
use std::alloc::Global;
use std::marker::Model;

/// Polynomials other than 0, 1 and -1 with exponents, in any order. Contracts see the one list of the
/// map.
#[derive(Drop)]
pub(crate) struct Factors {
    list: Vec<Factor>,
}

impl Model for Factors {
    ghost use Rattle.alg_reify.specs.FactorMaps.{FactorMap, map_of};
    ghost use Rattle.alg_field.specs.Lists.{IsList};

    ghost Value = { FactorMap };

    ghost view = { λ f. map_of f.list.items };

    ghost invariant = { λ f. IsList f.list.items };
}

impl Factors {
    /// No factors. It takes no memory.
    pub(crate) fn none(alloc: Global) -> Factors
        ensures { result ≡ [] }
    {
        Factors {
            list: Vec::new(alloc),
        }
    }

    /// One factor, once.
    pub(crate) fn one(alloc: Global, q: HornerPoly) -> Result<Factors, NoMemory>
        requires { IsFactor q }
        ensures { IfOk result (λ m. m ≡ (q, 1) ∷ []) }
    {
        let mut list = Vec::new(alloc);
        list.push((q, 1))?;
        Ok(Factors { list })
    }

    /// The factors that `self` lacks of `other`.
    pub(crate) fn lacks(&self, alloc: Global, other: &Factors) -> Result<Factors, NoMemory>
        ensures { IfOk result (λ m. m ≡ lacks self.now other.now) }
    {
        let list = what_is_beyond(alloc, &self.list, &other.list)?;
        Ok(Factors { list })
    }

    /// Which rule `top` times all factors breaks.
    pub(crate) fn rule_over(&self, top: &HornerPoly) -> Rule
        ensures { outcome_of result ≡ over_outcome top.now self.now }
    {
        over_rule(top, &self.list)
    }

    /// Which rule the factors break whose exponents are those of both added up.
    pub(crate) fn rule_with(&self, other: &Factors) -> Rule
        ensures rule { outcome_of result ≡ below_outcome (times_map self.now other.now) }
        ensures canonical { IsCanonical order exponents self.now }
    {
        joined_rule(&self.list, &other.list)
    }

    /// Which rule the factors break whose exponents are `n` times as great.
    pub(crate) fn rule_to(&self, n: u32) -> Rule
        ensures { outcome_of result ≡ below_outcome (power_map self.now n) }
    {
        power_rule(&self.list, n)
    }

    /// The exponents of both added up.
    pub(crate) fn times(self, alloc: Global, other: &Factors) -> Result<Factors, NoMemory>
        requires { below_outcome (times_map self other.now) ≡ Outcome.Fine }
        ensures { IfOk result (λ m. m ≡ times_map self other.now) }
    {
        let Factors { mut list } = self;
        put_factors(alloc, &mut list, &other.list)?;
        Ok(Factors { list })
    }

    /// Each exponent `n` times. It takes no memory.
    pub(crate) fn raised(self, n: u32) -> Factors
        requires { below_outcome (power_map self n) ≡ Outcome.Fine }
        ensures { result ≡ power_map self n }
    {
        let Factors { mut list } = self;
        scale(&mut list, n);
        Factors { list }
    }

    /// `top` times all factors, each as often as its exponent says.
    pub(crate) fn over(&self, alloc: Global, top: HornerPoly) -> Result<HornerPoly, NoMemory>
        requires { over_outcome top self.now ≡ Outcome.Fine }
        ensures { IfOk result (λ p. p ≡ product_of top (product self.now)) }
    {
        multiplied(alloc, top, &self.list)
    }
}
