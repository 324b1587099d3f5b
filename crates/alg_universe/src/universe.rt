ghost use Rattle.std.specs.Prelude.{ℕ, Bool};
ghost use Rattle.alg_terms.specs.declared.declarations.Kind.{Kind};
ghost use Rattle.alg_universe.specs.Laws.{IsUniverse};

/// A family of structures with morphisms: one structure for each sort number, one map for each
/// morphism number. A value of `Self` stands for an element. All members are named in contracts
/// alone.
pub trait Universe {
    // The element is in the carrier of the sort.
    ghost has: { ℕ → Self → Type 0 };

    ghost zero: { ℕ → Self };

    ghost one: { ℕ → Self };

    ghost add: { ℕ → Self → Self → Self };

    ghost opp: { ℕ → Self → Self };

    ghost mul: { ℕ → Self → Self → Self };

    // An element, and the inverse where the sort is a field and the element is not zero.
    ghost inv: { ℕ → Self → Self };

    // The image under a morphism, by the morphism's number.
    ghost hom: { ℕ → Self → Self };

    // Which laws hold of the sort.
    ghost kind: { ℕ → Kind };

    // No sum of ones but the empty one is zero in the sort, if it is a domain or a field.
    ghost char0: { ℕ → Bool };

    // The map of this number is a ring morphism from the first sort to the second.
    ghost maps: { ℕ → ℕ → ℕ → Type 0 };

    ghost laws: { IsUniverse has zero one add opp mul inv hom kind char0 maps };
}
