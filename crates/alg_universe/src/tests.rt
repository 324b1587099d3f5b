//! What the definitions give on small cases. The functions do nothing: their contracts are the
//! examples.

ghost use Rattle.std.specs.Prelude.{◌≡◌, ◌≢◌, ◌↔◌, [], ◌∷◌, pos, negsuc};
ghost use Rattle.alg_terms.specs.declared.term.Term.TheVariants.{Var, Int};
ghost use Rattle.alg_terms.specs.SmallFile.{small, square_is_four};
ghost use Rattle.alg_universe.specs.declared.two.Two.TheVariants.{Zero, One};
ghost use Rattle.alg_universe.specs.Right.{HypHolds, ConditionHolds, ConstantHolds, IsRight};
ghost use Rattle.alg_universe.specs.SmallFile.{one_over_y, image, is_not_two, idempotent};
ghost use Rattle.alg_universe.specs.Value.{value, number};

use crate::{Ints, Rats, Two, Universe, laws};

fn two_is_zero_in_two()
    ensures zero { number ⟦<Two as Universe>⟧ 0 (pos 2) ≡ Zero }
    ensures three { number ⟦<Two as Universe>⟧ 0 (pos 3) ≡ One }
{}

fn the_inverse_of_zero_is_zero_in_rats()
    ensures { value ⟦<Rats as Universe>⟧ small ((pos 0, 1) ∷ (pos 0, 1) ∷ []) 1 one_over_y ≡
        (pos 0, 1) }
{}

fn inverses_in_rats()
    ensures two_thirds { value ⟦<Rats as Universe>⟧ small ((pos 0, 1) ∷ (pos 2, 3) ∷ []) 1
        one_over_y ≡ (pos 3, 2) }
    ensures minus_two_thirds { value ⟦<Rats as Universe>⟧ small ((pos 0, 1) ∷ (negsuc 1, 3) ∷ []) 1
        one_over_y ≡ (negsuc 2, 2) }
{}

fn a_morphism_gives_the_image()
    ensures { value ⟦<Ints as Universe>⟧ small (pos 4 ∷ pos 0 ∷ []) 1 image ≡ pos 5 }
{}

fn hypotheses_hold_or_not()
    ensures square { HypHolds ⟦<Ints as Universe>⟧ small (negsuc 1 ∷ pos 0 ∷ []) square_is_four }
    ensures other_square { HypHolds ⟦<Ints as Universe>⟧ small (pos 3 ∷ pos 0 ∷ []) square_is_four
        → ⊥ }
    ensures different { HypHolds ⟦<Ints as Universe>⟧ small (negsuc 1 ∷ pos 0 ∷ []) is_not_two }
    ensures equal { HypHolds ⟦<Ints as Universe>⟧ small (pos 2 ∷ pos 0 ∷ []) is_not_two → ⊥ }
{}

// The goal's sort is number 1. A variable has a sort of its own, and a literal has none.
fn conditions_hold_at_their_own_sort_or_else_at_the_goals<U: Universe>()
    ensures own { (x y : U) →
        ConditionHolds U.Universe small (x ∷ y ∷ []) 1 (Var 0) ↔ (x ≢ U.zero 0) }
    ensures goals { (x y : U) →
        ConditionHolds U.Universe small (x ∷ y ∷ []) 1 (Int (pos 2)) ↔
        ConstantHolds U.Universe 1 (pos 2) }
{}

// The goal x^2 = x.
fn a_goal_is_right_in_one_family_and_not_in_another()
    ensures two { IsRight ⟦<Two as Universe>⟧ idempotent 0 [] [] }
    ensures integers { IsRight ⟦<Ints as Universe>⟧ idempotent 0 [] [] → ⊥ }
{}

#[test]
fn the_examples_and_the_laws_are_proved() {
    two_is_zero_in_two();
    the_inverse_of_zero_is_zero_in_rats();
    inverses_in_rats();
    a_morphism_gives_the_image();
    hypotheses_hold_or_not();
    conditions_hold_at_their_own_sort_or_else_at_the_goals::<Two>();
    a_goal_is_right_in_one_family_and_not_in_another();
    laws::rats_fit();
    laws::ints_fit();
    laws::two_fits();
    laws::one_point_fits();
    laws::values_are_elements::<Rats>();
}
