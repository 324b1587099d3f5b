//! Laws of the definitions. A call does nothing: its contract is the law.

ghost use Rattle.std.specs.Prelude.{◌↔◌};
ghost use Rattle.alg_terms.specs.declared.declarations.Kind.TheVariants.{Domain};
ghost use Rattle.alg_terms.specs.declared.file.File.{File};
ghost use Rattle.alg_mono.specs.Laws.{PolynomialsAreMaps};
ghost use Rattle.alg_universe.specs.DeclaredSorts.{HasKindsTo};
ghost use Rattle.alg_universe.specs.Value.{Fits};
ghost use Rattle.alg_meaning.specs.Atoms.{atom_cmp};
ghost use Rattle.alg_meaning.specs.ConditionWords.{ConditionsSay};
ghost use Rattle.alg_meaning.specs.FractionValues.{SidesAreFractions, EqualNumerators};
ghost use Rattle.alg_meaning.specs.FreeValues.{AtomsAreValues, ValuesArePolynomials, DifferentPolynomials};
ghost use Rattle.alg_meaning.specs.Laws.{EqualPolynomials};
ghost use Rattle.alg_meaning.specs.Uses.{UsesHold};

use crate::Free;
use alg_universe::Universe;

/// The coefficients of sums, opposites and products of polynomials over atoms are the usual ones, and
/// equal coefficients make equal polynomials.
pub fn polynomials_are_maps()
    ensures { PolynomialsAreMaps atom_cmp }
{}

/// Two terms without quotients and of one final sort, whose polynomials are equal, have equal values
/// in every universe that fits the file, at all values of the variables.
pub fn equal_polynomials<U: Universe>()
    ensures { EqualPolynomials U.Universe }
{}

/// The conditions of a field goal are its denominators but the dropped ones, each tree once.
pub fn conditions_say()
    ensures { ConditionsSay }
{}

/// Where all conditions of a field goal hold, the value of each side times that of its fraction's
/// factors is that of its numerator, and that of the factors is not zero.
pub fn fractions<U: Universe>()
    ensures { SidesAreFractions U.Universe }
{}

/// Where all conditions of a field goal hold and its cleared numerators are equal, its sides have
/// equal values.
pub fn equal_numerators<U: Universe>()
    ensures { EqualNumerators U.Universe }
{}

/// A used hypothesis holds under its path, and a used `<>` under its path gives a nonzero difference.
pub fn uses<U: Universe>()
    ensures { UsesHold U.Universe }
{}

/// The polynomials fit exactly the files without fields.
pub fn free_fits()
    ensures { (file : File) → Fits ⟦<Free as Universe>⟧ file ↔ HasKindsTo Domain file }
{}

/// The atoms of a file are values of its variables among the polynomials.
pub fn atoms_are_values()
    ensures { AtomsAreValues ⟦<Free as Universe>⟧ }
{}

/// The value of a term without quotients among the polynomials, at the atoms, is its polynomial.
pub fn values_in_free()
    ensures { ValuesArePolynomials ⟦<Free as Universe>⟧ }
{}

/// Two terms without quotients that have different polynomials have different values among the
/// polynomials, at the atoms.
pub fn different_in_free()
    ensures { DifferentPolynomials ⟦<Free as Universe>⟧ }
{}
