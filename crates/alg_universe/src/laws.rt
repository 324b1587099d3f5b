//! Which files the families of this crate fit, and that values are elements. The functions do
//! nothing: their contracts are the laws.

ghost use Rattle.std.specs.Prelude.{◌↔◌};
ghost use Rattle.alg_terms.specs.declared.declarations.Kind.TheVariants.{Ring, Domain};
ghost use Rattle.alg_terms.specs.declared.file.File.{File};
ghost use Rattle.alg_terms.specs.Valid.{IsValid};
ghost use Rattle.alg_universe.specs.Value.{Fits};
ghost use Rattle.alg_universe.specs.ValueLaws.{ValuesAreElements};
ghost use Rattle.alg_universe.specs.DeclaredSorts.{HasKindsTo, HasNoChar0};

use crate::{Ints, OnePoint, Rats, Two, Universe};

/// The rational numbers fit every file.
pub fn rats_fit()
    ensures { (file : File) → Fits ⟦<Rats as Universe>⟧ file }
{}

/// The whole numbers fit exactly the files without fields.
pub fn ints_fit()
    ensures { (file : File) → Fits ⟦<Ints as Universe>⟧ file ↔ HasKindsTo Domain file }
{}

/// The field of two elements fits exactly the files without a sort of characteristic 0.
pub fn two_fits()
    ensures { (file : File) → Fits ⟦<Two as Universe>⟧ file ↔ HasNoChar0 file }
{}

/// The one element fits exactly the valid files whose sorts are all rings.
pub fn one_point_fits()
    ensures { (file : File) → IsValid file →
        (Fits ⟦<OnePoint as Universe>⟧ file ↔ HasKindsTo Ring file) }
{}

/// The value of a term of a file, at a sort where it may stand, is an element of that sort's
/// carrier.
pub fn values_are_elements<U: Universe>()
    ensures { ValuesAreElements U.Universe }
{}
