//! What holds of numbered polynomials and fractions and of the verdicts by ring and by field. The
//! functions do nothing: their contracts are the laws.

ghost use Rattle.alg_reify.specs.FieldLaws.{OneFieldVerdict, FieldNoDiffers, FieldNoIsOverTheTable, FieldNoIsWithinRange, FieldNoIsAMonomial, FieldTermsMayStand, FieldTermsOccur, SidesByNumbers};
ghost use Rattle.alg_reify.specs.FractionsUnder.{FractionsUnderPaths};
ghost use Rattle.alg_reify.specs.NumberedFractions.{NumberingKeeps};
ghost use Rattle.alg_reify.specs.Laws.{NumberedCoefficients, OneRingVerdict, NoDiffers, NoIsOverTheTable, NoIsWithinRange, NoIsAMonomial};

/// A polynomial over the atoms of a table has, after its atoms are numbered, its own coefficient at
/// the image of each monomial over these atoms.
pub fn numbered_coefficients()
    ensures { NumberedCoefficients }
{}

/// Numbering the atoms of a table keeps the fractions that are made of fractions, the rules that they
/// break, and whether a numerator is zero, 1 or -1, or a constant.
pub fn numbering_keeps_fractions()
    ensures { NumberingKeeps }
{}

/// The fraction of a term under a path of morphisms is one over the table that holds the term's atoms,
/// and by the numbers of the atoms it is made node by node from those of its parts, the part of an
/// image under the longer path. On the way the same rules are broken, and the tests on numerators
/// give the same.
pub fn fractions_under_paths()
    ensures { FractionsUnderPaths }
{}

/// An equation has at most one verdict by ring.
pub fn one_ring_verdict()
    ensures { OneRingVerdict }
{}

/// Where the verdict is No, the two sides are different polynomials: at the monomial of the verdict,
/// read as atoms, they have its two coefficients, which differ.
pub fn no_differs()
    ensures { NoDiffers }
{}

/// The monomial of a verdict No is over numbers of the equation's table.
pub fn no_is_over_the_table()
    ensures { NoIsOverTheTable }
{}

/// The coefficients of a verdict No on an equation of the file are at most 2^127 - 1 in magnitude.
pub fn no_is_within_range()
    ensures { NoIsWithinRange }
{}

/// The monomial of a verdict No is one of a polynomial: its atoms rise, no exponent is 0, and its
/// degree is at most 1,000.
pub fn no_is_a_monomial()
    ensures { NoIsAMonomial }
{}

/// By the numbers of an equation's table, the numerators of its sides over their common factors are
/// made of the fractions of the sides. Making them breaks the same rules, and they are equal only
/// where the numerators are.
pub fn sides_by_numbers()
    ensures { SidesByNumbers }
{}

/// An equation has at most one verdict by field.
pub fn one_field_verdict()
    ensures { OneFieldVerdict }
{}

/// Where the verdict by field is No, the numerators of the sides over their common factors are
/// different polynomials: at the monomial of the verdict, read as atoms, they have its two
/// coefficients, which differ.
pub fn field_no_differs()
    ensures { FieldNoDiffers }
{}

/// The monomial of a verdict No by field is over numbers of the equation's table.
pub fn field_no_is_over_the_table()
    ensures { FieldNoIsOverTheTable }
{}

/// The coefficients of a verdict No by field are at most 2^127 - 1 in magnitude.
pub fn field_no_is_within_range()
    ensures { FieldNoIsWithinRange }
{}

/// The monomial of a verdict No by field is one of a polynomial: its atoms rise, no exponent is 0, and
/// its degree is at most 1,000.
pub fn field_no_is_a_monomial()
    ensures { FieldNoIsAMonomial }
{}

/// The conditions of a verdict on a goal by field of a file, and its denominator that is zero, are
/// terms that may stand in an answer to the goal.
pub fn field_terms_may_stand()
    ensures { FieldTermsMayStand }
{
    alg_meaning::laws::conditions_say();
}

/// These terms use only variables and morphisms of the goal's sides.
pub fn field_terms_occur()
    ensures { FieldTermsOccur }
{
    alg_meaning::laws::conditions_say();
}
