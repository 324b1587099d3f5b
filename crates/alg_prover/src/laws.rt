//! What the answers to goals say. The functions do nothing: their contracts are the laws.

ghost use Rattle.alg_prover.specs.InFree.{NoDiffersInFree};
ghost use Rattle.alg_prover.specs.Laws.{AnswersArePrintable, OneAnswer, ProvedIsRight, CertifiedIsRight, NoDiffers};

use alg_universe::Universe;

/// The goals of a file have at most one list of answers.
pub fn one_answer()
    ensures { OneAnswer }
{
    alg_reify::laws::one_ring_verdict();
    alg_reify::laws::one_field_verdict();
    alg_nsatz::laws::one_nsatz_verdict();
}

/// A goal that is answered proved is right in every universe, at all values at which its used
/// hypotheses and the conditions or constants of the answer hold.
pub fn proved_is_right<U: Universe>()
    ensures proved { ProvedIsRight U.Universe }
    ensures certified { CertifiedIsRight U.Universe }
{
    alg_ring::laws::proved_is_right::<U>();
    alg_field::laws::proved_is_right::<U>();
    alg_nsatz::laws::proved_is_right::<U>();
}

/// The sides of a goal by ring that is answered no are different polynomials: at the monomial of the
/// answer, read as atoms, they have its two coefficients, which differ. Where the file is valid and
/// declares no field, the polynomials fit it, and the sides have different values among them.
pub fn no_differs()
    ensures polynomials { NoDiffers }
    ensures values { NoDiffersInFree }
{
    alg_meaning::laws::free_fits();
    alg_reify::laws::no_differs();
}

/// The answers to the goals of a valid file can be printed.
pub fn answers_are_printable()
    ensures { AnswersArePrintable }
{
    alg_reify::laws::no_is_over_the_table();
    alg_reify::laws::no_is_within_range();
    alg_reify::laws::no_is_a_monomial();
    alg_reify::laws::field_no_is_over_the_table();
    alg_reify::laws::field_no_is_within_range();
    alg_reify::laws::field_no_is_a_monomial();
    alg_reify::laws::field_terms_may_stand();
    alg_nsatz::laws::proved_is_within();
    alg_groebner::laws::powers_are_sought();
}
