//! Laws of the definitions. A call does nothing: its contract is the law.

ghost use Rattle.std.specs.Ordering.{nat_cmp};
ghost use Rattle.alg_mono.specs.Laws.{PolynomialsAreMaps, PolynomialsAreARing, NoZeroDivisors, GrevlexIsItsWords, DivisionIsByProducts, LcmIsLeast, OutcomesSay};

/// The coefficients of sums, opposites and products are the usual ones, and equal coefficients make
/// equal polynomials.
pub fn polynomials_are_maps()
    ensures { PolynomialsAreMaps nat_cmp }
{}

/// Polynomials are a commutative ring.
pub fn polynomials_are_a_ring()
    ensures { PolynomialsAreARing }
{}

/// A product of polynomials is zero only where a factor is.
pub fn no_zero_divisors()
    ensures { NoZeroDivisors }
{}

/// The order that is computed is grevlex in its own words, total, and kept by products.
pub fn grevlex_is_its_words()
    ensures { GrevlexIsItsWords }
{}

/// A monomial divides exactly its products.
pub fn division_is_by_products()
    ensures { DivisionIsByProducts }
{}

/// The least common multiple divides each common multiple.
pub fn lcm_is_least()
    ensures { LcmIsLeast }
{}

/// What an outcome says of the bound on the norm and of the degree.
pub fn outcomes_say()
    ensures { OutcomesSay }
{}
