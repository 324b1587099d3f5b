use super::*;
use alg_universe::Rats;

// A law of all universes is cited at each of two: the polynomials and the rational numbers.
#[test]
fn each_law_is_cited_at_a_universe(_rt: HostRuntime) {
    laws::equal_polynomials::<Free>();
    laws::equal_polynomials::<Rats>();
    laws::fractions::<Rats>();
    laws::equal_numerators::<Rats>();
    laws::uses::<Rats>();
    laws::conditions_say();
    laws::free_fits();
    laws::atoms_are_values();
    laws::values_in_free();
    laws::different_in_free();
}
