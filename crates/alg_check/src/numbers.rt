//! Which polynomials are numbers.

ghost use Rattle.std.specs.Prelude.{◌≡◌};
ghost use Rattle.std.specs.Ordering.{nat_cmp};
ghost use Rattle.alg_mono.specs.Outcomes.{is_nothing};
ghost use Rattle.alg_meaning.specs.FractionsOver.{is_unit, is_constant};

use crate::Poly;
use crate::bounds::Size;

/// Whether it is the polynomial 0.
pub(crate) fn is_zero(p: &Poly) -> bool
    ensures { result ≡ is_nothing p.now }
{
    p.terms().is_empty()
}

/// Whether it is 1 or -1.
pub(crate) fn is_unit(p: &Poly) -> bool
    ensures { result ≡ is_unit nat_cmp p.now }
{
    // Its contract says that the terms are those of a polynomial.
    p.terms();
    let size = Size::of(p);
    size.norm == 1 && size.degree == 0
}

/// Whether it is a number other than 0.
pub(crate) fn is_constant(p: &Poly) -> bool
    ensures { result ≡ is_constant p.now }
{
    p.terms().len() == 1 && p.degree() == 0
}
