//! Which number a polynomial is, if any.

ghost use Rattle.std.specs.Prelude.{◌≡◌};
ghost use Rattle.std.specs.Ordering.{nat_cmp};
ghost use Rattle.alg_mono.specs.Outcomes.{is_nothing};
ghost use Rattle.alg_mono.specs.Polynomials.{IsPoly};
ghost use Rattle.alg_meaning.specs.FractionsOver.{is_unit, is_constant};
ghost use Rattle.alg_field.specs.Constants.{IsNumber};

use crate::HornerPoly;
use alg_horner::Horner;

/// The number that a polynomial is, if it is one. It takes no memory.
fn number_of(p: &HornerPoly) -> Option<i128>
    ensures number { IsNumber p.now result }
    ensures sound { IsPoly nat_cmp p.now }
{
    match p.form() {
        Horner::Const(c) => Some(*c),
        _ => None,
    }
}

/// Whether it is the polynomial 0.
pub(crate) fn is_zero(p: &HornerPoly) -> bool
    ensures test { result ≡ is_nothing p.now }
    ensures sound { IsPoly nat_cmp p.now }
{
    number_of(p) == Some(0)
}

/// Whether it is 1 or -1.
pub(crate) fn is_unit(p: &HornerPoly) -> bool
    ensures test { result ≡ is_unit nat_cmp p.now }
    ensures sound { IsPoly nat_cmp p.now }
{
    let number = number_of(p);
    number == Some(1) || number == Some(-1)
}

/// Whether it is a number other than 0.
pub(crate) fn is_constant(p: &HornerPoly) -> bool
    ensures { result ≡ is_constant p.now }
{
    match number_of(p) {
        Some(number) => number != 0,
        None => false,
    }
}
