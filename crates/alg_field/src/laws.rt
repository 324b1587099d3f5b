//! What a verdict by field says. The function does nothing: its contract is the law.

ghost use Rattle.alg_field.specs.Laws.{ProvedIsRight};

use alg_universe::Universe;

/// A goal by field of a valid file whose verdict is Proved is right in every universe, at all values
/// at which the conditions of the verdict hold.
pub fn proved_is_right<U: Universe>()
    ensures { ProvedIsRight U.Universe }
{
    alg_meaning::laws::equal_numerators::<U>();
}
