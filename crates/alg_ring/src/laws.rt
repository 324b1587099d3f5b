//! What a verdict by ring says. The function does nothing: its contract is the law.

ghost use Rattle.alg_ring.specs.Laws.{ProvedIsRight};

use alg_universe::Universe;

/// A goal by ring of a valid file whose verdict is Proved is right in every universe, with no
/// conditions.
pub fn proved_is_right<U: Universe>()
    ensures { ProvedIsRight U.Universe }
{}
