//! What is left of the powers of the goal.

use alg_lines::GoalStep;
use alg_poly::Poly;
use alg_terms::Seq;

/// What is left of a power of the goal, and the steps to it.
#[derive(Debug, Drop)]
pub(crate) struct Remainder {
    pub(crate) rest: Poly,
    pub(crate) steps: Seq<GoalStep>,
}
