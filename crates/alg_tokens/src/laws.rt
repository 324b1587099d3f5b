//! Laws of the cutting, each the contract of a function that does nothing.

ghost use Rattle.alg_tokens.specs.Laws.{OneCutting, OneNext, CutFromAnywhere, CutGoesOn};

/// A text has at most one cutting.
pub fn one_cutting()
    ensures { OneCutting }
{}

/// At each place of a text there is at most one next token or fault.
pub fn one_next()
    ensures { OneNext }
{}

/// Token by token from any place gives the tokens of the cutting of what is left there.
pub fn cut_from_anywhere()
    ensures { CutFromAnywhere }
{}

/// Where a piece of the cutting begins, what is left is cut into the pieces that are left.
pub fn cut_goes_on()
    ensures { CutGoesOn }
{}
