//! Buchberger's theorem over the search machine, in four laws. A call does nothing: its contract is
//! the law.

ghost use Rattle.alg_criterion.specs.Laws.{LinesAreCombinations, PairsAreBelow, LeadsDivide, NoneExists};

/// Each line of a search, times a nonzero integer, is a combination of the hypotheses. Where the search
/// ends with nothing left to do, each hypothesis, times a nonzero integer, is a sum of products of basis
/// lines with leads that do not exceed its own.
pub fn lines_are_combinations()
    ensures { LinesAreCombinations }
{}

/// Where the search ends with nothing left to do, the S-polynomial of every two basis lines is below the
/// least common multiple of their leads, that of two lines with coprime leads too.
pub fn pairs_are_below()
    ensures { PairsAreBelow }
{}

/// Where the S-polynomial of every two lines is below the least common multiple of their leads, the
/// lead of one of the lines divides the lead of each nonzero combination of them.
pub fn leads_divide()
    ensures { LeadsDivide }
{}

/// Where the search ends with nothing left to do, no nonzero multiple of a power of the goal, up to the
/// greatest one that was searched for, is a sum of products with the hypotheses.
pub fn none_exists()
    ensures { NoneExists }
{}
