//! Laws of files. Each is a function whose contract is the law.

ghost use Rattle.std.specs.Prelude.{◌≡◌};
ghost use Rattle.alg_terms.specs.Limits as limit;

use crate::limits::{
    GREATEST_DEPTH, GREATEST_EXPONENT, GREATEST_LIMIT, GREATEST_LITERAL, GREATEST_OPEN,
    GREATEST_POWER, GREATEST_TEXT, GREATEST_USES, LEAST_LIMIT, LEAST_POWER, USUAL_LIMIT,
    USUAL_POWER,
};

/// Each limit of the code is the number that the definitions have.
pub fn limits()
    ensures literal { GREATEST_LITERAL ≡ limit.MAX_LITERAL }
    ensures exponent { GREATEST_EXPONENT ≡ limit.MAX_EXPONENT }
    ensures depth { GREATEST_DEPTH ≡ limit.MAX_DEPTH }
    ensures open { GREATEST_OPEN ≡ limit.MAX_OPEN }
    ensures least_power { LEAST_POWER ≡ limit.MIN_POWER }
    ensures greatest_power { GREATEST_POWER ≡ limit.MAX_POWER }
    ensures usual_power { USUAL_POWER ≡ limit.DEFAULT_POWER }
    ensures least_limit { LEAST_LIMIT ≡ limit.MIN_LIMIT }
    ensures greatest_limit { GREATEST_LIMIT ≡ limit.MAX_LIMIT }
    ensures usual_limit { USUAL_LIMIT ≡ limit.DEFAULT_LIMIT }
    ensures text { GREATEST_TEXT ≡ limit.MAX_TEXT }
    ensures uses { GREATEST_USES ≡ limit.MAX_USES }
{}
