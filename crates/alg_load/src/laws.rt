//! Laws of loaded files. Each is a function whose contract is the law.

ghost use Rattle.std.specs.Prelude.{◌≡◌};
ghost use Rattle.alg_load.specs.Limits as limit;

use crate::limits::GREATEST_LOAD;

/// The greatest number of goals in the code is the one that the definitions have.
pub fn limits()
    ensures { GREATEST_LOAD ≡ limit.MAX_LOAD }
{}
