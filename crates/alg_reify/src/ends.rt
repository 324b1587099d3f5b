//! Why there is no fraction.

use crate::Overrun;
use alg_terms::Term;
use std::alloc::{AllocError, AllocFailed};

/// Why there is no fraction of a term.
#[derive(Debug, Drop)]
pub enum FractionEnd {
    /// A rule is broken, or memory ran out.
    Refused(Overrun),
    /// This denominator, as written, is zero.
    ZeroDenominator(Term),
}

impl From<Overrun> for FractionEnd {
    ghost use Rattle.std.specs.Prelude.{◌≡◌};
    ghost use Rattle.alg_reify.specs.declared.ends.FractionEnd.TheVariants.{Refused};

    ghost from_gives = { λ end e. e ≡ Refused end };

    fn from(end: Overrun) -> FractionEnd {
        FractionEnd::Refused(end)
    }
}

impl From<AllocError> for FractionEnd {
    ghost use Rattle.std.specs.Prelude.{◌≡◌};
    ghost use Rattle.alg_mono.specs.declared.ends.Overrun.TheVariants.{NoMemory};
    ghost use Rattle.alg_reify.specs.declared.ends.FractionEnd.TheVariants.{Refused};

    ghost from_gives = { λ _ e. e ≡ Refused NoMemory };

    fn from(_: AllocError) -> FractionEnd {
        FractionEnd::Refused(Overrun::NoMemory)
    }
}

impl<T: Drop> From<AllocFailed<T>> for FractionEnd {
    ghost use Rattle.std.specs.Prelude.{◌≡◌};
    ghost use Rattle.alg_mono.specs.declared.ends.Overrun.TheVariants.{NoMemory};
    ghost use Rattle.alg_reify.specs.declared.ends.FractionEnd.TheVariants.{Refused};

    ghost from_gives = { λ _ e. e ≡ Refused NoMemory };

    fn from(_: AllocFailed<T>) -> FractionEnd {
        FractionEnd::Refused(Overrun::NoMemory)
    }
}
