use crate::{AtomsEnd, Overrun};
use std::alloc::AllocError;

/// Why a goal is not decided by its polynomials.
#[derive(Clone, Copy, Debug, PartialEq, Eq)]
pub enum Stop {
    /// The goal has more than 1,000 atoms.
    Atoms,
    /// A polynomial would have a norm over 2^127 - 1.
    Range,
    /// A polynomial would have a degree over 1,000.
    Degree,
    NoMemory,
}

impl From<AtomsEnd> for Stop {
    ghost use Rattle.std.specs.Prelude.{◌≡◌};
    ghost use Rattle.alg_reify.specs.Stops.{stop_of_table};

    ghost from_gives = { λ end stop. stop ≡ stop_of_table end };

    fn from(end: AtomsEnd) -> Stop {
        match end {
            AtomsEnd::TooMany => Stop::Atoms,
            AtomsEnd::NoMemory => Stop::NoMemory,
        }
    }
}

impl From<Overrun> for Stop {
    ghost use Rattle.std.specs.Prelude.{◌≡◌};
    ghost use Rattle.alg_reify.specs.Stops.{stop_of_polynomial};

    ghost from_gives = { λ end stop. stop ≡ stop_of_polynomial end };

    fn from(end: Overrun) -> Stop {
        match end {
            Overrun::Range => Stop::Range,
            Overrun::Degree => Stop::Degree,
            Overrun::NoMemory => Stop::NoMemory,
        }
    }
}

impl From<AllocError> for Stop {
    ghost use Rattle.std.specs.Prelude.{◌≡◌};
    ghost use Rattle.alg_reify.specs.declared.stop.Stop.TheVariants.{NoMemory};

    ghost from_gives = { λ _ stop. stop ≡ NoMemory };

    fn from(_: AllocError) -> Stop {
        Stop::NoMemory
    }
}
