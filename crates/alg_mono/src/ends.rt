ghost use Rattle.std.specs.Prelude.{◌≡◌};
ghost use Rattle.alg_mono.specs.declared.ends.MonoEnd.{MonoEnd};
ghost use Rattle.alg_mono.specs.declared.ends.Overrun.{Overrun};

use std::alloc::{AllocError, AllocFailed};

/// Why an operation gave no polynomial: the rule that it breaks, or want of memory.
#[derive(Clone, Copy, Debug, PartialEq, Eq)]
pub enum Overrun {
    /// The norm would be over 2^127 - 1.
    Range,
    /// The degree would be over 1,000.
    Degree,
    NoMemory,
}

impl From<AllocError> for Overrun {
    ghost from_gives = { λ _ end. end ≡ Overrun.NoMemory };

    fn from(_: AllocError) -> Overrun {
        Overrun::NoMemory
    }
}

impl<T: Drop> From<AllocFailed<T>> for Overrun {
    ghost from_gives = { λ _ end. end ≡ Overrun.NoMemory };

    fn from(_: AllocFailed<T>) -> Overrun {
        Overrun::NoMemory
    }
}

/// Why an operation gave no monomial.
#[derive(Clone, Copy, Debug, PartialEq, Eq)]
pub enum MonoEnd {
    /// The degree would be over 1,000.
    Degree,
    NoMemory,
}

impl From<AllocError> for MonoEnd {
    ghost from_gives = { λ _ end. end ≡ MonoEnd.NoMemory };

    fn from(_: AllocError) -> MonoEnd {
        MonoEnd::NoMemory
    }
}

impl<T: Drop> From<AllocFailed<T>> for MonoEnd {
    ghost from_gives = { λ _ end. end ≡ MonoEnd.NoMemory };

    fn from(_: AllocFailed<T>) -> MonoEnd {
        MonoEnd::NoMemory
    }
}
