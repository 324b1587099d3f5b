//! The two traits, and the answer of a call that failed.

ghost use Rattle.std.specs.Prelude.{◌≡◌, ◌<◌, ℕ, List, Option, Ok, OnOk, OnErr, length};
ghost use Rattle.alg_outside.specs.Bytes.{GivesBytes, TakesBytes, Flushes};
ghost use Rattle.alg_outside.specs.Faults.{HasCause, Rose};

/// A call failed. The count of faults of the object rose in that call.
#[derive(Clone, Copy, Debug, PartialEq, Eq)]
pub struct Failed;

/// Where bytes come from.
pub trait Source {
    /// The bytes that are still to come, where the object tells them.
    ghost left: { Self → Option (List ℕ) };

    /// How often it has failed, a number up to `u64::MAX` that never falls.
    ghost faults: { Self → ℕ };

    /// Puts the next bytes at the front of `into` and gives their number. 0 with a nonempty `into`
    /// is the end of the input. Fails only where `faults` rose, and then no byte is lost.
    fn read(&mut self, into: &mut [u8]) -> Result<usize, Failed>
        ensures bytes { GivesBytes (left self.old) (left self.new) result into.new }
        ensures cause { HasCause (faults self.old) (faults self.new) result };
}

/// Where bytes go.
pub trait Sink {
    /// The bytes that were taken so far, where the object tells them.
    ghost written: { Self → Option (List ℕ) };

    /// How many of these bytes are flushed, where the object tells it.
    ghost flushed: { Self → Option ℕ };

    /// How often it has failed, a number up to `u64::MAX` that never falls.
    ghost faults: { Self → ℕ };

    /// Takes bytes from the front of `piece` and gives their number. Takes none of a nonempty
    /// `piece`, or fails, only where `faults` rose; a failure takes no byte.
    fn write(&mut self, piece: &[u8]) -> Result<usize, Failed>
        ensures bytes { TakesBytes (written self.old) (written self.new) result piece.now }
        ensures flushed { flushed self.new ≡ flushed self.old }
        ensures none { result ≡ Ok 0 → 0 < length piece.now
            → Rose (faults self.old) (faults self.new) }
        ensures cause { HasCause (faults self.old) (faults self.new) result };

    /// Passes on all that was written. Fails only where `faults` rose, and then changes nothing
    /// but that count.
    fn flush(&mut self) -> Result<(), Failed>
        ensures bytes { written self.new ≡ written self.old }
        ensures ok { OnOk result
            (Flushes (written self.new) (flushed self.old) (flushed self.new)) }
        ensures err { OnErr result (flushed self.new ≡ flushed self.old) }
        ensures cause { HasCause (faults self.old) (faults self.new) result };
}
