//! A source and a sink that never fail.

ghost use Rattle.std.specs.Prelude.{◌≡◌, Some, None, Ok, IsOk, length, min};
ghost use Rattle.alg_outside.specs.Bytes.{GivesBytes, TakesBytes};
ghost use Rattle.alg_outside.specs.Faults.{HasCause};

use crate::copying::copy_front;
use crate::source::{Failed, Sink, Source};
use std::marker::Model;

/// A source over bytes in memory. It never fails, so its count of faults is always 0. Contracts see
/// it as the bytes that are left.
#[derive(Drop)]
pub struct QuietSource {
    bytes: Vec<u8>,
    at: usize,
}

impl Model for QuietSource {
    ghost use Rattle.std.specs.Prelude.{◌≤◌, ℕ, List, drop, vec_len};

    ghost Value = { List ℕ };

    ghost view = { λ s. drop s.at s.bytes.items };

    ghost invariant = { λ s. s.at ≤ vec_len s.bytes };
}

impl QuietSource {
    pub fn new(bytes: Vec<u8>) -> QuietSource
        ensures { ⟦<QuietSource as Source>⟧.left result ≡ Some bytes.items }
    {
        QuietSource { bytes, at: 0 }
    }
}

impl Source for QuietSource {
    ghost left = { λ s. Some s };

    ghost faults = { λ _. 0 };

    fn read(&mut self, into: &mut [u8]) -> Result<usize, Failed>
        ensures bytes { GivesBytes (Some self.old) (Some self.new) result into.new }
        ensures cause { HasCause 0 0 result }
        ensures most { result ≡ Ok (min (length self.old) (length into.new)) }
    {
        let rest = &self.bytes[self.at..];
        let count = copy_front(rest, rest.len(), into);
        self.at += count;
        Ok(count)
    }
}

/// A sink that takes every piece whole and keeps nothing. It never fails, so its count of faults is
/// always 0, and it tells nothing of what was written.
#[derive(Drop)]
pub struct QuietSink;

impl QuietSink {
    pub fn new() -> QuietSink
        ensures written { ⟦<QuietSink as Sink>⟧.written result ≡ None }
        ensures flushed { ⟦<QuietSink as Sink>⟧.flushed result ≡ None }
    {
        QuietSink
    }
}

impl Sink for QuietSink {
    ghost written = { λ _. None };

    ghost flushed = { λ _. None };

    ghost faults = { λ _. 0 };

    fn write(&mut self, piece: &[u8]) -> Result<usize, Failed>
        ensures whole { result ≡ Ok (length piece.now) }
        ensures bytes { TakesBytes None None result piece.now }
        ensures cause { HasCause 0 0 result }
    {
        Ok(piece.len())
    }

    fn flush(&mut self) -> Result<(), Failed>
        ensures done { IsOk result }
        ensures cause { HasCause 0 0 result }
    {
        Ok(())
    }
}
