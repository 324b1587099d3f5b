//! Sources and sinks over the readers and writers of std: the trusted edge.

ghost use Rattle.std.specs.Prelude.{◌≡◌, ◌≤◌, None, Ok, length};
ghost use Rattle.alg_outside.specs.Bytes.{GivesBytes, TakesBytes};
ghost use Rattle.alg_outside.specs.Faults.{HasCause, CountsFailure, greatest_count};

use crate::source::{Failed, Sink, Source};
use std::io::{Read, Write};

/// A source over a reader of std. It tells nothing of bytes, and counts the reader's errors.
#[derive(Drop)]
pub struct StdSource<R> {
    reader: R,
    faults: u64,
    ghost in_range: { faults ≤ greatest_count },
}

impl<R: Read + Drop> StdSource<R> {
    pub fn new(reader: R) -> StdSource<R>
        ensures { ⟦<StdSource<R> as Source>⟧.faults result ≡ 0 }
    {
        StdSource { reader, faults: 0 }
    }
}

impl<R: Read + Drop> Source for StdSource<R> {
    ghost left = { λ _. None };

    ghost faults = { λ s. s.faults };

    fn read(&mut self, into: &mut [u8]) -> Result<usize, Failed>
        ensures bytes { GivesBytes None None result into.new }
        ensures cause { let faults = ⟦<StdSource<R> as Source>⟧.faults in
            HasCause (faults self.old) (faults self.new) result }
        ensures counts { let faults = ⟦<StdSource<R> as Source>⟧.faults in
            CountsFailure (faults self.old) (faults self.new) result }
    {
        match self.reader.read(into) {
            Ok(count) => Ok(count),
            Err(_) => {
                self.faults = self.faults.saturating_add(1);
                Err(Failed)
            }
        }
    }
}

/// A sink over a writer of std. It tells nothing of bytes, and counts the writer's errors and the
/// nonempty pieces of which the writer takes nothing.
#[derive(Drop)]
pub struct StdSink<W> {
    writer: W,
    faults: u64,
    ghost in_range: { faults ≤ greatest_count },
}

impl<W: Write + Drop> StdSink<W> {
    pub fn new(writer: W) -> StdSink<W>
        ensures { ⟦<StdSink<W> as Sink>⟧.faults result ≡ 0 }
    {
        StdSink { writer, faults: 0 }
    }
}

impl<W: Write + Drop> Sink for StdSink<W> {
    ghost written = { λ _. None };

    ghost flushed = { λ _. None };

    ghost faults = { λ s. s.faults };

    fn write(&mut self, piece: &[u8]) -> Result<usize, Failed>
        ensures bytes { TakesBytes None None result piece.now }
        ensures none { result ≡ Ok 0 → length piece.now ≡ 0 }
        ensures cause { let faults = ⟦<StdSink<W> as Sink>⟧.faults in
            HasCause (faults self.old) (faults self.new) result }
        ensures counts { let faults = ⟦<StdSink<W> as Sink>⟧.faults in
            CountsFailure (faults self.old) (faults self.new) result }
    {
        match self.writer.write(piece) {
            Ok(count) if count > 0 || piece.is_empty() => Ok(count),
            _ => {
                self.faults = self.faults.saturating_add(1);
                Err(Failed)
            }
        }
    }

    fn flush(&mut self) -> Result<(), Failed>
        ensures cause { let faults = ⟦<StdSink<W> as Sink>⟧.faults in
            HasCause (faults self.old) (faults self.new) result }
        ensures counts { let faults = ⟦<StdSink<W> as Sink>⟧.faults in
            CountsFailure (faults self.old) (faults self.new) result }
    {
        match self.writer.flush() {
            Ok(()) => Ok(()),
            Err(_) => {
                self.faults = self.faults.saturating_add(1);
                Err(Failed)
            }
        }
    }
}
