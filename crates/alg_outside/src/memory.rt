//! Sources and sinks over memory, which tell their bytes and fail at given calls.

ghost use Rattle.std.specs.Prelude.{◌≡◌, ◌≤◌, ◌<◌, ◌↔◌, Some, Ok, OnOk, OnErr, IfOk, IsErr, Contains, [], length};
ghost use Rattle.alg_outside.specs.Bytes.{GivesBytes, TakesBytes, Flushes};
ghost use Rattle.alg_outside.specs.Faults.{HasCause, Rose};
ghost use Rattle.alg_outside.specs.Memory.{SourceState, GivesPiece, SinkState, CountsCall, TakesPiece};

use crate::NoMemory;
use crate::copying::copy_front;
use crate::source::{Failed, Sink, Source};
use std::alloc::Global;
use std::marker::Model;

/// A source over bytes in memory. It gives at most `piece` bytes a call; the calls whose numbers,
/// counted from 1, are in `fails` fail. It takes no memory.
#[derive(Drop)]
pub struct MemSource {
    bytes: Vec<u8>,
    at: usize,
    piece: usize,
    fails: Vec<u64>,
    calls: u64,
    faults: u64,
}

impl Model for MemSource {
    ghost use Rattle.std.specs.Prelude.{◌≤◌, ◌<◌, ◌^◌, drop, vec_len};
    ghost use Rattle.alg_outside.specs.Memory.{SourceState};

    ghost Value = { SourceState };

    ghost view = { λ s. record {
      left = drop s.at s.bytes.items;
      piece = s.piece;
      fails = s.fails.items;
      calls = s.calls;
      faults = s.faults;
    } };

    ghost invariant = { λ s. (s.at ≤ vec_len s.bytes) × (1 ≤ s.piece) × (s.faults < 2 ^ 64) };
}

impl MemSource {
    pub fn new(bytes: Vec<u8>, piece: usize, fails: Vec<u64>) -> MemSource
        requires { 1 ≤ piece }
        ensures left { ⟦<MemSource as Source>⟧.left result ≡ Some bytes.items }
        ensures faults { ⟦<MemSource as Source>⟧.faults result ≡ 0 }
        ensures calls { result.calls ≡ 0 }
        ensures piece { result.piece ≡ piece }
        ensures fails { result.fails ≡ fails.items }
    {
        MemSource {
            bytes,
            at: 0,
            piece,
            fails,
            calls: 0,
            faults: 0,
        }
    }
}

impl Source for MemSource {
    ghost left = { λ s. Some s.left };

    ghost faults = { λ s. s.faults };

    fn read(&mut self, into: &mut [u8]) -> Result<usize, Failed>
        ensures bytes { GivesBytes (Some self.old.left) (Some self.new.left) result into.new }
        ensures cause { HasCause self.old.faults self.new.faults result }
        ensures piece { GivesPiece self.old self.new result (length into.new) }
    {
        self.calls = self.calls.saturating_add(1);
        if self.fails.contains(&self.calls) {
            self.faults = self.faults.saturating_add(1);
            return Err(Failed);
        }
        let count = copy_front(&self.bytes[self.at..], self.piece, into);
        self.at += count;
        Ok(count)
    }
}

/// A sink into memory. It takes at most `piece` bytes a call and `room` bytes in all; the calls of
/// `write` and `flush` whose numbers, counted together from 1, are in `fails` fail, and so does a
/// nonempty write on a full sink. Its room is taken when it is made, so no call on it takes memory.
#[derive(Drop)]
pub struct MemSink {
    bytes: Vec<u8>,
    flushed: usize,
    room: usize,
    piece: usize,
    fails: Vec<u64>,
    calls: u64,
    faults: u64,
}

impl Model for MemSink {
    ghost use Rattle.std.specs.Prelude.{◌≤◌, ◌<◌, ◌^◌, vec_len, vec_capacity};
    ghost use Rattle.alg_outside.specs.Memory.{SinkState};

    ghost Value = { SinkState };

    ghost view = { λ s. record {
      written = s.bytes.items;
      flushed = s.flushed;
      room = s.room;
      piece = s.piece;
      fails = s.fails.items;
      calls = s.calls;
      faults = s.faults;
    } };

    ghost invariant = { λ s. (s.room ≤ vec_capacity s.bytes)
        × (vec_len s.bytes ≤ s.room) × (1 ≤ s.piece)
        × (s.faults < 2 ^ 64) };
}

impl MemSink {
    /// Fails only where there is no memory for the room.
    pub fn new(
        alloc: Global,
        room: usize,
        piece: usize,
        fails: Vec<u64>,
    ) -> Result<MemSink, NoMemory>
        requires { 1 ≤ piece }
        ensures written { IfOk result (λ s. ⟦<MemSink as Sink>⟧.written s ≡ Some []) }
        ensures flushed { IfOk result (λ s. ⟦<MemSink as Sink>⟧.flushed s ≡ Some 0) }
        ensures faults { IfOk result (λ s. ⟦<MemSink as Sink>⟧.faults s ≡ 0) }
        ensures calls { IfOk result (λ s. s.calls ≡ 0) }
        ensures room { IfOk result (λ s. s.room ≡ room) }
        ensures piece { IfOk result (λ s. s.piece ≡ piece) }
        ensures fails { IfOk result (λ s. s.fails ≡ fails.items) }
    {
        let bytes = Vec::with_capacity(alloc, room)?;
        Ok(MemSink {
            bytes,
            flushed: 0,
            room,
            piece,
            fails,
            calls: 0,
            faults: 0,
        })
    }

    /// The bytes that were taken so far.
    pub fn bytes(&self) -> &[u8]
        ensures { Some result.now ≡ ⟦<MemSink as Sink>⟧.written self.now }
    {
        self.bytes.as_slice()
    }

    /// How many of them are flushed.
    pub fn flushed_len(&self) -> usize
        ensures { Some result ≡ ⟦<MemSink as Sink>⟧.flushed self.now }
    {
        self.flushed
    }
}

impl Sink for MemSink {
    ghost written = { λ s. Some s.written };

    ghost flushed = { λ s. Some s.flushed };

    ghost faults = { λ s. s.faults };

    fn write(&mut self, piece: &[u8]) -> Result<usize, Failed>
        ensures bytes { TakesBytes (Some self.old.written) (Some self.new.written) result piece.now }
        ensures flushed { self.new.flushed ≡ self.old.flushed }
        ensures none { result ≡ Ok 0 → 0 < length piece.now → Rose self.old.faults self.new.faults }
        ensures cause { HasCause self.old.faults self.new.faults result }
        ensures counts { CountsCall self.old self.new result }
        ensures piece { TakesPiece self.old self.new result (length piece.now) }
    {
        self.calls = self.calls.saturating_add(1);
        let free = self.room - self.bytes.len();
        let count = self.piece.min(free).min(piece.len());
        if self.fails.contains(&self.calls) || (count == 0 && !piece.is_empty()) {
            self.faults = self.faults.saturating_add(1);
            return Err(Failed);
        }
        match self.bytes.extend_from_slice(&piece[..count]) {
            Ok(()) => Ok(count),
            Err(_) => unreachable!(),
        }
    }

    fn flush(&mut self) -> Result<(), Failed>
        ensures bytes { self.new.written ≡ self.old.written }
        ensures ok { OnOk result (self.new.flushed ≡ length self.new.written) }
        ensures err { OnErr result (self.new.flushed ≡ self.old.flushed) }
        ensures cause { HasCause self.old.faults self.new.faults result }
        ensures counts { CountsCall self.old self.new result }
        ensures failed { IsErr result ↔ Contains self.old.fails self.new.calls }
    {
        self.calls = self.calls.saturating_add(1);
        if self.fails.contains(&self.calls) {
            self.faults = self.faults.saturating_add(1);
            return Err(Failed);
        }
        self.flushed = self.bytes.len();
        Ok(())
    }
}
