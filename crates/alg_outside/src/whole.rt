//! All bytes of a source, and all bytes to a sink.

ghost use Rattle.std.specs.Prelude.{◌≡◌, ◌+◌, ◌-◌, ◌^◌, ◌<◌, ◌≤◌, ◌⊎◌, ◌≢◌, length, Err, IfOk, OnOk, OnErr, IsSomeAnd, IfSome};
ghost use Rattle.alg_outside.specs.Bytes.{ConsumesAll, ConsumesUpTo, ConsumesExactly, Appends, AppendsPrefix, Flushes};
ghost use Rattle.alg_outside.specs.Faults.{Rose};
ghost use Rattle.alg_outside.specs.declared.whole.ReadEnd.TheVariants.{Fault, TooLarge, NoMemory};

use crate::source::{Failed, Sink, Source};
use std::alloc::Global;

/// Why not all was read.
#[derive(Clone, Copy, Debug, PartialEq, Eq)]
pub enum ReadEnd {
    /// A read failed, and the source's count of faults rose.
    Fault,
    /// There are more bytes than were asked for.
    TooLarge,
    /// There is no memory for the bytes.
    NoMemory,
}

/// How many bytes one turn of [`read_whole`] asks for at most.
const PIECE: usize = 4096;

/// Reads all bytes up to the end of the input, and refuses input of more than `max` bytes as soon
/// as it has taken `max + 1` of them. Each turn takes a byte or ends, so there are at most
/// `max + 2` turns.
pub fn read_whole<S: Source>(alloc: Global, source: &mut S, max: usize) -> Result<Vec<u8>, ReadEnd>
    requires { max < 2 ^ 64 - 1 }
    ensures count { S.faults source.old ≤ S.faults source.new }

    ensures all { IfOk result (λ all. ConsumesAll (S.left source.old) (S.left source.new) all.items) }
    ensures small { IfOk result (λ all. length all.items ≤ max) }

    ensures fault { result ≡ Err Fault → Rose (S.faults source.old) (S.faults source.new) }
    ensures fault_before { result ≡ Err Fault
        → ConsumesUpTo (S.left source.old) (S.left source.new) max }

    ensures large { result ≡ Err TooLarge
        → ConsumesExactly (S.left source.old) (S.left source.new) (max + 1) }
    ensures larger { result ≡ Err TooLarge → IfSome (S.left source.old) (λ all. max < length all) }
    // Larger input is refused as such, unless a read failed or memory ran out before.
    ensures always { IsSomeAnd (S.left source.old) (λ all. max < length all)
        → ¬ Rose (S.faults source.old) (S.faults source.new)
        → (result ≡ Err TooLarge) ⊎ (result ≡ Err NoMemory) }

    ensures no_memory { result ≡ Err NoMemory
        → ConsumesUpTo (S.left source.old) (S.left source.new) (max + 1) }
{
    let mut all = Vec::new(alloc);
    let mut buffer = [0u8; PIECE];
    while all.len() <= max {
        let room = (max + 1 - all.len()).min(PIECE);
        match source.read(&mut buffer[..room]) {
            Err(Failed) => return Err(ReadEnd::Fault),
            Ok(0) => return Ok(all),
            Ok(count) => {
                if all.extend_from_slice(&buffer[..count]).is_err() {
                    return Err(ReadEnd::NoMemory);
                }
            }
        }
    }
    Err(ReadEnd::TooLarge)
}

/// Writes all bytes and then flushes them. Each write is offered all that is left, and each turn
/// takes a byte or ends. It takes no memory, and over a [`QuietSink`](crate::QuietSink) it succeeds,
/// since the count of that one does not rise.
pub fn write_whole<K: Sink>(sink: &mut K, bytes: &[u8]) -> Result<(), Failed>
    ensures count { K.faults sink.old ≤ K.faults sink.new }

    ensures all { OnOk result (Appends (K.written sink.old) (K.written sink.new) bytes.now) }
    ensures flushed { OnOk result
        (Flushes (K.written sink.new) (K.flushed sink.old) (K.flushed sink.new)) }

    ensures cause { OnErr result (Rose (K.faults sink.old) (K.faults sink.new)) }
    ensures front { OnErr result (AppendsPrefix (K.written sink.old) (K.written sink.new) bytes.now) }
    ensures not_flushed { OnErr result (K.flushed sink.new ≡ K.flushed sink.old) }
{
    let mut at = 0;
    while at < bytes.len() {
        let count = sink.write(&bytes[at..])?;
        if count == 0 {
            return Err(Failed);
        }
        at += count;
    }
    sink.flush()
}
