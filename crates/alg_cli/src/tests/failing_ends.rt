//! Runs whose reads and writes fail, each in turn, and runs over ends that never fail.

ghost use Rattle.std.specs.Prelude.{◌≢◌, None};
ghost use Rattle.alg_cli.specs.declared.status.Status.TheVariants as Status;

use super::rows::ANSWERED;
use super::{joined, prove};
use crate::status::Status;
use crate::top::run;
use alg_outside::{Failed, MemSink, MemSource, QuietSink, QuietSource, Source};
use alg_universe::Rats;
use std::alloc::Global;
use std::test::Fail;

#[test]
fn a_failed_write_leaves_a_front_of_the_text(rt: HostRuntime) -> Result<(), Fail> {
    let words = prove(rt.alloc())?;
    let input = joined(rt.alloc(), ANSWERED[1].file, "")?;
    let mut source = MemSource::new(input, 1000, Vec::new(rt.alloc()));
    let fails = vec![in rt.alloc(); 2u64]?;
    let mut sink = MemSink::new(rt.alloc(), 1000, 16, fails)?;
    let status = run::<Rats, _, _>(rt.alloc(), words.as_slice(), &mut source, &mut sink);
    assert_eq!(rt; status, Status::WriteFault);
    assert_eq!(rt; sink.bytes(), b"ring R.\nvar x y ".as_slice());
    Ok(())
}

#[test]
fn after_a_failed_read_nothing_is_written(rt: HostRuntime) -> Result<(), Fail> {
    let words = prove(rt.alloc())?;
    let input = joined(rt.alloc(), ANSWERED[1].file, "")?;
    let fails = vec![in rt.alloc(); 3u64]?;
    let mut source = MemSource::new(input, 16, fails);
    let mut sink = MemSink::new(rt.alloc(), 1000, 1000, Vec::new(rt.alloc()))?;
    let status = run::<Rats, _, _>(rt.alloc(), words.as_slice(), &mut source, &mut sink);
    assert_eq!(rt; status, Status::ReadFault);
    assert_eq!(rt; sink.bytes(), b"".as_slice());
    Ok(())
}

/// What is written of the answer to a square, and how the run ends, where all is read and written
/// byte by byte, these calls of the source and the sink fail, and the sink has so much room.
fn run_by_bytes(
    alloc: Global,
    read: u64,
    write: u64,
    room: usize,
) -> Result<(Vec<u8>, Status), Fail> {
    let words = prove(alloc)?;
    let input = joined(alloc, ANSWERED[1].file, "")?;
    let mut source = MemSource::new(input, 1, vec![in alloc; read]?);
    let mut sink = MemSink::new(alloc, room, 1, vec![in alloc; write]?)?;
    let status = run::<Rats, _, _>(alloc, words.as_slice(), &mut source, &mut sink);
    Ok((sink.bytes().to_vec(alloc)?, status))
}

/// The input has 65 bytes, so the 66th read finds the end, and no read comes after it. The text has
/// 75 bytes, so the 76th call on the sink is the flush, and no call comes after it.
#[test]
fn each_read_and_each_write_may_fail(rt: HostRuntime) -> Result<(), Fail> {
    let text = joined(rt.alloc(), ANSWERED[1].file, ANSWERED[1].answer)?;
    // A call that fails, none being the call 0, or the room; how many bytes are written then.
    let mut rows = Vec::new(rt.alloc());
    for k in 1..67 {
        rows.push((k, 0, 1000, 0, Status::ReadFault))?;
    }
    rows.push((67, 0, 1000, 75, Status::Done))?;
    for k in 1..77 {
        rows.push((0, k, 1000, k as usize - 1, Status::WriteFault))?;
    }
    rows.push((0, 77, 1000, 75, Status::Done))?;
    for room in 0..75 {
        rows.push((0, 0, room, room, Status::WriteFault))?;
    }
    rows.push((0, 0, 75, 75, Status::Done))?;
    for (read, write, room, written, ending) in rows {
        let (output, status) = run_by_bytes(rt.alloc(), read, write, room)?;
        assert!(rt; written <= text.len());
        assert_eq!(rt;
            output.as_slice(),
            &text[..written],
            "{read}, {write}, {room}"
        );
        assert_eq!(rt; status, ending, "{read}, {write}, {room}");
    }
    Ok(())
}

/// A source of spaces without an end, which counts what it gave.
#[derive(Drop)]
struct Spaces {
    given: u64,
}

impl Source for Spaces {
    ghost left = { λ _. None };

    ghost faults = { λ _. 0 };

    fn read(&mut self, into: &mut [u8]) -> Result<usize, Failed> {
        into.fill(b' ');
        self.given = self.given.saturating_add(into.len() as u64);
        Ok(into.len())
    }
}

#[test]
fn an_input_without_end_is_too_large(rt: HostRuntime) -> Result<(), Fail> {
    let words = prove(rt.alloc())?;
    let mut source = Spaces { given: 0 };
    let mut sink = MemSink::new(rt.alloc(), 1000, 1000, Vec::new(rt.alloc()))?;
    let status = run::<Rats, _, _>(rt.alloc(), words.as_slice(), &mut source, &mut sink);
    assert_eq!(rt; sink.bytes(), b"refused large\n".as_slice());
    assert_eq!(rt; status, Status::Refused);
    assert_eq!(rt; source.given, 1_048_577, "one byte more than may be read");
    Ok(())
}

/// A run over a source and a sink that never fail has neither fault.
fn quiet_run(alloc: Global, words: &[String], input: Vec<u8>) -> Status
    ensures read { result ≢ Status.ReadFault }
    ensures write { result ≢ Status.WriteFault }
{
    let mut source = QuietSource::new(input);
    let mut sink = QuietSink::new();
    run::<Rats, _, _>(alloc, words, &mut source, &mut sink)
}

#[test]
fn quiet_ends_have_no_faults(rt: HostRuntime) -> Result<(), Fail> {
    let words = prove(rt.alloc())?;
    for (row, ending) in [(1, Status::Done), (2, Status::NotAll)] {
        let input = joined(rt.alloc(), ANSWERED[row].file, "")?;
        let status = quiet_run(rt.alloc(), words.as_slice(), input);
        assert_eq!(rt; status, ending, "{row}");
    }
    Ok(())
}
