//! Whole reads and writes, over memory and over std's readers and writers in memory.

use crate::laws::quiet_counts_never_rise;
use crate::{
    Failed, MemSink, MemSource, QuietSink, QuietSource, ReadEnd, Sink, Source, StdSink, StdSource,
    read_whole, write_whole,
};
use std::alloc::Global;
use std::collections::VecDeque;
use std::io;
use std::io::{Read, Write};
use std::test::Fail;

/// A reader that gives the bytes that it has, one a call, and then fails at each call.
#[derive(Drop)]
struct Breaks {
    bytes: &'static [u8],
}

impl Read for Breaks {
    fn read(&mut self, into: &mut [u8]) -> io::Result<usize> {
        match (self.bytes, into) {
            ([first, rest @ ..], [place, ..]) => {
                *place = *first;
                self.bytes = rest;
                Ok(1)
            }
            _ => Err(io::ErrorKind::Other.into()),
        }
    }
}

/// A writer that takes one byte a call and as many bytes in all as it has room for. Then a write
/// takes nothing, or fails; and a flush fails where it is to.
#[derive(Drop)]
struct Narrow {
    bytes: Vec<u8>,
    room: usize,
    fails_when_full: bool,
    fails_to_flush: bool,
}

impl Narrow {
    fn new(alloc: Global, room: usize, fails_when_full: bool, fails_to_flush: bool) -> Narrow {
        Narrow {
            bytes: Vec::new(alloc),
            room,
            fails_when_full,
            fails_to_flush,
        }
    }
}

impl Write for Narrow {
    fn write(&mut self, piece: &[u8]) -> io::Result<usize> {
        if self.bytes.len() >= self.room {
            return if self.fails_when_full {
                Err(io::ErrorKind::StorageFull.into())
            } else {
                Ok(0)
            };
        }
        match piece {
            [] => Ok(0),
            [first, ..] => {
                self.bytes.push(*first)?;
                Ok(1)
            }
        }
    }

    fn flush(&mut self) -> io::Result<()> {
        if self.fails_to_flush {
            return Err(io::ErrorKind::Other.into());
        }
        Ok(())
    }
}

#[test]
fn reads_all_or_says_why(rt: HostRuntime) -> Result<(), Fail> {
    // Each row: the bytes, the piece, the call that fails, the limit, and what comes of it.
    let rows: [(&[u8], usize, u64, usize, Result<&[u8], ReadEnd>); 9] = [
        (b"", 16, 0, 0, Ok(b"")),
        (b"a", 16, 0, 0, Err(ReadEnd::TooLarge)),
        (b"abcde", 16, 0, 5, Ok(b"abcde")),
        (b"abcde", 1, 0, 5, Ok(b"abcde")),
        (b"abcde", 2, 0, 4, Err(ReadEnd::TooLarge)),
        (b"abcde", 2, 1, 9, Err(ReadEnd::Fault)),
        (b"abcde", 2, 3, 9, Err(ReadEnd::Fault)),
        (b"abcde", 2, 4, 9, Err(ReadEnd::Fault)),
        (b"abcde", 2, 5, 9, Ok(b"abcde")),
    ];
    for (bytes, piece, fails, max, want) in rows {
        assert!(rt; 0 < piece);
        let fails = [fails].to_vec(rt.alloc())?;
        let mut source = MemSource::new(bytes.to_vec(rt.alloc())?, piece, fails);
        let got = read_whole(rt.alloc(), &mut source, max);
        match (&got, want) {
            (Ok(all), Ok(want)) => assert_eq!(rt; all.as_slice(), want),
            (Err(end), Err(want)) => assert_eq!(rt; *end, want, "{bytes:?} by {piece} up to {max}"),
            _ => assert!(rt; false, "{bytes:?} by {piece} up to {max}: {got:?}"),
        }
    }
    Ok(())
}

#[test]
fn reads_more_than_a_piece(rt: HostRuntime) -> Result<(), Fail> {
    for (count, max, whole) in [(4097, 4097, true), (8192, 8192, true), (8193, 8192, false)] {
        let bytes = vec![in rt.alloc(); 7u8; count]?;
        let mut source = MemSource::new(bytes, 10000, Vec::new(rt.alloc()));
        let got = read_whole(rt.alloc(), &mut source, max);
        assert_eq!(rt; got.is_ok(), whole, "{count} bytes up to {max}");
    }
    Ok(())
}

#[test]
fn writes_all_or_a_front(rt: HostRuntime) -> Result<(), Fail> {
    // Each row: the room, the piece, the call that fails, the bytes that came, how many of them
    // are flushed, and whether all is well.
    let rows: [(usize, usize, u64, &[u8], usize, bool); 7] = [
        (16, 16, 0, b"abcde", 5, true),
        (5, 2, 0, b"abcde", 5, true),
        (16, 2, 1, b"", 0, false),
        (16, 2, 3, b"abcd", 0, false),
        (16, 2, 4, b"abcde", 0, false),
        (16, 2, 5, b"abcde", 5, true),
        (3, 2, 0, b"abc", 0, false),
    ];
    for (room, piece, fails, want, flushed, whole) in rows {
        assert!(rt; 0 < piece);
        let fails = [fails].to_vec(rt.alloc())?;
        let mut sink = MemSink::new(rt.alloc(), room, piece, fails)?;
        let got = write_whole(&mut sink, b"abcde");
        assert_eq!(rt; got.is_ok(), whole, "{room} bytes of room");
        assert_eq!(rt; sink.bytes(), want, "{room} bytes of room");
        assert_eq!(rt; sink.flushed_len(), flushed, "{room} bytes of room");
    }
    Ok(())
}

#[test]
fn adapts_readers_and_writers(rt: HostRuntime) -> Result<(), Fail> {
    let mut queue = VecDeque::new(rt.alloc());
    write_whole(&mut StdSink::new(&mut queue), b"abc")
        .ok()
        .ok_or("no write")?;
    let all = read_whole(rt.alloc(), &mut StdSource::new(queue), 3)?;
    assert_eq!(rt; all.as_slice(), b"abc".as_slice());
    Ok(())
}

#[test]
fn a_readers_error_is_not_the_end(rt: HostRuntime) {
    for bytes in [b"".as_slice(), b"ab".as_slice()] {
        let mut source = StdSource::new(Breaks { bytes });
        assert_eq!(rt;
            read_whole(rt.alloc(), &mut source, 9),
            Err(ReadEnd::Fault),
            "{bytes:?}"
        );
    }
}

#[test]
fn a_writers_short_writes_and_errors_are_told(rt: HostRuntime) -> Result<(), Fail> {
    // Each row: the room, whether a full writer fails, whether a flush does, the bytes that came,
    // and what comes of it.
    let rows: [(usize, bool, bool, &[u8], Result<(), Failed>); 5] = [
        (3, false, false, b"abc", Ok(())),
        (2, false, false, b"ab", Err(Failed)),
        (2, true, false, b"ab", Err(Failed)),
        (0, true, false, b"", Err(Failed)),
        (3, false, true, b"abc", Err(Failed)),
    ];
    for (room, full, flush, want, end) in rows {
        let mut writer = Narrow::new(rt.alloc(), room, full, flush);
        let got = write_whole(&mut StdSink::new(&mut writer), b"abc");
        assert_eq!(rt; got, end, "{room} bytes of room");
        assert_eq!(rt; writer.bytes.as_slice(), want, "{room} bytes of room");
    }
    let full = Narrow::new(rt.alloc(), 0, false, false);
    assert_eq!(rt;
        StdSink::new(full).write(b""),
        Ok(0),
        "nothing is taken of nothing"
    );
    Ok(())
}

#[test]
fn the_quiet_ones_never_fail(rt: HostRuntime) -> Result<(), Fail> {
    quiet_counts_never_rise();
    let bytes = vec![in rt.alloc(); 7u8; 9000]?;
    let mut source = QuietSource::new(bytes.to_vec(rt.alloc())?);
    assert_eq!(rt; read_whole(rt.alloc(), &mut source, 9000)?, bytes);
    assert_eq!(rt; source.read(&mut [0]), Ok(0), "nothing is left");
    let mut sink = QuietSink::new();
    assert_eq!(rt;
        sink.write(bytes.as_slice()),
        Ok(9000),
        "a piece is taken whole"
    );
    assert_eq!(rt; write_whole(&mut sink, bytes.as_slice()), Ok(()));
    Ok(())
}
