//! Where bytes come from and where they go.
//!
//! A [`Source`] gives bytes and a [`Sink`] takes them, each in pieces, and each call may fail. A
//! failure is never silent: an object counts its faults, and a call answers [`Failed`] only where
//! that count rose. [`read_whole`] reads all bytes up to a limit, and [`write_whole`] writes and
//! flushes all bytes: each says what came through, or which count rose.
//!
//! Over memory stand [`MemSource`] and [`MemSink`], which tell their bytes and fail at given calls,
//! and [`QuietSource`] and [`QuietSink`], which never fail; over std's readers and writers
//! [`StdSource`] and [`StdSink`], which tell no bytes.
//! The words of the contracts are in `specs/Bytes.antt` and `specs/Faults.antt`.
#![tactic(auto)]

mod copying;
pub mod laws;
mod memory;
mod quiet;
mod source;
mod standard;
#[cfg(test)]
mod tests;
mod whole;

pub use memory::{MemSink, MemSource};
pub use quiet::{QuietSink, QuietSource};
pub use source::{Failed, Sink, Source};
pub use standard::{StdSink, StdSource};
pub use std::alloc::AllocError as NoMemory;
pub use whole::{ReadEnd, read_whole, write_whole};
