//! Files and first faults of texts.

mod by_field;
mod by_nsatz;
mod readings;

use alg_terms::GREATEST_TEXT;
use alg_tokens::Refusal;
use alg_typing::laws::one_reading;
use alg_typing::{Declared, FileEnd, read_file};
use std::alloc::{AllocError, Global};

/// What a text is: a file of so many statements, or a fault with its code and its byte.
#[derive(Clone, Copy, PartialEq, Eq, Debug)]
enum Found {
    File(usize),
    Fault(u8, u32),
    NoMemory,
}

/// What these bytes are, which are not too many.
fn read(alloc: Global, bytes: &[u8]) -> Found {
    if bytes.len() > GREATEST_TEXT {
        return Found::NoMemory;
    }
    match read_file(alloc, bytes) {
        Ok(file) => {
            let found = Found::File(file.order.items().len());
            drop(file);
            found
        }
        Err(FileEnd::Refused(Refusal { code, at })) => Found::Fault(code, at),
        Err(FileEnd::NoMemory) => Found::NoMemory,
    }
}

/// What declarations with a statement behind them are.
fn read_behind(alloc: Global, declared: &str, statement: &str) -> Result<Found, AllocError> {
    let mut text = Vec::from_slice(alloc, declared.as_bytes())?;
    text.extend_from_slice(statement.as_bytes())?;
    Ok(read(alloc, text.as_slice()))
}

#[test]
fn the_file_so_far(rt: HostRuntime) {
    let declared = Declared::new(rt.alloc());
    assert!(rt;
        declared.file().order.items().is_empty(),
        "no statements at first"
    );
    one_reading();
}
