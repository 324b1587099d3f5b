//! The file that a text is, or its first fault.

ghost use Rattle.std.specs.Prelude.{◌≡◌, ◌≤◌, length, Ok, Err, IfOk, IfErr};
ghost use Rattle.alg_terms.specs.Limits.{MAX_TEXT};
ghost use Rattle.alg_terms.specs.Valid.{IsValid};
ghost use Rattle.alg_typing.specs.Ends.{RefusesWith};
ghost use Rattle.alg_typing.specs.Reading.{IsReadingOf, ReadsFile, no_statements};

use crate::Declared;
use alg_reader::{FileEnd, Place, RawKind, read_statement};
use alg_terms::File;
use alg_tokens::Code;
use std::alloc::Global;
use std::str;

/// The file that these bytes are, or their first fault: that they are no UTF-8 comes before all
/// faults of statements, and an earlier statement's fault before a later one's. Linear in the bytes.
#[tactic(none)]
pub fn read_file(alloc: Global, bytes: &[u8]) -> Result<File, FileEnd>
    requires { length bytes.now ≤ MAX_TEXT }
    ensures ok { IfOk result (λ file. IsReadingOf bytes.now (Ok file) × IsValid file) }
    ensures refused { IfErr result (λ end. RefusesWith end (λ fault. IsReadingOf bytes.now (Err fault))) }
{
    match str::from_utf8(bytes) {
        Ok(text) => read_text(alloc, text),
        Err(error) => {
            let end = error.valid_up_to() as u32;
            Err(FileEnd::Refused(Code::Utf8.at(end)))
        }
    }
}

/// The file that a text is, or its first fault.
#[tactic(none)]
fn read_text(alloc: Global, text: &str) -> Result<File, FileEnd>
    requires { length text.now ≤ MAX_TEXT }
    ensures ok { IfOk result (λ file. ReadsFile text.now 0 no_statements (Ok file)
        × IsValid file) }
    ensures refused { IfErr result
        (λ end. RefusesWith end (λ fault. ReadsFile text.now 0 no_statements (Err fault))) }
{
    Ok(read_declared(alloc, text)?.into_file())
}

/// The file that a text is, with the table of its names, or its first fault.
#[tactic(none)]
pub fn read_declared(alloc: Global, text: &str) -> Result<Declared, FileEnd>
    requires { length text.now ≤ MAX_TEXT }
    ensures ok { IfOk result (λ file. ReadsFile text.now 0 no_statements (Ok file)) }
    ensures refused { IfErr result
        (λ end. RefusesWith end (λ fault. ReadsFile text.now 0 no_statements (Err fault))) }
{
    let mut declared = Declared::new(alloc);
    let mut at = 0;
    'statements: loop {
        let raw = read_statement(alloc, text, at, Place::Plain)?;
        if let RawKind::End = raw.kind {
            drop(raw);
            return Ok(declared);
        }
        at = raw.stop;
        declared.add(alloc, text, raw)?;
    }
}
