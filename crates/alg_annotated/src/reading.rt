//! The annotated file that a text is, or its first fault.

ghost use Rattle.std.specs.Prelude.{◌≡◌, ◌≤◌, length, Ok, Err, IfOk, IfErr};
ghost use Rattle.alg_terms.specs.Limits.{MAX_TEXT};
ghost use Rattle.alg_terms.specs.Valid.{IsValid};
ghost use Rattle.alg_typing.specs.Ends.{RefusesWith};
ghost use Rattle.alg_annotated.specs.Kept.{AreAnswersTo, size_of};
ghost use Rattle.alg_annotated.specs.Reading.{IsAnnotatedReadingOf, ReadsAnnotated, nothing_yet};

use crate::Annotated;
use crate::progress::Progress;
use alg_reader::{FileEnd, RawKind, read_statement};
use alg_tokens::Code;
use std::alloc::Global;
use std::str;

/// The annotated file that these bytes are, or their first fault: that they are no UTF-8 comes before all
/// faults of statements, and an earlier statement's fault before a later one's. Linear in the bytes, but
/// for the tables of goals.
#[tactic(none)]
pub fn read_annotated(alloc: Global, bytes: &[u8]) -> Result<Annotated, FileEnd>
    requires { length bytes.now ≤ MAX_TEXT }
    ensures ok { IfOk result (λ all. IsAnnotatedReadingOf bytes.now (Ok all)) }
    ensures valid { IfOk result (λ all. IsValid all.file) }
    ensures answers { IfOk result (λ all. AreAnswersTo all.file all.answers) }
    ensures few { IfOk result (λ all. size_of all.file all.answers ≤ length bytes.now) }
    ensures refused { IfErr result (λ end. RefusesWith end (λ fault. IsAnnotatedReadingOf bytes.now (Err fault))) }
{
    match str::from_utf8(bytes) {
        Ok(text) => read_text(alloc, text),
        Err(error) => {
            let end = error.valid_up_to() as u32;
            Err(FileEnd::Refused(Code::Utf8.at(end)))
        }
    }
}

/// The annotated file that a text is, or its first fault.
#[tactic(none)]
fn read_text(alloc: Global, text: &str) -> Result<Annotated, FileEnd>
    requires { length text.now ≤ MAX_TEXT }
    ensures ok { IfOk result (λ all. ReadsAnnotated text.now 0 nothing_yet (Ok all)) }
    ensures valid { IfOk result (λ all. IsValid all.file) }
    ensures answers { IfOk result (λ all. AreAnswersTo all.file all.answers) }
    ensures few { IfOk result (λ all. size_of all.file all.answers ≤ length text.now) }
    ensures refused { IfErr result
        (λ end. RefusesWith end (λ fault. ReadsAnnotated text.now 0 nothing_yet (Err fault))) }
{
    let mut now = Progress::new(alloc);
    let mut at = 0;
    'statements: loop {
        let place = now.place();
        let raw = read_statement(alloc, text, at, place)?;
        if let RawKind::End = raw.kind {
            drop(raw);
            let all = now.finish()?;
            return Ok(all);
        }
        at = raw.stop;
        let next = now.with_statement(alloc, text, raw)?;
        now = next;
    }
}
