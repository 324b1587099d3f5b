//! The top call: words, an input and an output.

ghost use Rattle.std.specs.Prelude.{◌≡◌, ◌≢◌, ◌⊎◌, ◌≤◌, ◌++◌, ◌<◌, List, ℕ, All, Err, IfOk, OnOk, IfSome, length, map, Some, decimal};
ghost use Rattle.alg_outside.specs.Bytes.{IsReadToEnd};
ghost use Rattle.alg_outside.specs.Faults.{Rose};
ghost use Rattle.alg_outside.specs.declared.whole.ReadEnd.TheVariants.{Fault, TooLarge};
ghost use Rattle.alg_terms.specs.Valid.{IsValid};
ghost use Rattle.alg_cli.specs.Commands.{command_of, AsksForFew, ReadsInput, bytes_for, most_bytes};
ghost use Rattle.alg_cli.specs.Runs.{IsReply, IsFailure, IsStatusOf, WritesByStatus, WritesAll, WritesPrefix, RepliesUnlessNoMemory, change};
ghost use Rattle.alg_cli.specs.Replies.{IsReplyTo, IsFileReply};
ghost use Rattle.alg_cli.specs.Replies as spec;

use crate::checked::checked;
use crate::command::Command;
use crate::load::loaded;
use crate::status::Status;
use alg_lines::Answer;
use alg_outside::{ReadEnd, Sink, Source, read_whole, write_whole};
use alg_printer::file_text;
use alg_prover::answers;
use alg_reader::FileEnd;
use alg_terms::File;
use alg_tokens::Refusal;
use alg_typing::read_file;
use alg_universe::Universe;
use itoa::Buffer;
use std::alloc::{AllocError, Global};

/// What is to be written, and how the run ends once it is.
#[derive(Drop)]
pub(crate) struct Reply {
    pub(crate) text: Vec<u8>,
    pub(crate) status: Status,
}

/// Does what the words ask for. With the word `prove` it reads the whole input, at most 1,048,576
/// bytes, and writes the file back with its answers. With the word `check` it reads a file with
/// answers, at most 16,777,216 bytes, and writes a report on each goal. Of an input that is no such
/// file both write the first fault. With `load` and a number it reads nothing and writes how many
/// goals of the loaded file are proved; with other words it writes the usage. All memory is taken
/// before the first byte is written. `U` has no call that runs, so the same program serves every
/// family of structures.
pub fn run<U: Universe, S: Source, K: Sink>(
    alloc: Global,
    words: &[String],
    source: &mut S,
    sink: &mut K,
) -> Status
    // What was written is the reply to the input: the file's text with its answers, each of which is
    // right in every universe that fits, or a report on each goal, which is right so where it is
    // reported proved, or the first fault; or the summary; or the usage.
    ensures written { WritesByStatus (IsReply U.Universe (command_of words.now) (S.left source.old)) result
        (change K.Sink sink.old sink.new) }
    // Unless a count of faults rose or memory ran out, the reply was written.
    ensures always { (ReadsInput (command_of words.now) → ¬ Rose (S.faults source.old) (S.faults source.new))
        → ¬ Rose (K.faults sink.old) (K.faults sink.new)
        → RepliesUnlessNoMemory U.Universe (command_of words.now) (S.left source.old) result
        (change K.Sink sink.old sink.new) }

    ensures usage { result ≡ Status.Usage → command_of words.now ≡ Command.Usage }
    ensures no_memory { result ≡ Status.NoMemory → command_of words.now ≢ Command.Usage }
    ensures reads_nothing { ¬ ReadsInput (command_of words.now) → source.new ≡ source.old }
    ensures reads { result ≡ Status.ReadFault → ReadsInput (command_of words.now) }
    ensures read_fault { result ≡ Status.ReadFault → Rose (S.faults source.old) (S.faults source.new) }
    ensures write_fault { result ≡ Status.WriteFault → Rose (K.faults sink.old) (K.faults sink.new) }

    // After these the input was read to its end; where it is refused, if it was within the limit.
    ensures done { result ≡ Status.Done → ReadsInput (command_of words.now)
        → IsReadToEnd (S.left source.old) (S.left source.new) }
    ensures not_all { result ≡ Status.NotAll → ReadsInput (command_of words.now)
        → IsReadToEnd (S.left source.old) (S.left source.new) }
    ensures refused { result ≡ Status.Refused → ReadsInput (command_of words.now)
        → IfSome (S.left source.old) (λ bytes. length bytes ≤ most_bytes (command_of words.now)
        → IsReadToEnd (S.left source.old) (S.left source.new)) }
{
    alg_typing::laws::one_reading();
    alg_prover::laws::one_answer();
    alg_annotated::laws::one_reading();
    alg_check::laws::one_report();
    let command = Command::of(words);
    if command == Command::Usage {
        return write_reply(sink, b"usage\n", Status::Usage);
    }
    let bytes = match input_for(alloc, command, source) {
        Ok(bytes) => bytes,
        Err(ReadEnd::Fault) => return Status::ReadFault,
        Err(ReadEnd::NoMemory) => return Status::NoMemory,
        Err(ReadEnd::TooLarge) => return write_reply(sink, b"refused large\n", Status::Refused),
    };
    match reply_to::<U>(alloc, command, bytes.as_slice()) {
        Ok(Reply { text, status }) => write_reply(sink, text.as_slice(), status),
        Err(_) => Status::NoMemory,
    }
}

/// The bytes that a command works on: the whole input, or none where it reads nothing.
fn input_for<S: Source>(alloc: Global, command: Command, source: &mut S) -> Result<Vec<u8>, ReadEnd>
    ensures told { IfOk result (λ bytes. IfSome (bytes_for command (S.left source.old)) (λ told. told ≡ bytes.items)) }
    ensures few { IfOk result (λ bytes. length bytes.items ≤ most_bytes command) }
    ensures end { ReadsInput command → OnOk result (IsReadToEnd (S.left source.old) (S.left source.new)) }
    ensures nothing { ¬ ReadsInput command → source.new ≡ source.old }
    ensures fault { result ≡ Err Fault → ReadsInput command × Rose (S.faults source.old) (S.faults source.new) }
    ensures large { result ≡ Err TooLarge → ReadsInput command
        × IfSome (S.left source.old) (λ all. most_bytes command < length all) }
{
    if command.reads_input() {
        read_whole(alloc, source, command.most_bytes())
    } else {
        Ok(Vec::new(alloc))
    }
}

/// Writes a text and gives the status, or a write fault.
fn write_reply<K: Sink>(sink: &mut K, text: &[u8], status: Status) -> Status
    requires { ¬ IsFailure status }
    ensures { ((result ≡ status) × WritesAll
        (change K.Sink sink.old sink.new) text.now)
        ⊎ ((result ≡ Status.WriteFault) × Rose (K.faults sink.old) (K.faults sink.new) × WritesPrefix
        (change K.Sink sink.old sink.new) text.now) }
{
    match write_whole(sink, text) {
        Ok(()) => status,
        Err(_) => Status::WriteFault,
    }
}

/// The reply of a command to the bytes that it works on, which are within its limit.
fn reply_to<U: Universe>(alloc: Global, command: Command, bytes: &[u8]) -> Result<Reply, AllocError>
    requires few { length bytes.now ≤ most_bytes command }
    requires goals { AsksForFew command }
    requires other { command ≢ Command.Usage }
    ensures reply { IfOk result (λ reply. IsReplyTo U.Universe command bytes.now reply.text.items reply.status) }
    ensures status { IfOk result (λ reply. IsStatusOf command reply.status) }
{
    match command {
        Command::Prove => proved::<U>(alloc, bytes),
        Command::Check => checked::<U>(alloc, bytes),
        Command::Load(goals) => loaded(alloc, goals),
        Command::Usage => unreachable!(),
    }
}

/// The file of an input with its answers, or its first fault.
fn proved<U: Universe>(alloc: Global, bytes: &[u8]) -> Result<Reply, AllocError>
    requires { length bytes.now ≤ most_bytes Command.Prove }
    ensures reply { IfOk result (λ reply. IsReplyTo U.Universe Command.Prove bytes.now reply.text.items reply.status) }
    ensures status { IfOk result (λ reply. IsStatusOf Command.Prove reply.status) }
{
    alg_prover::laws::proved_is_right::<U>();
    alg_prover::laws::no_differs();
    alg_criterion::laws::none_exists();
    match read_file(alloc, bytes) {
        Ok(file) => answered(alloc, &file),
        Err(FileEnd::NoMemory) => Err(AllocError),
        Err(FileEnd::Refused(fault)) => Ok(Reply {
            text: refusal_text(alloc, fault)?,
            status: Status::Refused,
        }),
    }
}

/// The file with the answers to its goals.
fn answered(alloc: Global, file: &File) -> Result<Reply, AllocError>
    requires { IsValid file.now }
    ensures reply { IfOk result (λ reply. IsFileReply file.now reply.text.items reply.status) }
    ensures status { IfOk result (λ reply. IsStatusOf Command.Prove reply.status) }
{
    let answers = answers(alloc, file)?;
    let status = status_of(answers.as_slice());
    let printed = all_some(alloc, answers)?;
    Ok(Reply {
        text: file_text(alloc, file, printed.as_slice())?,
        status,
    })
}

/// Done where each answer is a proof.
pub(crate) fn status_of(answers: &[Answer]) -> Status
    ensures { result ≡ spec.status_of answers.now }
{
    for answer in answers {
        if !is_proof(answer) {
            return Status::NotAll;
        }
    }
    Status::Done
}

/// Whether an answer says that its goal is proved.
pub(crate) fn is_proof(answer: &Answer) -> bool
    ensures { result ≡ spec.is_proof answer.now }
{
    matches!(answer, Answer::Proved { .. } | Answer::Certified { .. })
}

/// The answers as optional ones, each there.
fn all_some(alloc: Global, answers: Vec<Answer>) -> Result<Vec<Option<Answer>>, AllocError>
    ensures { IfOk result (λ all. all.items ≡ map Some answers.items) }
{
    let mut all = Vec::new(alloc);
    for answer in answers {
        all.push(Some(answer))?;
    }
    Ok(all)
}

/// A fault as it is written.
pub(crate) fn refusal_text(alloc: Global, fault: Refusal) -> Result<Vec<u8>, AllocError>
    ensures { IfOk result (λ text. text.items ≡ spec.refusal_text fault) }
{
    let mut text = Vec::from_slice(alloc, b"refused ")?;
    put_number(&mut text, u64::from(fault.code))?;
    text.extend_from_slice(b" at ")?;
    put_number(&mut text, u64::from(fault.at))?;
    text.push(b'\n')?;
    Ok(text)
}

/// A number in decimal, at the end of a text.
pub(crate) fn put_number(text: &mut Vec<u8>, number: u64) -> Result<(), AllocError>
    ensures { OnOk result (text.new.items ≡ text.old.items ++ decimal number) }
{
    let mut buffer = Buffer::new();
    Ok(text.extend_from_slice(buffer.format(number).as_bytes())?)
}
