//! What is replied to `load`: how many goals of a loaded file are proved.

ghost use Rattle.std.specs.Prelude.{◌≡◌, ◌≤◌, IfOk, length};
ghost use Rattle.alg_load.specs.Limits.{MAX_LOAD};
ghost use Rattle.alg_cli.specs.declared.command.Command.TheVariants as Command;
ghost use Rattle.alg_cli.specs.Replies.{IsSummary, proofs_in};
ghost use Rattle.alg_cli.specs.Replies as spec;
ghost use Rattle.alg_cli.specs.Runs.{IsStatusOf};

use crate::top::{Reply, is_proof, put_number, status_of};
use alg_lines::Answer;
use alg_load::load_file;
use alg_prover::answers;
use std::alloc::{AllocError, Global};

/// The summary of the answers to the loaded file of so many goals.
pub(crate) fn loaded(alloc: Global, goals: u32) -> Result<Reply, AllocError>
    requires few { goals ≤ MAX_LOAD }
    ensures reply { IfOk result (λ reply. IsSummary goals reply.text.items reply.status) }
    ensures status { IfOk result (λ reply. IsStatusOf (Command.Load goals) reply.status) }
{
    let file = load_file(alloc, goals)?;
    let answers = answers(alloc, &file)?;
    Ok(Reply {
        text: summary_text(alloc, goals, answers.as_slice())?,
        status: status_of(answers.as_slice()),
    })
}

/// A summary as it is written.
fn summary_text(alloc: Global, goals: u32, answers: &[Answer]) -> Result<Vec<u8>, AllocError>
    ensures { IfOk result (λ text. text.items ≡ spec.summary_text goals answers.now) }
{
    let proved = proofs_in(answers);
    let mut text = Vec::from_slice(alloc, b"load ")?;
    put_number(&mut text, u64::from(goals))?;
    text.extend_from_slice(b": ")?;
    put_number(&mut text, proved as u64)?;
    text.extend_from_slice(b" proved, ")?;
    put_number(&mut text, (answers.len() - proved) as u64)?;
    text.extend_from_slice(b" not\n")?;
    Ok(text)
}

/// How many answers say that their goal is proved.
fn proofs_in(answers: &[Answer]) -> usize
    ensures count { result ≡ proofs_in answers.now }
    ensures within { result ≤ length answers.now }
{
    let mut count = 0;
    for answer in answers {
        count += usize::from(is_proof(answer));
    }
    count
}
