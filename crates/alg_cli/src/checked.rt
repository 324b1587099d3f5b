//! The command `check`: reports on the answers that a file has.

ghost use Rattle.std.specs.Prelude.{◌≡◌, ◌≤◌, IfOk, length};
ghost use Rattle.alg_annotated.specs.Kept.{AreAnswersTo, size_of};
ghost use Rattle.alg_terms.specs.Limits.{MAX_TEXT};
ghost use Rattle.alg_terms.specs.Valid.{IsValid};
ghost use Rattle.alg_cli.specs.Checked.{AreReports, IsCheckReply, is_ok, status_of_reports};
ghost use Rattle.alg_cli.specs.Commands.{most_bytes};
ghost use Rattle.alg_cli.specs.Replies.{IsReplyTo};
ghost use Rattle.alg_cli.specs.Runs.{IsStatusOf};

use crate::command::Command;
use crate::status::Status;
use crate::top::{Reply, refusal_text};
use alg_annotated::{Annotated, read_annotated};
use alg_check::check_goal;
use alg_lines::GoalCheck;
use alg_printer::report_text;
use alg_reader::FileEnd;
use alg_universe::Universe;
use std::alloc::{AllocError, Global};

/// A report on each goal of an input with answers, or its first fault.
pub(crate) fn checked<U: Universe>(alloc: Global, bytes: &[u8]) -> Result<Reply, AllocError>
    requires { length bytes.now ≤ most_bytes Command.Check }
    ensures reply { IfOk result (λ reply. IsReplyTo U.Universe Command.Check bytes.now reply.text.items reply.status) }
    ensures status { IfOk result (λ reply. IsStatusOf Command.Check reply.status) }
{
    alg_check::laws::proved_is_right::<U>();
    match read_annotated(alloc, bytes) {
        Ok(all) => reported(alloc, &all),
        Err(FileEnd::NoMemory) => Err(AllocError),
        Err(FileEnd::Refused(fault)) => Ok(Reply {
            text: refusal_text(alloc, fault)?,
            status: Status::Refused,
        }),
    }
}

/// The reports on the goals of a file with answers, as they are written.
fn reported(alloc: Global, all: &Annotated) -> Result<Reply, AllocError>
    requires valid { IsValid all.now.file }
    requires answers { AreAnswersTo all.now.file all.now.answers }
    requires few { size_of all.now.file all.now.answers ≤ MAX_TEXT }
    ensures reply { IfOk result (λ reply. IsCheckReply all.now reply.text.items reply.status) }
    ensures status { IfOk result (λ reply. IsStatusOf Command.Check reply.status) }
{
    let reports = reports_on(alloc, all)?;
    Ok(Reply {
        text: report_text(alloc, reports.as_slice())?,
        status: status_of(reports.as_slice()),
    })
}

/// A report on each goal of a file, by its answer.
fn reports_on(alloc: Global, all: &Annotated) -> Result<Vec<GoalCheck>, AllocError>
    requires valid { IsValid all.now.file }
    requires answers { AreAnswersTo all.now.file all.now.answers }
    requires few { size_of all.now.file all.now.answers ≤ MAX_TEXT }
    ensures { IfOk result (λ reports. AreReports all.now.file all.now.answers reports.items) }
{
    let answers = all.answers.items();
    let mut reports = Vec::new(alloc);
    for number in 0..all.file.goals.items().len() as u32 {
        let answer = answers[number as usize].as_ref();
        let report = check_goal(alloc, &all.file, number, answer)?;
        reports.push(report)?;
    }
    Ok(reports)
}

/// Done where each report is that the answer is the goal's own.
fn status_of(reports: &[GoalCheck]) -> Status
    ensures { result ≡ status_of_reports reports.now }
{
    for report in reports {
        if !is_ok(*report) {
            return Status::NotAll;
        }
    }
    Status::Done
}

/// Whether a report is that the answer is the goal's own.
fn is_ok(report: GoalCheck) -> bool
    ensures { result ≡ is_ok report }
{
    matches!(report, GoalCheck::OkProved | GoalCheck::OkOther)
}
