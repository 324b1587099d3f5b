//! The text of a file with its answers.

ghost use Rattle.std.specs.Prelude.{◌≡◌, ◌<◌, ◌++◌, length, IfOk, OnOk};
ghost use Rattle.alg_terms.specs.Valid.{IsValid};
ghost use Rattle.alg_printer.specs.Printable.{ArePrintable};
ghost use Rattle.alg_printer.specs.Text.{IsStatementOf, answered_text, statement_text, text_of};

use crate::NoMemory;
use crate::answers::put_answer;
use crate::statements::{put_goal, put_hom, put_hyp, put_sort, put_vars};
use crate::text::Text;
use alg_lines::Answer;
use alg_terms::{File, Statement};
use std::alloc::Global;

/// The canonical text of a valid file, each goal with its answer below it, if it has one: a line
/// for each statement, answer, line and step. Linear in the text, and the atoms of each goal with
/// monomials are numbered once more.
pub fn file_text(
    alloc: Global,
    file: &File,
    answers: &[Option<Answer>],
) -> Result<Vec<u8>, NoMemory>
    requires valid { IsValid file.now }
    requires printable { ArePrintable file.now answers.now }
    ensures ok { IfOk result (λ text. text.items ≡ text_of file.now answers.now) }
{
    let mut text = Text::new(alloc);
    for statement in file.order.items() {
        put_statement(alloc, &mut text, file, answers, *statement)?;
    }
    Ok(text.into_bytes())
}

/// A statement, a goal with its answer below it.
fn put_statement(
    alloc: Global,
    text: &mut Text,
    file: &File,
    answers: &[Option<Answer>],
    statement: Statement,
) -> Result<(), NoMemory>
    requires valid { IsValid file.now }
    requires printable { ArePrintable file.now answers.now }
    requires declared { IsStatementOf file.now statement }
    ensures { OnOk result (text.new ≡ text.old ++ statement_text file.now answers.now statement) }
{
    match statement {
        Statement::Sort(number) => put_sort(text, &file.sorts.items()[number as usize]),
        Statement::Hom(number) => put_hom(text, file, &file.homs.items()[number as usize]),
        Statement::Vars { first, count } => put_vars(text, file, first, count),
        Statement::Hyp(number) => put_hyp(text, file, &file.hyps.items()[number as usize]),
        Statement::Goal(number) => put_answered(alloc, text, file, answers, number),
    }
}

/// A goal with its answer below it.
fn put_answered(
    alloc: Global,
    text: &mut Text,
    file: &File,
    answers: &[Option<Answer>],
    number: u32,
) -> Result<(), NoMemory>
    requires valid { IsValid file.now }
    requires printable { ArePrintable file.now answers.now }
    requires declared { number < length file.now.goals }
    ensures { OnOk result (text.new ≡ text.old ++ answered_text file.now answers.now number) }
{
    let goal = &file.goals.items()[number as usize];
    put_goal(text, file, goal)?;
    match &answers[number as usize] {
        Some(answer) => put_answer(alloc, text, file, goal, answer),
        None => Ok(()),
    }
}
