//! The text of the reports on the goals of a file.

ghost use Rattle.std.specs.Prelude.{◌≡◌, ◌++◌, IfOk, OnOk};
ghost use Rattle.alg_printer.specs.Reports.{bad_text, check_text, report_line, reports_text};

use crate::NoMemory;
use crate::text::Text;
use alg_lines::GoalCheck;
use std::alloc::Global;

/// The reports on the goals of a file, a line each, numbered from 1.
pub fn report_text(alloc: Global, reports: &[GoalCheck]) -> Result<Vec<u8>, NoMemory>
    ensures ok { IfOk result (λ text. text.items ≡ reports_text reports.now) }
{
    let mut text = Text::new(alloc);
    let mut number: usize = 0;
    for report in reports {
        number += 1;
        put_report(&mut text, number, *report)?;
    }
    Ok(text.into_bytes())
}

/// The report on the goal of a number.
fn put_report(text: &mut Text, number: usize, report: GoalCheck) -> Result<(), NoMemory>
    ensures { OnOk result (text.new ≡ text.old ++ report_line number report) }
{
    text.put(b"goal ")?;
    text.index(number)?;
    text.put(b": ")?;
    put_check(text, report)?;
    text.put(b"\n")
}

/// What is found of a goal's answer.
fn put_check(text: &mut Text, report: GoalCheck) -> Result<(), NoMemory>
    ensures { OnOk result (text.new ≡ text.old ++ check_text report) }
{
    match report {
        GoalCheck::OkProved => text.put(b"ok proved"),
        GoalCheck::OkOther => text.put(b"ok"),
        GoalCheck::Bad { at } => put_bad(text, at),
        GoalCheck::Unchecked => text.put(b"unchecked"),
        GoalCheck::Atoms => text.put(b"atoms"),
        GoalCheck::Range => text.put(b"range"),
        GoalCheck::Degree => text.put(b"degree"),
    }
}

/// A breach, and where it is; 0 is the answer as a whole.
fn put_bad(text: &mut Text, at: u32) -> Result<(), NoMemory>
    ensures { OnOk result (text.new ≡ text.old ++ bad_text at) }
{
    if at == 0 {
        return text.put(b"bad");
    }
    text.put(b"bad at ")?;
    text.natural(at)
}
