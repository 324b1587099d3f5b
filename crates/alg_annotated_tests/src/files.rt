//! Annotated files that are read, and their first faults.

mod answers;
mod certificates;

use alg_annotated::laws::one_reading;
use alg_annotated::{Annotated, FileEnd, read_annotated};
use alg_lines::Answer;
use alg_terms::GREATEST_TEXT;
use alg_tokens::Refusal;
use std::alloc::Global;

/// What a text is: an annotated file, by the numbers of its goals, answers, lines and steps; or a fault
/// with its code and its byte.
#[derive(Clone, Copy, PartialEq, Eq, Debug)]
pub(crate) enum Found {
    Read {
        goals: usize,
        answers: usize,
        lines: usize,
        steps: usize,
    },
    Fault(u8, u32),
    NoMemory,
}

/// An annotated file with one goal and its answer.
pub(crate) const ONE_ANSWER: Found = Found::Read {
    goals: 1,
    answers: 1,
    lines: 0,
    steps: 0,
};

/// An annotated file with one goal, whose answer has a certificate of so many lines and steps.
pub(crate) fn certificate(lines: usize, steps: usize) -> Found {
    Found::Read {
        goals: 1,
        answers: 1,
        lines,
        steps,
    }
}

fn counted(all: &Annotated) -> Found {
    let goals = all.file.goals.items().len();
    let mut answers: usize = 0;
    let mut lines: usize = 0;
    let mut steps: usize = 0;
    for answer in all.answers.items() {
        if let Some(answer) = answer {
            answers = answers.saturating_add(1);
            if let Answer::Certified { cert, .. } = answer {
                lines = lines.saturating_add(cert.lines.items().len());
                steps = steps.saturating_add(cert.steps.items().len());
            }
        }
    }
    Found::Read {
        goals,
        answers,
        lines,
        steps,
    }
}

/// What these bytes are.
pub(crate) fn what_is_found(alloc: Global, bytes: &[u8]) -> Found {
    if bytes.len() > GREATEST_TEXT {
        return Found::NoMemory;
    }
    match read_annotated(alloc, bytes) {
        Ok(all) => {
            let found = counted(&all);
            drop(all);
            found
        }
        Err(FileEnd::Refused(Refusal { code, at })) => Found::Fault(code, at),
        Err(FileEnd::NoMemory) => Found::NoMemory,
    }
}

/// What a front and what stands behind it are together. The bytes of faults count from behind the front.
pub(crate) fn what_is_behind(alloc: Global, front: &str, behind: &str) -> Found {
    match format!(in alloc; "{front}{behind}") {
        Ok(text) => match what_is_found(alloc, text.as_bytes()) {
            Found::Fault(code, at) => {
                let front = u32::try_from(front.len()).unwrap_or(u32::MAX);
                Found::Fault(code, at.saturating_sub(front))
            }
            other => other,
        },
        Err(_) => Found::NoMemory,
    }
}

#[test]
fn declarations_and_goals_are_read_as_in_files_without_answers(rt: HostRuntime) {
    // Each row: a text, and how many goals it has, or its fault.
    let goals = |goals: usize| Found::Read {
        goals,
        answers: 0,
        lines: 0,
        steps: 0,
    };
    for (text, want) in [
        ("", goals(0)),
        ("ring R. # nothing", goals(0)),
        ("ring R. var x : R. goal x = 0 by ring.", goals(1)),
        (
            "ring R. var x : R. goal x = 0 by ring. goal x = 1 by ring. ring S.",
            goals(2),
        ),
        ("ring R. ring R.", Found::Fault(6, 13)),
        ("var x : R.", Found::Fault(7, 8)),
        ("ring R. goal 1 = 0 by ring.", Found::Fault(10, 15)),
        ("ring R. var x : R", Found::Fault(5, 17)),
        ("ring R. proved.", Found::Fault(4, 8)),
        (
            "ring R. line 1, 1, 1 minus 1, 1, 1 over 1.",
            Found::Fault(4, 8),
        ),
        ("ring R. @", Found::Fault(2, 8)),
    ] {
        assert!(rt;
            what_is_found(rt.alloc(), text.as_bytes()) == want,
            "{text}"
        );
    }
    assert!(rt;
        what_is_found(rt.alloc(), &[0x72, 0xFF]) == Found::Fault(1, 1),
        "no UTF-8"
    );
}

#[test]
fn the_law_is_called() {
    one_reading();
}
