//! Terms of answers, and their first faults.

use alg_reader::{Place, RawKind, read_statement};
use alg_terms::{GREATEST_TEXT, NoMemory, Term, same};
use alg_tokens::Refusal;
use alg_typing::{FileEnd, read_declared};
use sqlite_items::Boxed;
use std::alloc::Global;

/// What a term of an answer is: a term without fault, or a fault with its code and its byte.
#[derive(Clone, Copy, PartialEq, Eq, Debug)]
enum Found {
    Term,
    Fault(u8, u32),
    NoMemory,
}

/// Two sorts with a morphism, and a goal of the second sort.
const FILE: &str = "ring R. ring S. hom f : R -> S. var x : R. var y : S. goal y = y by ring.";

/// The left side of the goal that this text is, as a term of an answer to the file's goal.
fn typed(alloc: Global, text: &str) -> Result<Term, FileEnd> {
    if FILE.len() > GREATEST_TEXT || text.len() > GREATEST_TEXT {
        return Err(FileEnd::NoMemory);
    }
    let declared = read_declared(alloc, FILE)?;
    let raw = read_statement(alloc, text, 0, Place::Plain)?;
    let typed = match &raw.kind {
        RawKind::Goal { equation, .. } if !declared.file().goals.items().is_empty() => {
            declared.term(alloc, text, &equation.left, 0)
        }
        _ => Err(FileEnd::NoMemory),
    };
    drop(raw);
    typed
}

/// What the left side of the goal that this text is comes to.
fn what_is_found(alloc: Global, text: &str) -> Found {
    match typed(alloc, text) {
        Ok(_) => Found::Term,
        Err(FileEnd::Refused(Refusal { code, at })) => Found::Fault(code, at),
        Err(FileEnd::NoMemory) => Found::NoMemory,
    }
}

/// Each row: a goal whose left side is the term, and what the term is.
const ANSWERS: &[(&str, Found)] = &[
    // of the goal's sort, of another one, and of none, which takes the goal's
    ("goal y*f(x) = 0 by ring.", Found::Term),
    ("goal x^1000 = 0 by ring.", Found::Term),
    ("goal -2 = 0 by ring.", Found::Term),
    // a name that is not declared, or as another thing
    ("goal z = 0 by ring.", Found::Fault(7, 5)),
    ("goal f = 0 by ring.", Found::Fault(8, 5)),
    ("goal x(x) = 0 by ring.", Found::Fault(8, 5)),
    // sorts that differ: of an operator, of a morphism's argument
    ("goal x + y = 0 by ring.", Found::Fault(9, 7)),
    ("goal f(y) = 0 by ring.", Found::Fault(9, 5)),
    // a great exponent, and quotients after a goal by ring
    ("goal x^1001 = 0 by ring.", Found::Fault(12, 7)),
    ("goal y/y = 0 by ring.", Found::Fault(13, 6)),
    ("goal 1/2 = 0 by ring.", Found::Fault(13, 6)),
    // a name's fault comes before a sort's, and of two in one group the earlier byte
    ("goal x + y + z = 0 by ring.", Found::Fault(7, 13)),
    ("goal x/x + z = 0 by ring.", Found::Fault(7, 11)),
    ("goal x + y^1001 = 0 by ring.", Found::Fault(9, 7)),
    ("goal y^1001 + x = 0 by ring.", Found::Fault(12, 7)),
];

#[test]
fn terms_of_answers(rt: HostRuntime) {
    for (text, want) in ANSWERS {
        assert!(rt; what_is_found(rt.alloc(), *text) == *want, "{text}");
    }
}

#[test]
fn names_become_numbers(rt: HostRuntime) -> Result<(), NoMemory> {
    let image = Term::Hom(0, Boxed::new(rt.alloc(), Term::Var(0))?);
    let left = Boxed::new(rt.alloc(), image)?;
    let want = Term::Mul(left, Boxed::new(rt.alloc(), Term::Var(1))?);
    match typed(rt.alloc(), "goal f(x)*y = 0 by ring.") {
        Ok(term) => assert!(rt; same(&term, &want), "f(x)*y"),
        Err(_) => assert!(rt; false, "f(x)*y is a term"),
    }
    Ok(())
}
