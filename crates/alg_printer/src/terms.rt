//! The text of a term.

ghost use Rattle.std.specs.Prelude.{◌≡◌, ◌++◌, OnOk};
ghost use Rattle.alg_terms.specs.declared.file.File.{File};
ghost use Rattle.alg_printer.specs.Terms.{printed, part_text, term_text, IsNamed};

use crate::NoMemory;
use crate::names::{put_morphism, put_variable};
use crate::text::Text;
use alg_terms::{File, Term};

/// How tightly a term binds.
#[tactic(auto, using(alg_terms::proofs::Built::built))]
fn level(term: &Term) -> u8
    ensures { (file : File) → result ≡ (printed file term.now).level }
{
    match term {
        Term::Add(..) | Term::Sub(..) => 1,
        Term::Mul(..) | Term::Div(..) => 2,
        Term::Neg(_) => 3,
        Term::Pow(..) => 4,
        Term::Var(_) | Term::Int(_) | Term::Hom(..) => 5,
    }
}

/// A part of a term where a level is wanted.
#[tactic(auto, using(alg_terms::proofs::Built::built))]
#[cycle(printing)]
fn put_part(text: &mut Text, file: &File, term: &Term, wanted: u8) -> Result<(), NoMemory>
    requires { IsNamed file.now term.now }
    ensures { OnOk result (text.new ≡ text.old ++ part_text wanted (printed file.now term.now)) }
{
    if level(term) >= wanted {
        return put_term(text, file, term);
    }
    text.put(b"(")?;
    put_term(text, file, term)?;
    text.put(b")")
}

/// A term.
#[tactic(auto, using(alg_terms::proofs::Built::built))]
#[cycle(printing)]
pub(crate) fn put_term(text: &mut Text, file: &File, term: &Term) -> Result<(), NoMemory>
    requires { IsNamed file.now term.now }
    ensures { OnOk result (text.new ≡ text.old ++ term_text file.now term.now) }
{
    match term {
        Term::Var(number) => put_variable(text, file, *number),
        Term::Int(value) => text.integer(*value),
        Term::Neg(inner) => {
            text.put(b"-")?;
            put_part(text, file, inner.get(), 3)
        }
        Term::Add(left, right) => {
            put_part(text, file, left.get(), 1)?;
            text.put(b" + ")?;
            put_part(text, file, right.get(), 2)
        }
        Term::Sub(left, right) => {
            put_part(text, file, left.get(), 1)?;
            text.put(b" - ")?;
            put_part(text, file, right.get(), 2)
        }
        Term::Mul(left, right) => {
            put_part(text, file, left.get(), 2)?;
            text.put(b"*")?;
            put_part(text, file, right.get(), 3)
        }
        Term::Div(left, right) => {
            put_part(text, file, left.get(), 2)?;
            text.put(b"/")?;
            put_part(text, file, right.get(), 3)
        }
        Term::Pow(inner, exponent) => {
            put_part(text, file, inner.get(), 5)?;
            text.put(b"^")?;
            text.natural(*exponent)
        }
        Term::Hom(number, inner) => {
            put_morphism(text, file, *number)?;
            text.put(b"(")?;
            put_term(text, file, inner.get())?;
            text.put(b")")
        }
    }
}
