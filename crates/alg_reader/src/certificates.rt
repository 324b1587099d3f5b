//! Lines and steps of certificates, in both formats.

ghost use Rattle.std.specs.Prelude.{◌≡◌, unwrap_or};
ghost use Rattle.alg_reader.specs.AnswerMeaning.{cofactor_of};
ghost use Rattle.alg_reader.specs.Forms as rules;
ghost use Rattle.alg_reader.specs.Forms.{rule};
ghost use Rattle.alg_reader.specs.Grammar.{cofactor, divisor};
ghost use Rattle.alg_reader.specs.PartMeaning.{option_of};
ghost use Rattle.alg_reader.specs.Reading.{Reads, ReadsAs, ReadsStatement};
ghost use Rattle.alg_reader.specs.RawMonos as spec;
ghost use Rattle.alg_reader.specs.TermMeaning.{combined};

use crate::cursor::{Cursor, Fault};
use crate::format::Format;
use crate::monomials::{mono_one, number_one};
use crate::parts::{HeldStatement, numeral_of};
use crate::raw::{RawKind, RawMono, RawNumber};
use crate::statements::plain;
use alg_tokens::{Sign, TokenKind, Word};
use std::alloc::Global;

/// What a line and a step end with: the first factor, or the first line number, and the line that
/// is subtracted, as far as it is written.
#[derive(Debug, Drop)]
pub struct Combined {
    pub first: RawNumber,
    pub b: RawNumber,
    pub n: Option<RawMono>,
    pub j: RawNumber,
    pub d: Option<RawNumber>,
}

impl Cursor<'_> {
    /// `line 1, x, 1 minus 2, y, 3 over 4`; what is left out is 1, at the word.
    pub fn line(&mut self, alloc: Global, format: Format) -> Result<HeldStatement, Fault>
        ensures { ReadsStatement (rule (rules.Line format)) self.old result self.new }
    {
        let word = self.expect(TokenKind::Word(Word::Line))?;
        let a = self.numeral()?;
        let _comma = self.expect(TokenKind::Sign(Sign::Comma))?;
        let m = self.cofactor(alloc, format)?;
        let combined = self.combined(alloc, format)?;
        Ok(plain(RawKind::Line {
            a: numeral_of(a),
            m: mono_or(alloc, m, word.start),
            i: combined.first,
            b: combined.b,
            n: mono_or(alloc, combined.n, word.start),
            j: combined.j,
            d: combined.d.unwrap_or(number_one(word.start)),
        }))
    }

    /// `step 1 minus 2, y, 3 over 4`; what is left out is 1, at the word.
    pub fn step(&mut self, alloc: Global, format: Format) -> Result<HeldStatement, Fault>
        ensures { ReadsStatement (rule (rules.Step format)) self.old result self.new }
    {
        let word = self.expect(TokenKind::Word(Word::Step))?;
        let combined = self.combined(alloc, format)?;
        Ok(plain(RawKind::Step {
            a: combined.first,
            b: combined.b,
            n: mono_or(alloc, combined.n, word.start),
            j: combined.j,
            d: combined.d.unwrap_or(number_one(word.start)),
        }))
    }

    /// `1 minus 2, y, 3 over 4`
    fn combined(&mut self, alloc: Global, format: Format) -> Result<Combined, Fault>
        ensures { Reads (rule (rules.Combined format)) combined self.old result self.new }
    {
        let first = self.numeral()?;
        let _minus = self.expect(TokenKind::Word(Word::Minus))?;
        let b = self.int()?;
        let _comma = self.expect(TokenKind::Sign(Sign::Comma))?;
        let n = self.cofactor(alloc, format)?;
        let j = self.numeral()?;
        let d = self.divisor(format)?;
        Ok(Combined {
            first: numeral_of(first),
            b,
            n,
            j: numeral_of(j),
            d,
        })
    }

    /// A monomial and a comma.
    fn cofactor(&mut self, alloc: Global, format: Format) -> Result<Option<RawMono>, Fault>
        ensures { ReadsAs (cofactor format) cofactor_of self.old result self.new }
    {
        match format {
            Format::One => self.given_cofactor(alloc),
            Format::Two => self.short_cofactor(alloc),
        }
    }

    /// A monomial and a comma, where the monomial 1 is written.
    fn given_cofactor(&mut self, alloc: Global) -> Result<Option<RawMono>, Fault>
        ensures { ReadsAs (cofactor Format.One) cofactor_of self.old result self.new }
    {
        let mono = self.mono(alloc)?;
        let _comma = self.expect(TokenKind::Sign(Sign::Comma))?;
        Ok(Some(mono))
    }

    /// A monomial and a comma, where the monomial 1 is left out.
    fn short_cofactor(&mut self, alloc: Global) -> Result<Option<RawMono>, Fault>
        ensures { ReadsAs (cofactor Format.Two) cofactor_of self.old result self.new }
    {
        if !self.sees(TokenKind::Name) {
            return Ok(None);
        }
        let factors = self.factors(alloc)?;
        let _comma = self.expect(TokenKind::Sign(Sign::Comma))?;
        Ok(Some(factors))
    }

    /// `over 4`
    fn divisor(&mut self, format: Format) -> Result<Option<RawNumber>, Fault>
        ensures { ReadsAs (divisor format) option_of self.old result self.new }
    {
        match format {
            Format::One => self.given_divisor(),
            Format::Two => self.option(TokenKind::Word(Word::Over)),
        }
    }

    /// `over 4`, where the divisor 1 is written.
    fn given_divisor(&mut self) -> Result<Option<RawNumber>, Fault>
        ensures { ReadsAs (divisor Format.One) option_of self.old result self.new }
    {
        let _over = self.expect(TokenKind::Word(Word::Over))?;
        let number = self.numeral()?;
        Ok(Some(numeral_of(number)))
    }
}

/// A monomial, or 1 where none is written.
fn mono_or(alloc: Global, mono: Option<RawMono>, start: u32) -> RawMono
    ensures { result ≡ unwrap_or mono (spec.mono_one start) }
{
    match mono {
        Some(mono) => mono,
        None => mono_one(alloc, start),
    }
}
