//! Monomials and integers of answers.

ghost use Rattle.std.specs.Prelude.{◌≡◌, [], ◌∷◌, IfOk, None};
ghost use Rattle.alg_tokens.specs.declared.token.Sign.TheVariants as signs;
ghost use Rattle.alg_reader.specs.AnswerMeaning.{factor_in};
ghost use Rattle.alg_reader.specs.Forms as rules;
ghost use Rattle.alg_reader.specs.Forms.{rule};
ghost use Rattle.alg_reader.specs.RawMonos as spec;
ghost use Rattle.alg_reader.specs.Reading.{Reads, ReadsMore};
ghost use Rattle.alg_reader.specs.TermMeaning.{factor, int, mono};

use crate::cursor::{Cursor, Fault};
use crate::parts::{number_of, numeral_of, span_of};
use crate::raw::{RawFactor, RawMono, RawNumber, Span};
use alg_tokens::{Sign, Token, TokenKind};
use sqlite_items::Items;
use std::alloc::{AllocError, Global};

impl Cursor<'_> {
    /// `1`, or factors.
    pub fn mono(&mut self, alloc: Global) -> Result<RawMono, Fault>
        ensures { Reads (rule rules.Mono) mono self.old result self.new }
    {
        if self.sees(TokenKind::Number(1)) {
            let one = self.take();
            return Ok(mono_one(alloc, one.start));
        }
        self.factors(alloc)
    }

    /// `x*f(y)^2`
    pub fn factors(&mut self, alloc: Global) -> Result<RawMono, Fault>
        ensures { Reads (rule rules.Factors) mono self.old result self.new }
    {
        let first = self.factor(alloc)?;
        let start = first.name.start;
        let factors = self.more_factors(alloc, first)?;
        Ok(RawMono { start, factors })
    }

    /// A first factor and those that follow it.
    fn more_factors(&mut self, alloc: Global, first: RawFactor) -> Result<Items<RawFactor>, Fault>
        ensures { ReadsMore signs.Star rules.Factor factor_in first self.old result self.new }
    {
        let mut factors = Vec::new(alloc);
        factors.push(first)?;
        'factors: while self.sees(TokenKind::Sign(Sign::Star)) {
            let _star = self.take();
            let factor = self.factor(alloc)?;
            factors.push(factor)?;
        }
        Ok(Items::from_vec(factors))
    }

    /// `f(x)^2`
    fn factor(&mut self, alloc: Global) -> Result<RawFactor, Fault>
        ensures { Reads (rule rules.Factor) factor self.old result self.new }
    {
        let atom = self.atom(alloc)?;
        let exponent = self.option(TokenKind::Sign(Sign::Caret))?;
        Ok(RawFactor { exponent, ..atom })
    }

    /// `f(g(x))`
    fn atom(&mut self, alloc: Global) -> Result<RawFactor, Fault>
        ensures { Reads (rule rules.Atom) factor self.old result self.new }
    {
        let name = self.expect(TokenKind::Name)?;
        if !self.sees(TokenKind::Sign(Sign::ParenLeft)) {
            return Ok(factor_of(span_of(name), None));
        }
        let _paren = self.take();
        let inner = self.atom(alloc)?;
        let _close = self.expect(TokenKind::Sign(Sign::ParenRight))?;
        let of = mono_of(alloc, inner)?;
        Ok(factor_of(span_of(name), Some(of)))
    }

    /// `2`, or `-2`
    pub fn int(&mut self) -> Result<RawNumber, Fault>
        ensures { Reads (rule rules.Int) int self.old result self.new }
    {
        if !self.sees(TokenKind::Sign(Sign::Minus)) {
            let number = self.numeral()?;
            return Ok(numeral_of(number));
        }
        let minus = self.take();
        let number = self.numeral()?;
        Ok(opposite_of(minus, number))
    }
}

/// The monomial 1.
pub fn mono_one(alloc: Global, start: u32) -> RawMono
    ensures { result ≡ spec.mono_one start }
{
    RawMono {
        start,
        factors: Items::new(alloc),
    }
}

/// The monomial of one factor.
fn mono_of(alloc: Global, factor: RawFactor) -> Result<RawMono, AllocError>
    ensures { IfOk result (λ m. m ≡ spec.mono_of (spec.start_of factor) (factor ∷ [])) }
{
    let start = factor.name.start;
    let factors = Vec::from_array(alloc, [factor])?;
    Ok(RawMono {
        start,
        factors: Items::from_vec(factors),
    })
}

/// A factor without exponent.
fn factor_of(name: Span, of: Option<RawMono>) -> RawFactor
    ensures { result ≡ spec.factor_of name of None }
{
    RawFactor {
        name,
        of,
        exponent: None,
    }
}

/// The number behind a sign, at the sign: minus the magnitude of the numeral.
fn opposite_of(minus: Token, number: Token) -> RawNumber
    ensures { result ≡ spec.opposite_of minus number }
{
    let value = number_of(number.kind);
    RawNumber {
        value: if value > 0 { -value } else { value },
        at: minus.start,
    }
}

/// The number 1 where none is written.
pub fn number_one(start: u32) -> RawNumber
    ensures { result ≡ spec.number_one start }
{
    RawNumber {
        value: 1,
        at: start,
    }
}
