//! Answers, each part by part.

ghost use Rattle.std.specs.Prelude.{◌≡◌};
ghost use Rattle.alg_reader.specs.AnswerMeaning.{constants_of, numeral_in, stopped_word};
ghost use Rattle.alg_reader.specs.Forms as rules;
ghost use Rattle.alg_reader.specs.Forms.{rule};
ghost use Rattle.alg_reader.specs.Grammar.{constants};
ghost use Rattle.alg_reader.specs.Reading.{Reads, ReadsAnswer, ReadsAs, ReadsConditions, ReadsMore, ReadsStatement, ReadsTerm};
ghost use Rattle.alg_reader.specs.TermMeaning.{one};
ghost use Rattle.alg_tokens.specs.declared.token.Sign.TheVariants as signs;

use crate::cursor::{Cursor, Fault};
use crate::parts::{HeldAnswer, HeldStatement, HeldTerm, numeral_of};
use crate::raw::{RawAnswer, RawKind, RawNumber};
use crate::statements::plain;
use alg_terms::Seq;
use alg_tokens::{Sign, Token, TokenKind, Word};
use std::alloc::Global;

impl Cursor<'_> {
    /// `proved`, with its conditions or by a certificate.
    pub fn proved(&mut self, alloc: Global) -> Result<HeldStatement, Fault>
        ensures { ReadsStatement (rule rules.Proved) self.old result self.new }
    {
        let _proved = self.expect(TokenKind::Word(Word::Proved))?;
        if self.sees(TokenKind::Word(Word::If)) {
            let conditional = self.conditional(alloc)?;
            return Ok(answered(conditional));
        }
        if self.sees_either(TokenKind::Word(Word::Version), TokenKind::Word(Word::Power)) {
            let certified = self.certified(alloc)?;
            return Ok(answered(certified));
        }
        let conditions = Seq::from_vec(Vec::new(alloc));
        Ok(plain(RawKind::Answer(RawAnswer::Proved { conditions })))
    }

    /// `if t <> 0, u <> 0`
    fn conditional(&mut self, alloc: Global) -> Result<HeldAnswer, Fault>
        ensures { ReadsAnswer (rule rules.Conditional) self.old result self.new }
    {
        let _if = self.expect(TokenKind::Word(Word::If))?;
        let first = self.condition(alloc)?;
        self.more_conditions(alloc, first)
    }

    /// A first condition and those that follow it.
    fn more_conditions(&mut self, alloc: Global, first: HeldTerm) -> Result<HeldAnswer, Fault>
        ensures { ReadsConditions first self.old result self.new }
    {
        let mut conditions = Vec::new(alloc);
        let mut too_deep = first.too_deep;
        conditions.push(first.term)?;
        'conditions: while self.sees(TokenKind::Sign(Sign::Comma)) {
            let _comma = self.take();
            let condition = self.condition(alloc)?;
            too_deep = too_deep.or(condition.too_deep);
            conditions.push(condition.term)?;
        }
        let conditions = Seq::from_vec(conditions);
        Ok(HeldAnswer {
            answer: RawAnswer::Proved { conditions },
            too_deep,
        })
    }

    /// `t <> 0`
    fn condition(&mut self, alloc: Global) -> Result<HeldTerm, Fault>
        ensures { ReadsTerm rules.Condition self.old result self.new }
    {
        let sum = self.sum(alloc)?;
        let _unequal = self.expect(TokenKind::Sign(Sign::NotEqual))?;
        let _zero = self.expect(TokenKind::Number(0))?;
        Ok(sum)
    }

    /// `version 2 power 1 if 2 <> 0`
    fn certified(&mut self, alloc: Global) -> Result<HeldAnswer, Fault>
        ensures { ReadsAnswer (rule rules.Certified) self.old result self.new }
    {
        let version = self.option(TokenKind::Word(Word::Version))?;
        let _power = self.expect(TokenKind::Word(Word::Power))?;
        let power = self.numeral()?;
        let constants = self.constants(alloc)?;
        Ok(HeldAnswer {
            answer: RawAnswer::Certified {
                version,
                power: numeral_of(power),
                constants,
            },
            too_deep: None,
        })
    }

    /// `if 2 <> 0, 3 <> 0`, or nothing.
    fn constants(&mut self, alloc: Global) -> Result<Seq<RawNumber>, Fault>
        ensures { ReadsAs constants constants_of self.old result self.new }
    {
        if !self.sees(TokenKind::Word(Word::If)) {
            return Ok(Seq::from_vec(Vec::new(alloc)));
        }
        let _if = self.take();
        let first = self.constant()?;
        self.more_constants(alloc, numeral_of(first))
    }

    /// A first constant and those that follow it.
    fn more_constants(&mut self, alloc: Global, first: RawNumber) -> Result<Seq<RawNumber>, Fault>
        ensures { ReadsMore signs.Comma rules.Constant numeral_in first self.old result self.new }
    {
        let mut constants = Vec::new(alloc);
        constants.push(first)?;
        'constants: while self.sees(TokenKind::Sign(Sign::Comma)) {
            let _comma = self.take();
            let constant = self.constant()?;
            constants.push(numeral_of(constant))?;
        }
        Ok(Seq::from_vec(constants))
    }

    /// The numeral of `2 <> 0`
    fn constant(&mut self) -> Result<Token, Fault>
        ensures { Reads (rule rules.Constant) one self.old result self.new }
    {
        let number = self.numeral()?;
        let _unequal = self.expect(TokenKind::Sign(Sign::NotEqual))?;
        let _zero = self.expect(TokenKind::Number(0))?;
        Ok(number)
    }

    /// `no at x : 1 and 0`
    pub fn no(&mut self, alloc: Global) -> Result<HeldStatement, Fault>
        ensures { ReadsStatement (rule rules.No) self.old result self.new }
    {
        let _no = self.expect(TokenKind::Word(Word::No))?;
        let _at = self.expect(TokenKind::Word(Word::At))?;
        let at = self.mono(alloc)?;
        let _colon = self.expect(TokenKind::Sign(Sign::Colon))?;
        let left = self.int()?;
        let _and = self.expect(TokenKind::Word(Word::And))?;
        let right = self.int()?;
        Ok(plain(RawKind::Answer(RawAnswer::No { at, left, right })))
    }

    /// `zero denominator t`
    pub fn zero_denominator(&mut self, alloc: Global) -> Result<HeldStatement, Fault>
        ensures { ReadsStatement (rule rules.ZeroDenominator) self.old result self.new }
    {
        let _zero = self.expect(TokenKind::Word(Word::Zero))?;
        let _denominator = self.expect(TokenKind::Word(Word::Denominator))?;
        let denominator = self.sum(alloc)?;
        Ok(answered(HeldAnswer {
            answer: RawAnswer::ZeroDenominator {
                denominator: denominator.term,
            },
            too_deep: denominator.too_deep,
        }))
    }

    /// `none up to power 1`
    pub fn none_up_to(&mut self) -> Result<HeldStatement, Fault>
        ensures { ReadsStatement (rule rules.NoneUpTo) self.old result self.new }
    {
        let _none = self.expect(TokenKind::Word(Word::None))?;
        let _up = self.expect(TokenKind::Word(Word::Up))?;
        let _to = self.expect(TokenKind::Word(Word::To))?;
        let _power = self.expect(TokenKind::Word(Word::Power))?;
        let power = self.numeral()?;
        Ok(plain(RawKind::Answer(RawAnswer::NoneUpTo(numeral_of(power)))))
    }

    /// `gave up after 100`
    pub fn gave_up(&mut self) -> Result<HeldStatement, Fault>
        ensures { ReadsStatement (rule rules.GaveUp) self.old result self.new }
    {
        let _gave = self.expect(TokenKind::Word(Word::Gave))?;
        let _up = self.expect(TokenKind::Word(Word::Up))?;
        let _after = self.expect(TokenKind::Word(Word::After))?;
        let limit = self.numeral()?;
        Ok(plain(RawKind::Answer(RawAnswer::GaveUp(numeral_of(limit)))))
    }

    /// `range`, `degree` or `atoms`
    pub fn stopped(&mut self) -> Result<HeldStatement, Fault>
        ensures { ReadsStatement (rule rules.Stopped) self.old result self.new }
    {
        if self.sees(TokenKind::Word(Word::Range)) {
            let range = self.take();
            return Ok(plain(RawKind::Answer(stopped_word(range.kind))));
        }
        let word = self.expect_either(TokenKind::Word(Word::Degree), TokenKind::Word(Word::Atoms))?;
        Ok(plain(RawKind::Answer(stopped_word(word.kind))))
    }
}

/// A statement that is an answer.
fn answered(held: HeldAnswer) -> HeldStatement
    ensures { result ≡ record { kind = RawKind.Answer held.answer; too_deep = held.too_deep } }
{
    HeldStatement {
        kind: RawKind::Answer(held.answer),
        too_deep: held.too_deep,
    }
}

/// The answer of a word.
fn stopped_word(kind: TokenKind) -> RawAnswer
    ensures { result ≡ stopped_word kind }
{
    match kind {
        TokenKind::Word(Word::Range) => RawAnswer::Range,
        TokenKind::Word(Word::Degree) => RawAnswer::Degree,
        _ => RawAnswer::Atoms,
    }
}
