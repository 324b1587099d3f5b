//! Statements, each part by part.

ghost use Rattle.std.specs.Prelude.{◌≡◌};
ghost use Rattle.std.specs.Option.{option_or};
ghost use Rattle.alg_reader.specs.Forms as rules;
ghost use Rattle.alg_reader.specs.Forms.{rule};
ghost use Rattle.alg_reader.specs.Reading.{Reads, ReadsNames, ReadsStatement};
ghost use Rattle.alg_reader.specs.Grammar.{answer_or, body, line_or, said_at, step_or};
ghost use Rattle.alg_reader.specs.Parts.{held_statement, HasNoTerms};
ghost use Rattle.alg_reader.specs.Meaning.{method_value};
ghost use Rattle.alg_reader.specs.PartMeaning.{sides, sort_word, method_word};
ghost use Rattle.alg_reader.specs.RawNodes.{is_unequal};

use crate::cursor::{Cursor, Fault};
use crate::format::Format;
use crate::parts::{HeldStatement, HeldTerm, span_of};
use crate::place::Place;
use crate::raw::{RawEquation, RawKind, RawMethod, Span};
use alg_terms::{Kind, Seq};
use alg_tokens::{Sign, Token, TokenKind, Word};
use std::alloc::Global;

impl Cursor<'_> {
    /// A statement that may stand at a place, to its `.`.
    pub fn statement(&mut self, alloc: Global, place: Place) -> Result<HeldStatement, Fault>
        ensures { ReadsStatement (rule (rules.Statement place)) self.old result self.new }
    {
        let said = self.said(alloc, place)?;
        let _dot = self.expect(TokenKind::Sign(Sign::Dot))?;
        Ok(said)
    }

    /// What a statement at a place says.
    fn said(&mut self, alloc: Global, place: Place) -> Result<HeldStatement, Fault>
        ensures { ReadsStatement (said_at place) self.old result self.new }
    {
        match place {
            Place::Plain | Place::Start => self.body(alloc),
            Place::AfterGoal => self.after_goal(alloc),
            Place::Lines => self.among_lines(alloc, Format::One),
            Place::Steps => self.among_steps(alloc, Format::One),
            Place::LinesTwo => self.among_lines(alloc, Format::Two),
            Place::StepsTwo => self.among_steps(alloc, Format::Two),
        }
    }

    /// An answer, a declaration or a goal.
    fn after_goal(&mut self, alloc: Global) -> Result<HeldStatement, Fault>
        ensures { ReadsStatement (answer_or body) self.old result self.new }
    {
        if self.sees(TokenKind::Word(Word::Proved)) {
            return self.proved(alloc);
        }
        if self.sees(TokenKind::Word(Word::No)) {
            return self.no(alloc);
        }
        if self.sees(TokenKind::Word(Word::Zero)) {
            return self.zero_denominator(alloc);
        }
        if self.sees(TokenKind::Word(Word::None)) {
            return self.none_up_to();
        }
        if self.sees(TokenKind::Word(Word::Gave)) {
            return self.gave_up();
        }
        if self.sees_either(TokenKind::Word(Word::Range), TokenKind::Word(Word::Degree)) {
            return self.stopped();
        }
        if self.sees(TokenKind::Word(Word::Atoms)) {
            return self.stopped();
        }
        self.body(alloc)
    }

    /// A line, a step, a declaration or a goal.
    fn among_lines(&mut self, alloc: Global, format: Format) -> Result<HeldStatement, Fault>
        ensures { ReadsStatement (line_or format) self.old result self.new }
    {
        if self.sees(TokenKind::Word(Word::Line)) {
            return self.line(alloc, format);
        }
        self.among_steps(alloc, format)
    }

    /// A step, a declaration or a goal.
    fn among_steps(&mut self, alloc: Global, format: Format) -> Result<HeldStatement, Fault>
        ensures { ReadsStatement (step_or format) self.old result self.new }
    {
        if self.sees(TokenKind::Word(Word::Step)) {
            return self.step(alloc, format);
        }
        self.body(alloc)
    }

    /// What a statement says, by its first word.
    fn body(&mut self, alloc: Global) -> Result<HeldStatement, Fault>
        ensures { ReadsStatement body self.old result self.new }
    {
        if self.sees(TokenKind::Word(Word::Ring)) {
            return self.ring();
        }
        if self.sees_either(TokenKind::Word(Word::Domain), TokenKind::Word(Word::Field)) {
            return self.sort();
        }
        if self.sees(TokenKind::Word(Word::Hom)) {
            return self.hom();
        }
        if self.sees(TokenKind::Word(Word::Var)) {
            return self.vars(alloc);
        }
        if self.sees(TokenKind::Word(Word::Hyp)) {
            return self.hyp(alloc);
        }
        self.goal(alloc)
    }

    /// `ring R`
    fn ring(&mut self) -> Result<HeldStatement, Fault>
        ensures { ReadsStatement (rule rules.Ring) self.old result self.new }
    {
        let _ring = self.expect(TokenKind::Word(Word::Ring))?;
        let name = self.expect(TokenKind::Name)?;
        Ok(plain(RawKind::Sort {
            kind: Kind::Ring,
            name: span_of(name),
            char0: false,
        }))
    }

    /// `hom f : R -> S`
    fn hom(&mut self) -> Result<HeldStatement, Fault>
        ensures { ReadsStatement (rule rules.Hom) self.old result self.new }
    {
        let _hom = self.expect(TokenKind::Word(Word::Hom))?;
        let name = self.expect(TokenKind::Name)?;
        let _colon = self.expect(TokenKind::Sign(Sign::Colon))?;
        let from = self.expect(TokenKind::Name)?;
        let _arrow = self.expect(TokenKind::Sign(Sign::Arrow))?;
        let to = self.expect(TokenKind::Name)?;
        Ok(plain(RawKind::Hom {
            name: span_of(name),
            from: span_of(from),
            to: span_of(to),
        }))
    }

    /// `domain D`, or `field F char 0`
    fn sort(&mut self) -> Result<HeldStatement, Fault>
        ensures { ReadsStatement (rule rules.Sort) self.old result self.new }
    {
        let word = self.expect_either(TokenKind::Word(Word::Domain), TokenKind::Word(Word::Field))?;
        let name = self.expect(TokenKind::Name)?;
        let kind = sort_word(word.kind);
        let name = span_of(name);
        if !self.sees(TokenKind::Word(Word::Char)) {
            return Ok(plain(RawKind::Sort {
                kind,
                name,
                char0: false,
            }));
        }
        let _char = self.take();
        let _zero = self.expect(TokenKind::Number(0))?;
        Ok(plain(RawKind::Sort {
            kind,
            name,
            char0: true,
        }))
    }

    /// `var x y : R`
    fn vars(&mut self, alloc: Global) -> Result<HeldStatement, Fault>
        ensures { ReadsStatement (rule rules.Vars) self.old result self.new }
    {
        let _var = self.expect(TokenKind::Word(Word::Var))?;
        let first = self.expect(TokenKind::Name)?;
        let names = self.names(alloc, span_of(first))?;
        let _colon = self.expect(TokenKind::Sign(Sign::Colon))?;
        let sort = self.expect(TokenKind::Name)?;
        Ok(plain(RawKind::Vars {
            names,
            sort: span_of(sort),
        }))
    }

    /// A first name and those that follow it.
    fn names(&mut self, alloc: Global, first: Span) -> Result<Seq<Span>, Fault>
        ensures { ReadsNames first self.old result self.new }
    {
        let mut names = Vec::new(alloc);
        names.push(first)?;
        'names: while self.sees(TokenKind::Name) {
            let name = self.take();
            names.push(span_of(name))?;
        }
        Ok(Seq::from_vec(names))
    }

    /// `hyp H : t = u`, or with `<>`
    fn hyp(&mut self, alloc: Global) -> Result<HeldStatement, Fault>
        ensures { ReadsStatement (rule rules.Hyp) self.old result self.new }
    {
        let _hyp = self.expect(TokenKind::Word(Word::Hyp))?;
        let name = self.expect(TokenKind::Name)?;
        let _colon = self.expect(TokenKind::Sign(Sign::Colon))?;
        let left = self.sum(alloc)?;
        let relation = self.expect_either(
            TokenKind::Sign(Sign::Equal),
            TokenKind::Sign(Sign::NotEqual),
        )?;
        let right = self.sum(alloc)?;
        let (equation, too_deep) = sides(left, relation, right);
        let kind = RawKind::Hyp {
            name: span_of(name),
            equation,
        };
        Ok(HeldStatement { kind, too_deep })
    }

    /// `goal t = u by method`
    fn goal(&mut self, alloc: Global) -> Result<HeldStatement, Fault>
        ensures { ReadsStatement (rule rules.Goal) self.old result self.new }
    {
        let _goal = self.expect(TokenKind::Word(Word::Goal))?;
        let left = self.sum(alloc)?;
        let equal = self.expect(TokenKind::Sign(Sign::Equal))?;
        let right = self.sum(alloc)?;
        let _by = self.expect(TokenKind::Word(Word::By))?;
        let (method, method_at) = self.method(alloc)?;
        let (equation, too_deep) = sides(left, equal, right);
        let kind = RawKind::Goal {
            equation,
            method,
            method_at,
        };
        Ok(HeldStatement { kind, too_deep })
    }

    /// The method of a goal and its place.
    fn method(&mut self, alloc: Global) -> Result<(RawMethod, u32), Fault>
        ensures { Reads (rule rules.Method) method_value self.old result self.new }
    {
        if self.sees(TokenKind::Word(Word::Nsatz)) {
            let word = self.take();
            let method = self.options(alloc)?;
            return Ok((method, word.start));
        }
        let word = self.expect_either(TokenKind::Word(Word::Ring), TokenKind::Word(Word::Field))?;
        Ok((method_word(word.kind), word.start))
    }
}

fn sort_word(kind: TokenKind) -> Kind
    ensures { result ≡ sort_word kind }
{
    match kind {
        TokenKind::Word(Word::Ring) => Kind::Ring,
        TokenKind::Word(Word::Domain) => Kind::Domain,
        _ => Kind::Field,
    }
}

fn method_word(kind: TokenKind) -> RawMethod
    ensures { result ≡ method_word kind }
{
    match kind {
        TokenKind::Word(Word::Ring) => RawMethod::Ring,
        _ => RawMethod::Field,
    }
}

fn is_unequal(kind: TokenKind) -> bool
    ensures { result ≡ is_unequal kind }
{
    matches!(kind, TokenKind::Sign(Sign::NotEqual))
}

/// A statement without terms.
pub fn plain(kind: RawKind) -> HeldStatement
    requires { HasNoTerms kind }
    ensures { result ≡ held_statement kind }
{
    HeldStatement {
        kind,
        too_deep: None,
    }
}

/// What is kept of an equation, and its first too deep node.
fn sides(left: HeldTerm, relation: Token, right: HeldTerm) -> (RawEquation, Option<u32>)
    ensures equation { result.0 ≡ sides left.term relation right.term }
    ensures too_deep { result.1 ≡ option_or left.too_deep right.too_deep }
{
    let equation = RawEquation {
        left: left.term,
        relation: relation.start,
        nonzero: is_unequal(relation.kind),
        right: right.term,
    };
    (equation, left.too_deep.or(right.too_deep))
}
