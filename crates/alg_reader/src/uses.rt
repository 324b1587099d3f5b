//! The options of nsatz.

ghost use Rattle.std.specs.Prelude.{◌≢◌};
ghost use Rattle.alg_tokens.specs.declared.token.TokenKind.TheVariants.{End};
ghost use Rattle.alg_reader.specs.Kinds.{variant};
ghost use Rattle.alg_reader.specs.Reading.{ReadsAs, ReadsUse, ReadsUses};
ghost use Rattle.alg_reader.specs.Grammar.{option, options, using};
ghost use Rattle.alg_reader.specs.PartMeaning.{nsatz_of, option_of, uses_of};

use crate::cursor::{Cursor, Fault};
use crate::parts::{numeral_of, span_of};
use crate::raw::{RawMethod, RawNumber, RawUse, Span};
use alg_terms::Seq;
use alg_tokens::{Sign, TokenKind, Word};
use std::alloc::Global;

impl Cursor<'_> {
    /// `using f(H), K power 2 limit 100`, each part once or not.
    pub fn options(&mut self, alloc: Global) -> Result<RawMethod, Fault>
        ensures { ReadsAs options nsatz_of self.old result self.new }
    {
        let uses = self.uses(alloc)?;
        let power = self.option(TokenKind::Word(Word::Power))?;
        let limit = self.option(TokenKind::Word(Word::Limit))?;
        Ok(RawMethod::Nsatz { uses, power, limit })
    }

    /// A word or a sign and a numeral, or nothing.
    pub fn option(&mut self, kind: TokenKind) -> Result<Option<RawNumber>, Fault>
        requires { variant kind ≢ variant End }
        ensures { ReadsAs (option kind) option_of self.old result self.new }
    {
        if !self.sees(kind) {
            return Ok(None);
        }
        let _word = self.take();
        let number = self.numeral()?;
        Ok(Some(numeral_of(number)))
    }

    /// `using` and uses, or nothing.
    fn uses(&mut self, alloc: Global) -> Result<Seq<RawUse>, Fault>
        ensures { ReadsAs using uses_of self.old result self.new }
    {
        if !self.sees(TokenKind::Word(Word::Using)) {
            return Ok(Seq::from_vec(Vec::new(alloc)));
        }
        let _using = self.take();
        let first = self.used(Vec::new(alloc))?;
        self.more_uses(alloc, first)
    }

    /// A first use and those that follow it.
    fn more_uses(&mut self, alloc: Global, first: RawUse) -> Result<Seq<RawUse>, Fault>
        ensures { ReadsUses first self.old result self.new }
    {
        let mut uses = Vec::new(alloc);
        uses.push(first)?;
        'uses: while self.sees(TokenKind::Sign(Sign::Comma)) {
            let _comma = self.take();
            let used = self.used(Vec::new(alloc))?;
            uses.push(used)?;
        }
        Ok(Seq::from_vec(uses))
    }

    /// A use behind morphisms that were read before it, the outermost first.
    fn used(&mut self, before: Vec<Span>) -> Result<RawUse, Fault>
        ensures { ReadsUse before.items self.old result self.new }
    {
        let mut path = before;
        let name = self.expect(TokenKind::Name)?;
        if !self.sees(TokenKind::Sign(Sign::ParenLeft)) {
            return Ok(RawUse {
                path: Seq::from_vec(path),
                hyp: span_of(name),
            });
        }
        path.push(span_of(name))?;
        let _paren = self.take();
        let used = self.used(path)?;
        let _close = self.expect(TokenKind::Sign(Sign::ParenRight))?;
        Ok(used)
    }
}
