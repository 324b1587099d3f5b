//! Terms, by recursive descent: the recursion goes down at a parenthesis alone.

ghost use Rattle.alg_reader.specs.Forms.{Sum, Product, Unary, Power, Leaf};
ghost use Rattle.alg_reader.specs.Reading.{ReadsTerm, ReadsInside};

use crate::cursor::{Cursor, Fault};
use crate::parts::{HeldTerm, binary, image, literal, opposites, power_of, variable};
use alg_tokens::{Sign, TokenKind};
use std::alloc::Global;

impl Cursor<'_> {
    #[cycle(terms)]
    pub fn sum(&mut self, alloc: Global) -> Result<HeldTerm, Fault>
        ensures { ReadsTerm Sum self.old result self.new }
    {
        let mut sum = self.product(alloc)?;
        'turns: while self.sees_either(TokenKind::Sign(Sign::Plus), TokenKind::Sign(Sign::Minus)) {
            let op = self.take();
            let right = self.product(alloc)?;
            sum = binary(alloc, op, sum, right)?;
        }
        Ok(sum)
    }

    #[cycle(terms)]
    fn product(&mut self, alloc: Global) -> Result<HeldTerm, Fault>
        ensures { ReadsTerm Product self.old result self.new }
    {
        let mut product = self.unary(alloc)?;
        'turns: while self.sees_either(TokenKind::Sign(Sign::Star), TokenKind::Sign(Sign::Slash)) {
            let op = self.take();
            let right = self.unary(alloc)?;
            product = binary(alloc, op, product, right)?;
        }
        Ok(product)
    }

    #[cycle(terms)]
    fn unary(&mut self, alloc: Global) -> Result<HeldTerm, Fault>
        ensures { ReadsTerm Unary self.old result self.new }
    {
        let mut heads = Vec::new(alloc);
        'signs: while self.sees(TokenKind::Sign(Sign::Minus)) {
            let minus = self.take();
            heads.push(minus.start)?;
        }
        let power = self.power(alloc)?;
        Ok(opposites(alloc, &heads, power)?)
    }

    #[cycle(terms)]
    fn power(&mut self, alloc: Global) -> Result<HeldTerm, Fault>
        ensures { ReadsTerm Power self.old result self.new }
    {
        let base = self.leaf(alloc)?;
        if !self.sees(TokenKind::Sign(Sign::Caret)) {
            return Ok(base);
        }
        let caret = self.take();
        let exponent = self.numeral()?;
        Ok(power_of(alloc, caret, base, exponent)?)
    }

    #[cycle(terms)]
    fn leaf(&mut self, alloc: Global) -> Result<HeldTerm, Fault>
        ensures { ReadsTerm Leaf self.old result self.new }
    {
        if self.sees_number() {
            let number = self.take();
            return Ok(literal(number));
        }
        if self.sees(TokenKind::Name) {
            let name = self.take();
            if !self.sees(TokenKind::Sign(Sign::ParenLeft)) {
                return Ok(variable(name));
            }
            let of = self.inside(alloc)?;
            return Ok(image(alloc, name, of)?);
        }
        self.inside(alloc)
    }

    /// A sum in parentheses.
    #[cycle(terms)]
    fn inside(&mut self, alloc: Global) -> Result<HeldTerm, Fault>
        ensures { ReadsInside self.old result self.new }
    {
        let _paren = self.expect(TokenKind::Sign(Sign::ParenLeft))?;
        let sum = self.sum(alloc)?;
        let _close = self.expect(TokenKind::Sign(Sign::ParenRight))?;
        Ok(sum)
    }
}
