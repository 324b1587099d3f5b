//! The faults of a text, and the numbers by which refusals tell them.

ghost use Rattle.std.specs.Prelude.{◌≡◌};
ghost use Rattle.alg_tokens.specs.Codes.{code_number, fault_at};

use crate::token::Refusal;

/// What is wrong at a byte of a text.
#[derive(Clone, Copy, PartialEq, Eq, Debug)]
pub enum Code {
    /// The bytes are no UTF-8.
    Utf8,
    /// A character begins no token.
    Char,
    /// A numeral is over the greatest literal.
    Number,
    /// No statement begins so.
    Syntax,
    /// The text ends inside a statement.
    End,
    /// A name is declared again.
    Again,
    /// A name is not declared.
    Unknown,
    /// A name is declared as another thing.
    WrongUse,
    /// Sorts differ.
    Sort,
    /// No side of an equation has a sort.
    NoSort,
    /// A term is too deep.
    Depth,
    /// An exponent is over the greatest.
    Exponent,
    /// A quotient stands where none may.
    Division,
    /// A goal by nsatz is of a ring that is no domain.
    NotDomain,
    /// A goal by field, or a `<>` under a morphism, is of no field.
    NotField,
    /// The power or the limit of a goal by nsatz is out of range.
    Option,
    /// The form of an answer does not belong to the method of its goal.
    Answer,
    /// A part of a certificate or a monomial of an answer can't be: a number is too great, an atom is not
    /// in the table of the goal, a degree is over the greatest, or there is no such version.
    Line,
    /// Too many parentheses are open.
    Nesting,
}

impl Code {
    /// The number by which a refusal tells the fault.
    pub fn number(self) -> u8
        ensures { result ≡ code_number self }
    {
        match self {
            Code::Utf8 => 1,
            Code::Char => 2,
            Code::Number => 3,
            Code::Syntax => 4,
            Code::End => 5,
            Code::Again => 6,
            Code::Unknown => 7,
            Code::WrongUse => 8,
            Code::Sort => 9,
            Code::NoSort => 10,
            Code::Depth => 11,
            Code::Exponent => 12,
            Code::Division => 13,
            Code::NotDomain => 14,
            Code::NotField => 15,
            Code::Option => 16,
            Code::Answer => 17,
            Code::Line => 18,
            Code::Nesting => 19,
        }
    }

    /// The fault at a byte.
    pub fn at(self, at: u32) -> Refusal
        ensures { result ≡ fault_at self at }
    {
        Refusal {
            code: self.number(),
            at,
        }
    }
}
