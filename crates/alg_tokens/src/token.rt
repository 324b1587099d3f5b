//! What a text is cut into.

/// A word that can't be a name, one variant each.
#[derive(Clone, Copy, PartialEq, Eq, Debug)]
pub enum Word {
    Additive,
    After,
    And,
    At,
    Atoms,
    By,
    Char,
    Degree,
    Denominator,
    Domain,
    Field,
    Gave,
    Goal,
    Hom,
    Hyp,
    If,
    Limit,
    Line,
    Minus,
    No,
    None,
    Nsatz,
    Over,
    Power,
    Proved,
    Range,
    Ring,
    Semiring,
    Step,
    To,
    Up,
    Using,
    Var,
    Version,
    Zero,
}

/// A sign: `.` `:` `,` `=` `<>` `->` `(` `)` `+` `-` `*` `/` `^`.
#[derive(Clone, Copy, PartialEq, Eq, Debug)]
pub enum Sign {
    Dot,
    Colon,
    Comma,
    Equal,
    NotEqual,
    Arrow,
    ParenLeft,
    ParenRight,
    Plus,
    Minus,
    Star,
    Slash,
    Caret,
}

/// What a token is. A numeral has its value, a name only its place in the text.
#[derive(Clone, Copy, PartialEq, Eq, Debug)]
pub enum TokenKind {
    Name,
    Word(Word),
    Number(i128),
    Sign(Sign),
    End,
}

/// A token with the byte at which it starts and the one at which it stops; the end of the text has
/// the text's length for both.
#[derive(Clone, Copy, PartialEq, Eq, Debug)]
pub struct Token {
    pub kind: TokenKind,
    pub start: u32,
    pub stop: u32,
}

/// A fault of a text: its number, which `Code::number` gives, and the byte at which it stands.
#[derive(Clone, Copy, PartialEq, Eq, Debug)]
pub struct Refusal {
    pub code: u8,
    pub at: u32,
}
