//! Reserved words by their texts.

ghost use Rattle.std.specs.Prelude.{◌≡◌, ◌≤◌, ◌<◌, ◌⊎◌, false, length, MatchOption};
ghost use Rattle.alg_terms.specs.Names.{is_reserved};
ghost use Rattle.alg_tokens.specs.Spelling.{spelling};

use crate::token::Word;

/// The reserved word that the text is, looked for among those of its length.
pub fn reserved(text: &str) -> Option<Word>
    ensures { MatchOption result (is_reserved text.now ≡ false) (λ word. text.now ≡ spelling word) }
{
    match text.len() {
        2 => of_two(text),
        3 => of_three(text),
        4 => of_four(text),
        5 => of_five(text),
        _ => of_more(text),
    }
}

fn of_two(text: &str) -> Option<Word>
    requires { length text.now ≡ 2 }
    ensures { MatchOption result (is_reserved text.now ≡ false) (λ word. text.now ≡ spelling word) }
{
    match text {
        "at" => Some(Word::At),
        "by" => Some(Word::By),
        "if" => Some(Word::If),
        "no" => Some(Word::No),
        "to" => Some(Word::To),
        "up" => Some(Word::Up),
        _ => None,
    }
}

fn of_three(text: &str) -> Option<Word>
    requires { length text.now ≡ 3 }
    ensures { MatchOption result (is_reserved text.now ≡ false) (λ word. text.now ≡ spelling word) }
{
    match text {
        "and" => Some(Word::And),
        "hom" => Some(Word::Hom),
        "hyp" => Some(Word::Hyp),
        "var" => Some(Word::Var),
        _ => None,
    }
}

fn of_four(text: &str) -> Option<Word>
    requires { length text.now ≡ 4 }
    ensures { MatchOption result (is_reserved text.now ≡ false) (λ word. text.now ≡ spelling word) }
{
    match text {
        "char" => Some(Word::Char),
        "gave" => Some(Word::Gave),
        "goal" => Some(Word::Goal),
        "line" => Some(Word::Line),
        "none" => Some(Word::None),
        "over" => Some(Word::Over),
        "ring" => Some(Word::Ring),
        "step" => Some(Word::Step),
        "zero" => Some(Word::Zero),
        _ => None,
    }
}

fn of_five(text: &str) -> Option<Word>
    requires { length text.now ≡ 5 }
    ensures { MatchOption result (is_reserved text.now ≡ false) (λ word. text.now ≡ spelling word) }
{
    match text {
        "after" => Some(Word::After),
        "atoms" => Some(Word::Atoms),
        "field" => Some(Word::Field),
        "limit" => Some(Word::Limit),
        "minus" => Some(Word::Minus),
        "nsatz" => Some(Word::Nsatz),
        "power" => Some(Word::Power),
        "range" => Some(Word::Range),
        "using" => Some(Word::Using),
        _ => None,
    }
}

fn of_more(text: &str) -> Option<Word>
    requires { 6 ≤ length text.now ⊎ length text.now < 2 }
    ensures { MatchOption result (is_reserved text.now ≡ false) (λ word. text.now ≡ spelling word) }
{
    match text {
        "additive" => Some(Word::Additive),
        "degree" => Some(Word::Degree),
        "denominator" => Some(Word::Denominator),
        "domain" => Some(Word::Domain),
        "proved" => Some(Word::Proved),
        "semiring" => Some(Word::Semiring),
        "version" => Some(Word::Version),
        _ => None,
    }
}
